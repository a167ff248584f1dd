//! The parts of a program's code.
ghost use Rattle.std.specs.Prelude.{◌≡◌, ◌&&◌, true};
ghost use Rattle.ds2_value.specs.Types.{in_bounds};
ghost use Rattle.ds2_object_words.specs.Parts.{◌⨾◌};
ghost use Rattle.ds2_object_words.specs.CodeParts.{slot_role_number, slot_role_part, slot_line, reference_line, hash_table_line, hash_line, method_parameter_line, method_line, read_line, by_line, output_line, reference_spelled, hash_table_spelled, hash_spelled, method_spelled, read_spelled, output_spelled};

use crate::{Flaw, Spelled, Unread, read_table_name, write_table_name};
use ds2_base::{Bytes, List, Name, OutOfMemory, Stop};
use ds2_code::{
    ByPart, HashPart, HashTable, MethodPart, OutputPart, ParameterPart, ReadPart, Slot, SlotRole,
    TableReference,
};
use ds2_value::{Column, Ty};
use std::alloc::Global;

// The number of a role.
fn role_number(role: SlotRole) -> u8
    ensures { result ≡ slot_role_number role }
{
    match role {
        SlotRole::Cleared => 0,
        SlotRole::Kept => 1,
        SlotRole::Column => 2,
        SlotRole::Flag => 3,
    }
}

impl Spelled for SlotRole {
    ghost part = { slot_role_part };

    ghost rules = { λ role. true };

    #[tactic(auto, unfolding(crate::specs::CodeParts::slot_role_part))]
    fn read(_alloc: Global, bytes: &mut Unread<'_>) -> Result<SlotRole, Stop<Flaw>> {
        bytes.listed(&[
            SlotRole::Cleared,
            SlotRole::Kept,
            SlotRole::Column,
            SlotRole::Flag,
        ])
    }

    #[tactic(auto, unfolding(crate::specs::CodeParts::slot_role_part))]
    fn write(&self, out: &mut Bytes) -> Result<(), OutOfMemory> {
        out.push(role_number(*self))?;
        Ok(())
    }
}

impl Spelled for Slot {
    ghost part = { slot_line };

    ghost rules = { λ slot. in_bounds slot.ty };

    #[tactic(auto, unfolding(crate::specs::CodeParts::slot_line))]
    fn read(alloc: Global, bytes: &mut Unread<'_>) -> Result<Slot, Stop<Flaw>> {
        let (name, (ty, role)) = <(Name, (Ty, SlotRole))>::read(alloc, bytes)?;
        Ok(Slot { name, ty, role })
    }

    fn write(&self, out: &mut Bytes) -> Result<(), OutOfMemory> {
        self.name.write(out)?;
        self.ty.write(out)?;
        self.role.write(out)?;
        Ok(())
    }
}

impl Spelled for TableReference {
    ghost part = { reference_line };

    ghost rules = { reference_spelled };

    #[tactic(auto, unfolding(crate::specs::CodeParts::reference_line))]
    fn read(alloc: Global, bytes: &mut Unread<'_>) -> Result<TableReference, Stop<Flaw>> {
        let name = read_table_name(alloc, bytes)?;
        let maker = bytes.number32()?;
        let columns = List::<Column>::read(alloc, bytes)?;
        Ok(TableReference {
            name,
            maker,
            columns,
        })
    }

    fn write(&self, out: &mut Bytes) -> Result<(), OutOfMemory> {
        write_table_name(&self.name, out)?;
        self.maker.write(out)?;
        self.columns.write(out)?;
        Ok(())
    }
}

impl Spelled for HashTable {
    ghost part = { hash_table_line };

    ghost rules = { hash_table_spelled };

    #[tactic(auto, unfolding(crate::specs::CodeParts::hash_table_line))]
    fn read(alloc: Global, bytes: &mut Unread<'_>) -> Result<HashTable, Stop<Flaw>> {
        let (table, (key_columns, data_columns)) = <(TableReference, (List<u32>, List<u32>))>::read(
            alloc, bytes,
        )?;
        Ok(HashTable {
            table,
            key_columns,
            data_columns,
        })
    }

    fn write(&self, out: &mut Bytes) -> Result<(), OutOfMemory> {
        self.table.write(out)?;
        self.key_columns.write(out)?;
        self.data_columns.write(out)?;
        Ok(())
    }
}

impl Spelled for HashPart {
    ghost part = { hash_line };

    ghost rules = { hash_spelled };

    #[tactic(auto, unfolding(crate::specs::CodeParts::hash_line))]
    fn read(alloc: Global, bytes: &mut Unread<'_>) -> Result<HashPart, Stop<Flaw>> {
        let (key_slots, (data_slots, loaded)) = <(List<u32>, (List<u32>, Option<HashTable>))>::read(
            alloc, bytes,
        )?;
        Ok(HashPart {
            key_slots,
            data_slots,
            loaded,
        })
    }

    fn write(&self, out: &mut Bytes) -> Result<(), OutOfMemory> {
        self.key_slots.write(out)?;
        self.data_slots.write(out)?;
        self.loaded.write(out)?;
        Ok(())
    }
}

impl Spelled for ParameterPart {
    ghost part = { method_parameter_line };

    ghost rules = { λ parameter. in_bounds parameter.ty };

    #[tactic(auto, unfolding(crate::specs::CodeParts::method_parameter_line))]
    fn read(alloc: Global, bytes: &mut Unread<'_>) -> Result<ParameterPart, Stop<Flaw>> {
        let ty = Ty::read(alloc, bytes)?;
        let is_in_out = bool::read(alloc, bytes)?;
        Ok(ParameterPart { ty, is_in_out })
    }

    fn write(&self, out: &mut Bytes) -> Result<(), OutOfMemory> {
        self.ty.write(out)?;
        self.is_in_out.write(out)?;
        Ok(())
    }
}

impl Spelled for MethodPart {
    ghost part = { method_line };

    ghost rules = { method_spelled };

    #[tactic(auto, unfolding(crate::specs::CodeParts::method_line))]
    fn read(alloc: Global, bytes: &mut Unread<'_>) -> Result<MethodPart, Stop<Flaw>> {
        let (entry, (parameters, (locals, returns))) = <(
            u32,
            (List<ParameterPart>, (List<Ty>, Option<Ty>)),
        )>::read(alloc, bytes)?;
        Ok(MethodPart {
            entry,
            parameters,
            locals,
            returns,
        })
    }

    fn write(&self, out: &mut Bytes) -> Result<(), OutOfMemory> {
        self.entry.write(out)?;
        self.parameters.write(out)?;
        self.locals.write(out)?;
        self.returns.write(out)?;
        Ok(())
    }
}

impl Spelled for ReadPart {
    ghost part = { read_line };

    ghost rules = { read_spelled };

    #[tactic(auto, unfolding(crate::specs::CodeParts::read_line))]
    fn read(alloc: Global, bytes: &mut Unread<'_>) -> Result<ReadPart, Stop<Flaw>> {
        let (table, (present, slots)) = <(TableReference, (Option<u32>, List<u32>))>::read(
            alloc, bytes,
        )?;
        Ok(ReadPart {
            table,
            present,
            slots,
        })
    }

    fn write(&self, out: &mut Bytes) -> Result<(), OutOfMemory> {
        self.table.write(out)?;
        self.present.write(out)?;
        self.slots.write(out)?;
        Ok(())
    }
}

impl Spelled for ByPart {
    ghost part = { by_line };

    ghost rules = { λ by. true };

    #[tactic(auto, unfolding(crate::specs::CodeParts::by_line))]
    fn read(alloc: Global, bytes: &mut Unread<'_>) -> Result<ByPart, Stop<Flaw>> {
        let (slot, (is_descending, (first, last))) = <(u32, (bool, (u32, u32)))>::read(
            alloc, bytes,
        )?;
        Ok(ByPart {
            slot,
            is_descending,
            first,
            last,
        })
    }

    fn write(&self, out: &mut Bytes) -> Result<(), OutOfMemory> {
        self.slot.write(out)?;
        self.is_descending.write(out)?;
        self.first.write(out)?;
        self.last.write(out)?;
        Ok(())
    }
}

impl<A: Spelled, B: Spelled> Spelled for (A, B) {
    ghost part = { A.part ⨾ B.part };

    ghost rules = { λ pair. A.rules pair.0 && B.rules pair.1 };

    fn read(alloc: Global, bytes: &mut Unread<'_>) -> Result<(A, B), Stop<Flaw>> {
        let first = A::read(alloc, bytes)?;
        let second = B::read(alloc, bytes)?;
        Ok((first, second))
    }

    fn write(&self, out: &mut Bytes) -> Result<(), OutOfMemory> {
        let (first, second) = self;
        first.write(out)?;
        second.write(out)?;
        Ok(())
    }
}

impl Spelled for OutputPart {
    ghost part = { output_line };

    ghost rules = { output_spelled };

    #[tactic(auto, unfolding(crate::specs::CodeParts::output_line))]
    fn read(alloc: Global, bytes: &mut Unread<'_>) -> Result<OutputPart, Stop<Flaw>> {
        let name = read_table_name(alloc, bytes)?;
        let overwrites = bool::read(alloc, bytes)?;
        let columns = List::<(Name, u32)>::read(alloc, bytes)?;
        Ok(OutputPart {
            name,
            overwrites,
            columns,
        })
    }

    fn write(&self, out: &mut Bytes) -> Result<(), OutOfMemory> {
        write_table_name(&self.name, out)?;
        self.overwrites.write(out)?;
        self.columns.write(out)?;
        Ok(())
    }
}
