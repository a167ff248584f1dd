//! Types and columns.
ghost use Rattle.std.specs.Prelude.{◌≡◌, IsTrue, OnOk};
ghost use Rattle.ds2_value.specs.Types.{in_bounds};
ghost use Rattle.ds2_object_words.specs.Parts.{ReadsPart, Writes, tagged_part};
ghost use Rattle.ds2_object_words.specs.Words.{type_part, type_tag, type_alternatives, column_part};

use crate::unread::bad;
use crate::{Flaw, Spelled, Unread};
use ds2_base::{Bytes, Name, OutOfMemory, Stop};
use ds2_value::{Column, Ty};
use std::alloc::Global;

// A type, whether in bounds or not.
fn read_tagged(bytes: &mut Unread<'_>) -> Result<Ty, Stop<Flaw>>
    ensures { ReadsPart result ((tagged_part type_tag type_alternatives).read bytes.old) bytes.new }
{
    let left = bytes.left();
    match bytes.byte()? {
        0 => Ok(Ty::BigInt),
        1 => {
            let p = bytes.byte()?;
            let s = bytes.byte()?;
            Ok(Ty::Decimal { p, s })
        }
        2 => {
            let n = bytes.number16()?;
            Ok(Ty::Char { n })
        }
        3 => {
            let n = bytes.number16()?;
            Ok(Ty::Varchar { n })
        }
        4.. => Err(bad(left)),
    }
}

// Puts the spelling of a type behind the bytes, whether it is in bounds or not.
fn write_tagged(ty: Ty, out: &mut Bytes) -> Result<(), OutOfMemory>
    ensures { OnOk result (Writes (tagged_part type_tag type_alternatives) out.old ty out.new) }
{
    match ty {
        Ty::BigInt => {
            out.push(0)?;
            Ok(())
        }
        Ty::Decimal { p, s } => {
            out.push(1)?;
            p.write(out)?;
            s.write(out)?;
            Ok(())
        }
        Ty::Char { n } => {
            out.push(2)?;
            n.write(out)?;
            Ok(())
        }
        Ty::Varchar { n } => {
            out.push(3)?;
            n.write(out)?;
            Ok(())
        }
    }
}

impl Spelled for Ty {
    ghost part = { type_part };

    ghost rules = { in_bounds };

    #[tactic(auto, unfolding(crate::specs::Words::type_part))]
    fn read(_alloc: Global, bytes: &mut Unread<'_>) -> Result<Ty, Stop<Flaw>> {
        let left = bytes.left();
        let ty = read_tagged(bytes)?;
        if ty.is_in_bounds() {
            Ok(ty)
        } else {
            Err(bad(left))
        }
    }

    #[tactic(auto, unfolding(crate::specs::Words::type_part))]
    fn write(&self, out: &mut Bytes) -> Result<(), OutOfMemory> {
        write_tagged(*self, out)?;
        Ok(())
    }
}

impl Spelled for Column {
    ghost part = { column_part };

    ghost rules = { λ column. in_bounds column.ty };

    #[tactic(auto, unfolding(crate::specs::Words::column_part))]
    fn read(alloc: Global, bytes: &mut Unread<'_>) -> Result<Column, Stop<Flaw>> {
        let name = Name::read(alloc, bytes)?;
        let ty = Ty::read(alloc, bytes)?;
        Ok(Column { name, ty })
    }

    fn write(&self, out: &mut Bytes) -> Result<(), OutOfMemory> {
        self.name.write(out)?;
        self.ty.write(out)?;
        Ok(())
    }
}
