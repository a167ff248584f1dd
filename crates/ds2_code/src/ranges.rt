//! Whether the numbers of a program's parts name parts that are there.
ghost use Rattle.std.specs.List.{list_all};
ghost use Rattle.std.specs.Option.{option_map_or};
ghost use Rattle.std.specs.Prelude.{◌≡◌, nat_lt, true};
ghost use Rattle.ds2_code.specs.ValidCode.{all_below, hash_in_range, read_in_range, by_in_range, tables_in_range, reading_in_range, output_in_range, parts_in_range};

use crate::{ByPart, HashPart, OutputPart, ProgramParts, ReadPart, ReadingPart};

fn all_below(limit: usize, numbers: &[u32]) -> bool
    ensures { result ≡ all_below limit numbers.now }
{
    numbers.iter().all(|number| (*number as usize) < limit)
}

fn hash_in_range(slots: usize, hash: &HashPart) -> bool
    ensures { result ≡ hash_in_range slots hash.now }
{
    all_below(slots, hash.key_slots.as_slice()) && all_below(slots, hash.data_slots.as_slice())
}

fn hashes_in_range(slots: usize, hashes: &[HashPart]) -> bool
    ensures { result ≡ list_all (hash_in_range slots) hashes.now }
{
    hashes.iter().all(|hash| hash_in_range(slots, hash))
}

fn flag_in_range(slots: usize, flag: Option<u32>) -> bool
    ensures { result ≡ option_map_or (λ n. nat_lt n slots) flag true }
{
    match flag {
        None => true,
        Some(slot) => (slot as usize) < slots,
    }
}

fn read_in_range(slots: usize, read: &ReadPart) -> bool
    ensures { result ≡ read_in_range slots read.now }
{
    all_below(slots, read.slots.as_slice()) && flag_in_range(slots, read.present)
}

fn reads_in_range(slots: usize, reads: &[ReadPart]) -> bool
    ensures { result ≡ list_all (read_in_range slots) reads.now }
{
    reads.iter().all(|read| read_in_range(slots, read))
}

fn by_in_range(slots: usize, by: &ByPart) -> bool
    ensures { result ≡ by_in_range slots by.now }
{
    (by.slot as usize) < slots && (by.first as usize) < slots && (by.last as usize) < slots
}

fn bys_in_range(slots: usize, bys: &[ByPart]) -> bool
    ensures { result ≡ list_all (by_in_range slots) bys.now }
{
    bys.iter().all(|by| by_in_range(slots, by))
}

fn tables_in_range(slots: usize, tables: &[ReadPart], bys: &[ByPart]) -> bool
    ensures { result ≡ tables_in_range slots tables.now bys.now }
{
    tables.len() <= 16
        && bys.len() <= 16
        && reads_in_range(slots, tables)
        && bys_in_range(slots, bys)
}

fn reading_in_range(slots: usize, reading: &ReadingPart) -> bool
    ensures { result ≡ reading_in_range slots reading.now }
{
    match reading {
        ReadingPart::Once => true,
        ReadingPart::Nothing => true,
        ReadingPart::Set { tables, bys } => tables_in_range(
            slots,
            tables.as_slice(),
            bys.as_slice(),
        ),
        ReadingPart::Merge { tables, bys, .. } => tables_in_range(
            slots,
            tables.as_slice(),
            bys.as_slice(),
        ),
        ReadingPart::Stage { slots: into, .. } => all_below(slots, into.as_slice()),
    }
}

fn output_in_range(slots: usize, output: &OutputPart) -> bool
    ensures { result ≡ output_in_range slots output.now }
{
    output
        .columns
        .as_slice()
        .iter()
        .all(|column| (column.1 as usize) < slots)
}

fn outputs_in_range(slots: usize, outputs: &[OutputPart]) -> bool
    ensures { result ≡ list_all (output_in_range slots) outputs.now }
{
    outputs.iter().all(|output| output_in_range(slots, output))
}

impl ProgramParts {
    /// Whether each number beside the instructions names a part that is there, and a reading has at most 16 tables and 16 BY variables.
    pub fn numbers_in_range(&self) -> bool
        ensures { result ≡ parts_in_range self.now }
    {
        let slots = self.slots.len();
        hashes_in_range(slots, self.hashes.as_slice())
            && all_below(self.hashes.len(), self.iterators.as_slice())
            && all_below(slots, self.parameters.as_slice())
            && reading_in_range(slots, &self.reading)
            && outputs_in_range(slots, self.outputs.as_slice())
    }
}
