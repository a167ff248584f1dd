//! Whether the lists of a program's parts are short enough for their lengths to be written.
ghost use Rattle.std.specs.List.{list_all};
ghost use Rattle.std.specs.Option.{option_map_or};
ghost use Rattle.std.specs.Prelude.{◌≡◌, ◌^◌, nat_lt, true};
ghost use Rattle.ds2_code.specs.ValidCode.{is_short, hash_table_short, hash_short, method_short, read_short, reading_short, own_lists_short, lists_short};

use crate::{HashPart, HashTable, MethodPart, OutputPart, ProgramParts, ReadPart, ReadingPart};

// A length that an unsigned number of 32 bits can hold.
fn is_short(length: usize) -> bool
    ensures { result ≡ nat_lt length (2 ^ 32) }
{
    length < 4_294_967_296
}

fn hash_table_short(table: &HashTable) -> bool
    ensures { result ≡ hash_table_short table.now }
{
    is_short(table.table.columns.len())
        && is_short(table.key_columns.len())
        && is_short(table.data_columns.len())
}

fn loaded_short(loaded: &Option<HashTable>) -> bool
    ensures { result ≡ option_map_or hash_table_short loaded.now true }
{
    match loaded {
        None => true,
        Some(table) => hash_table_short(table),
    }
}

fn hash_short(hash: &HashPart) -> bool
    ensures { result ≡ hash_short hash.now }
{
    is_short(hash.key_slots.len()) && is_short(hash.data_slots.len()) && loaded_short(&hash.loaded)
}

fn hashes_short(hashes: &[HashPart]) -> bool
    ensures { result ≡ list_all hash_short hashes.now }
{
    hashes.iter().all(|hash| hash_short(hash))
}

fn method_short(method: &MethodPart) -> bool
    ensures { result ≡ method_short method.now }
{
    is_short(method.parameters.len()) && is_short(method.locals.len())
}

fn methods_short(methods: &[MethodPart]) -> bool
    ensures { result ≡ list_all method_short methods.now }
{
    methods.iter().all(|method| method_short(method))
}

fn read_short(read: &ReadPart) -> bool
    ensures { result ≡ read_short read.now }
{
    is_short(read.table.columns.len()) && is_short(read.slots.len())
}

fn reads_short(reads: &[ReadPart]) -> bool
    ensures { result ≡ list_all read_short reads.now }
{
    reads.iter().all(|read| read_short(read))
}

fn reading_short(reading: &ReadingPart) -> bool
    ensures { result ≡ reading_short reading.now }
{
    match reading {
        ReadingPart::Once => true,
        ReadingPart::Nothing => true,
        ReadingPart::Set { tables, .. } => reads_short(tables.as_slice()),
        ReadingPart::Merge { tables, .. } => reads_short(tables.as_slice()),
        ReadingPart::Stage { slots, .. } => is_short(slots.len()),
    }
}

fn outputs_short(outputs: &[OutputPart]) -> bool
    ensures { result ≡ list_all (λ o. is_short o.columns) outputs.now }
{
    outputs.iter().all(|output| is_short(output.columns.len()))
}

impl ProgramParts {
    // Whether the lists of the parts that lie in one list each are short.
    fn own_lists_short(&self) -> bool
        ensures { result ≡ own_lists_short self.now }
    {
        is_short(self.slots.len())
            && is_short(self.constants.len())
            && is_short(self.hashes.len())
            && is_short(self.iterators.len())
            && is_short(self.parameters.len())
            && is_short(self.methods.len())
            && is_short(self.outputs.len())
            && is_short(self.instrs.len())
    }

    /// Whether each list has fewer than 2^32 items.
    pub fn lists_are_short(&self) -> bool
        ensures { result ≡ lists_short self.now }
    {
        self.own_lists_short()
            && hashes_short(self.hashes.as_slice())
            && methods_short(self.methods.as_slice())
            && reading_short(&self.reading)
            && outputs_short(self.outputs.as_slice())
    }
}
