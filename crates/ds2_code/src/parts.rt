//! What the code of a program has.

use crate::Instr;
use ds2_base::{List, Name};
use ds2_value::{Column, Ty, Value};

/// What `run` does to a slot before its statements.
#[derive(Clone, Copy, PartialEq, Eq)]
pub enum SlotRole {
    /// It is set to null.
    Cleared,
    /// It keeps its value.
    Kept,
    /// A load sets it: a column of the reading.
    Column,
    /// A load sets it: a flag of the reading.
    Flag,
}

/// A global slot.
#[derive(Drop)]
pub struct Slot {
    pub name: Name,
    pub ty: Ty,
    pub role: SlotRole,
}

/// A constant of its type.
#[derive(Drop)]
pub struct Constant {
    pub ty: Ty,
    pub value: Value,
}

/// A table that code names, with the columns that it must have.
#[derive(Drop)]
pub struct TableReference {
    pub name: Name,
    /// 0 for a table of the store, k for an output of the k-th program of the object.
    pub maker: u32,
    pub columns: List<Column>,
}

/// The table with which a hash object begins, and the numbers of its columns for each key and data variable.
#[derive(Drop)]
pub struct HashTable {
    pub table: TableReference,
    pub key_columns: List<u32>,
    pub data_columns: List<u32>,
}

/// A hash object: the slots of its key and data variables.
#[derive(Drop)]
pub struct HashPart {
    pub key_slots: List<u32>,
    pub data_slots: List<u32>,
    pub loaded: Option<HashTable>,
}

/// A parameter of a method.
#[derive(Clone, Copy, PartialEq, Eq)]
pub struct ParameterPart {
    pub ty: Ty,
    pub is_in_out: bool,
}

/// A method: where its code begins, its parameters, its locals and the type of its result.
#[derive(Drop)]
pub struct MethodPart {
    pub entry: u32,
    pub parameters: List<ParameterPart>,
    pub locals: List<Ty>,
    pub returns: Option<Ty>,
}

/// A table of a reading: the slot of each column, and the slot of its `in=` flag.
#[derive(Drop)]
pub struct ReadPart {
    pub table: TableReference,
    pub present: Option<u32>,
    pub slots: List<u32>,
}

/// A BY variable of a reading: its slot, and the slots of its two flags.
#[derive(Clone, Copy, PartialEq, Eq)]
pub struct ByPart {
    pub slot: u32,
    pub is_descending: bool,
    pub first: u32,
    pub last: u32,
}

/// What the loads of a program are made of.
#[derive(Drop)]
pub enum ReadingPart {
    /// One load that sets nothing.
    Once,
    /// No load.
    Nothing,
    /// The rows of tables, in BY order.
    Set {
        tables: List<ReadPart>,
        bys: List<ByPart>,
    },
    /// The rows of tables merged by their BY variables.
    Merge {
        tables: List<ReadPart>,
        bys: List<ByPart>,
        retains: bool,
    },
    /// The rows of a thread program: how many threads the source asks for, and the slot of each of its columns.
    Stage {
        threads: u8,
        slots: List<u32>,
    },
}

/// A table that a program makes: the name and the slot of each column.
#[derive(Drop)]
pub struct OutputPart {
    pub name: Name,
    pub overwrites: bool,
    pub columns: List<(Name, u32)>,
}

/// The parts of the code of one program, unchecked; those of the thread program that it reads from stand beside it.
#[derive(Drop)]
pub struct ProgramParts {
    /// The name of a thread program.
    pub name: Option<Name>,
    pub slots: List<Slot>,
    pub constants: List<Constant>,
    pub hashes: List<HashPart>,
    /// The hash of each hash iterator.
    pub iterators: List<u32>,
    /// The slot of each thread parameter.
    pub parameters: List<u32>,
    pub methods: List<MethodPart>,
    pub reading: ReadingPart,
    pub outputs: List<OutputPart>,
    pub init: u32,
    pub run: u32,
    pub term: u32,
    pub instrs: List<Instr>,
}

/// The code of a data program and of the thread programs that it stands on, unchecked: the first one is that which it reads from, the
/// second that which this one reads from, and so on.
#[derive(Drop)]
pub struct StagedParts {
    pub program: ProgramParts,
    pub stages: List<ProgramParts>,
}
