//! Instructions: an operation code, and the fields of its row in the machine's table.
ghost use Rattle.std.specs.Prelude.{◌≡◌, slice_get, map, IsTrue, OnOk, Ok};
ghost use Rattle.std.specs.Option.{option_map, option_and_then};
ghost use Rattle.ds2_object_words.specs.Parts.{ReadsPart, Writes, and_read};
ghost use Rattle.ds2_object_instrs.specs.InstrSpelling.{comparison_values, comparison_number, hash_function_values, hash_function_number, iterator_function_values, iterator_function_number, field_number, field_type, field_digits, field_length, field_test, field_place, field_call, is_no_field, shape_part, shape_of_fields, fields_spelled, written_place, function_call, bare_row, row_of_code, instr_row_of, fields_of, written_instr_part, written_instr_of, instr_of};

use ds2_base::{Bytes, OutOfMemory, Place, Stop};
use ds2_code::{Instr, ROW_COUNT, of_row, with_rows};
use ds2_object_words::{Flaw, Spelled, Unread, bad};
use ds2_value::{Comparison, HashFunction, IteratorFunction, Ty, ValueFunction};
use std::alloc::Global;

/// What stands behind an operation code.
#[derive(Clone, Copy)]
pub enum Shape {
    /// Nothing.
    NoField,
    /// A number of 32 bits.
    NumberField,
    /// A type.
    TypeField,
    /// Two bytes: digits, and those after the point.
    DigitsFields,
    /// A length of 16 bits.
    LengthField,
    /// A byte: the number of a comparison.
    TestField,
    /// Two numbers of 32 bits: a line and a column.
    PlaceFields,
    /// A number of 32 bits and a byte: an object, and the number of a call.
    CallFields,
}

/// The fields of an instruction. The numbers of comparisons and of calls are any bytes.
#[derive(Clone, Copy)]
pub enum Fields {
    NoField,
    NumberField(u32),
    TypeField(Ty),
    DigitsFields(u8, u8),
    LengthField(u16),
    TestField(u8),
    PlaceFields(u32, u32),
    CallFields(u32, u8),
}

/// An instruction as it is written: an operation code, and the fields of its row.
#[derive(Clone, Copy)]
pub struct WrittenInstr {
    pub code: u8,
    pub fields: Fields,
}

// The place in the row of a step of the budget.
const START: Place = Place { line: 1, column: 1 };

// An instruction of a row, by its name and its fields.
macro_rules! row_instr {
    (bare $name:ident) => { Instr::$name };
    (function $name:ident $function:ident) => { Instr::$name(ValueFunction::$function) };
    (number $name:ident) => { Instr::$name(0) };
    (ty $name:ident) => { Instr::$name(Ty::BigInt) };
    (digits $name:ident) => { Instr::$name(0, 0) };
    (length $name:ident) => { Instr::$name(0) };
    (test $name:ident) => { Instr::$name(Comparison::Equal) };
    (place $name:ident) => { Instr::$name(START) };
    (hash_call $name:ident) => { Instr::$name(0, HashFunction::Find) };
    (iterator_call $name:ident) => { Instr::$name(0, IteratorFunction::First) };
}

// A list of an instruction of each row.
macro_rules! row_instrs {
    ([] $($name:ident($fields:ident $($function:ident)?) = $code:literal,)*) => {
        [$(row_instr!($fields $name $($function)?)),*]
    };
}

// An instruction of each row, in the order of the operation codes.
const ROW_INSTRS: [Instr; ROW_COUNT] = with_rows!(row_instrs);

const COMPARISONS: [Comparison; 6] = [
    Comparison::Equal,
    Comparison::NotEqual,
    Comparison::Less,
    Comparison::LessOrEqual,
    Comparison::Greater,
    Comparison::GreaterOrEqual,
];

const HASH_FUNCTIONS: [HashFunction; 7] = [
    HashFunction::Find,
    HashFunction::Check,
    HashFunction::Add,
    HashFunction::Replace,
    HashFunction::Remove,
    HashFunction::Clear,
    HashFunction::NumItems,
];

const ITERATOR_FUNCTIONS: [IteratorFunction; 4] = [
    IteratorFunction::First,
    IteratorFunction::Next,
    IteratorFunction::Prev,
    IteratorFunction::Last,
];

fn comparison_number(comparison: Comparison) -> u8
    ensures { result ≡ comparison_number comparison }
{
    match comparison {
        Comparison::Equal => 0,
        Comparison::NotEqual => 1,
        Comparison::Less => 2,
        Comparison::LessOrEqual => 3,
        Comparison::Greater => 4,
        Comparison::GreaterOrEqual => 5,
    }
}

fn hash_function_number(function: HashFunction) -> u8
    ensures { result ≡ hash_function_number function }
{
    match function {
        HashFunction::Find => 0,
        HashFunction::Check => 1,
        HashFunction::Add => 2,
        HashFunction::Replace => 3,
        HashFunction::Remove => 4,
        HashFunction::Clear => 5,
        HashFunction::NumItems => 6,
    }
}

fn iterator_function_number(function: IteratorFunction) -> u8
    ensures { result ≡ iterator_function_number function }
{
    match function {
        IteratorFunction::First => 0,
        IteratorFunction::Next => 1,
        IteratorFunction::Prev => 2,
        IteratorFunction::Last => 3,
    }
}

// The shape of fields.
macro_rules! shape {
    (bare) => { Shape::NoField };
    (function) => { Shape::NoField };
    (number) => { Shape::NumberField };
    (ty) => { Shape::TypeField };
    (digits) => { Shape::DigitsFields };
    (length) => { Shape::LengthField };
    (test) => { Shape::TestField };
    (place) => { Shape::PlaceFields };
    (hash_call) => { Shape::CallFields };
    (iterator_call) => { Shape::CallFields };
}

// The shape of the fields of an instruction's row.
macro_rules! shape_of_row {
    ([$row:expr] $($name:ident($fields:ident $($function:ident)?) = $code:literal,)*) => {
        match $row {
            $(of_row!($fields $name $($function)?) => shape!($fields),)*
        }
    };
}

// What stands behind the operation code of an instruction's row.
fn shape_of(row: Instr) -> Shape
    ensures { result ≡ (instr_row_of row).shape }
{
    with_rows!(shape_of_row row)
}

// The fields of a shape.
fn read_fields(alloc: Global, shape: Shape, bytes: &mut Unread<'_>) -> Result<Fields, Stop<Flaw>>
    ensures { ReadsPart result ((shape_part shape).read bytes.old) bytes.new }
{
    match shape {
        Shape::NoField => Ok(Fields::NoField),
        Shape::NumberField => Ok(Fields::NumberField(bytes.number32()?)),
        Shape::TypeField => Ok(Fields::TypeField(Ty::read(alloc, bytes)?)),
        Shape::DigitsFields => {
            let p = bytes.byte()?;
            let s = bytes.byte()?;
            Ok(Fields::DigitsFields(p, s))
        }
        Shape::LengthField => Ok(Fields::LengthField(bytes.number16()?)),
        Shape::TestField => Ok(Fields::TestField(bytes.byte()?)),
        Shape::PlaceFields => {
            let line = bytes.number32()?;
            let column = bytes.number32()?;
            Ok(Fields::PlaceFields(line, column))
        }
        Shape::CallFields => {
            let object = bytes.number32()?;
            let function = bytes.byte()?;
            Ok(Fields::CallFields(object, function))
        }
    }
}

impl Fields {
    fn is_no_field(self) -> bool
        ensures { result ≡ is_no_field self }
    {
        match self {
            Fields::NoField => true,
            _ => false,
        }
    }

    fn number(self) -> Option<u32>
        ensures { result ≡ field_number self }
    {
        match self {
            Fields::NumberField(n) => Some(n),
            _ => None,
        }
    }

    fn ty(self) -> Option<Ty>
        ensures { result ≡ field_type self }
    {
        match self {
            Fields::TypeField(ty) => Some(ty),
            _ => None,
        }
    }

    fn digits(self) -> Option<(u8, u8)>
        ensures { result ≡ field_digits self }
    {
        match self {
            Fields::DigitsFields(p, s) => Some((p, s)),
            _ => None,
        }
    }

    fn length(self) -> Option<u16>
        ensures { result ≡ field_length self }
    {
        match self {
            Fields::LengthField(n) => Some(n),
            _ => None,
        }
    }

    fn comparison(self) -> Option<Comparison>
        ensures { result ≡ option_and_then (slice_get comparison_values) (field_test self) }
    {
        match self {
            Fields::TestField(n) => COMPARISONS.get(n as usize).copied(),
            _ => None,
        }
    }

    fn place(self) -> Option<Place>
        ensures { result ≡ option_map written_place (field_place self) }
    {
        match self {
            Fields::PlaceFields(line, column) => Some(Place { line, column }),
            _ => None,
        }
    }

    fn hash_call(self) -> Option<(u32, HashFunction)>
        ensures { result ≡ option_and_then (function_call hash_function_values) (field_call self) }
    {
        match self {
            Fields::CallFields(hash, n) => match HASH_FUNCTIONS.get(n as usize) {
                Some(function) => Some((hash, *function)),
                None => None,
            },
            _ => None,
        }
    }

    fn iterator_call(self) -> Option<(u32, IteratorFunction)>
        ensures { result ≡ option_and_then (function_call iterator_function_values) (field_call self) }
    {
        match self {
            Fields::CallFields(iterator, n) => match ITERATOR_FUNCTIONS.get(n as usize) {
                Some(function) => Some((iterator, *function)),
                None => None,
            },
            _ => None,
        }
    }
}

// The instruction of a row without fields.
fn bare_instr(row: Instr, fields: Fields) -> Option<Instr>
    ensures { result ≡ (bare_row row).make fields }
{
    if fields.is_no_field() {
        Some(row)
    } else {
        None
    }
}

// The instruction of a name with these fields, where there is one.
macro_rules! made {
    (bare $given:ident $name:ident) => { bare_instr(Instr::$name, $given) };
    (function $given:ident $name:ident $function:ident) => { bare_instr(Instr::$name(ValueFunction::$function), $given) };
    (number $given:ident $name:ident) => {
        match $given.number() {
            Some(number) => Some(Instr::$name(number)),
            None => None,
        }
    };
    (ty $given:ident $name:ident) => { Some(Instr::$name($given.ty()?)) };
    (digits $given:ident $name:ident) => {{
        let (p, s) = $given.digits()?;
        Some(Instr::$name(p, s))
    }};
    (length $given:ident $name:ident) => { Some(Instr::$name($given.length()?)) };
    (test $given:ident $name:ident) => { Some(Instr::$name($given.comparison()?)) };
    (place $given:ident $name:ident) => { Some(Instr::$name($given.place()?)) };
    (hash_call $given:ident $name:ident) => {{
        let (hash, function) = $given.hash_call()?;
        Some(Instr::$name(hash, function))
    }};
    (iterator_call $given:ident $name:ident) => {{
        let (iterator, function) = $given.iterator_call()?;
        Some(Instr::$name(iterator, function))
    }};
}

// The instruction of an instruction's row with these fields, where there is one.
macro_rules! made_in_row {
    ([$row:ident $given:ident] $($name:ident($fields:ident $($function:ident)?) = $code:literal,)*) => {
        match $row {
            $(of_row!($fields $name $($function)?) => made!($fields $given $name $($function)?),)*
        }
    };
}

// The instruction of a row with these fields, where there is one.
fn instr_with(row: Instr, fields: Fields) -> Option<Instr>
    ensures { result ≡ (instr_row_of row).make fields }
{
    with_rows!(made_in_row row fields)
}

// The instruction of a name, as a pattern, with its fields, of which there are two at the most.
macro_rules! taken_apart {
    (bare $a:ident $b:ident $name:ident) => { Instr::$name };
    (function $a:ident $b:ident $name:ident $function:ident) => { Instr::$name(ValueFunction::$function) };
    (number $a:ident $b:ident $name:ident) => { Instr::$name($a) };
    (ty $a:ident $b:ident $name:ident) => { Instr::$name($a) };
    (digits $a:ident $b:ident $name:ident) => { Instr::$name($a, $b) };
    (length $a:ident $b:ident $name:ident) => { Instr::$name($a) };
    (test $a:ident $b:ident $name:ident) => { Instr::$name($a) };
    (place $a:ident $b:ident $name:ident) => { Instr::$name($a) };
    (hash_call $a:ident $b:ident $name:ident) => { Instr::$name($a, $b) };
    (iterator_call $a:ident $b:ident $name:ident) => { Instr::$name($a, $b) };
}

// These fields as they are written.
macro_rules! written {
    (bare $a:ident $b:ident) => { Fields::NoField };
    (function $a:ident $b:ident) => { Fields::NoField };
    (number $a:ident $b:ident) => { Fields::NumberField($a) };
    (ty $a:ident $b:ident) => { Fields::TypeField($a) };
    (digits $a:ident $b:ident) => { Fields::DigitsFields($a, $b) };
    (length $a:ident $b:ident) => { Fields::LengthField($a) };
    (test $a:ident $b:ident) => { Fields::TestField(comparison_number($a)) };
    (place $a:ident $b:ident) => { Fields::PlaceFields($a.line, $a.column) };
    (hash_call $a:ident $b:ident) => { Fields::CallFields($a, hash_function_number($b)) };
    (iterator_call $a:ident $b:ident) => { Fields::CallFields($a, iterator_function_number($b)) };
}

// The fields of an instruction as they are written.
macro_rules! written_fields {
    ([$instr:expr] $($name:ident($fields:ident $($function:ident)?) = $code:literal,)*) => {
        match $instr {
            $(taken_apart!($fields a b $name $($function)?) => written!($fields a b),)*
        }
    };
}

// The fields of an instruction.
fn fields_of(instr: Instr) -> Fields
    ensures { result ≡ fields_of instr }
{
    with_rows!(written_fields instr)
}

// The instruction with this number.
fn instr_at(instrs: &[Instr], number: u8) -> Option<Instr>
    ensures { result ≡ slice_get instrs.now number }
{
    instrs.get(number as usize).copied()
}

// The instruction with this number, for its row.
fn row_among(instrs: &[Instr], number: u8) -> Option<Instr>
    ensures { option_map instr_row_of result ≡ slice_get (map instr_row_of instrs.now) number }
{
    instr_at(instrs, number)
}

// An instruction of the row with this operation code.
fn row_at(code: u8) -> Option<Instr>
    ensures { option_map instr_row_of result ≡ row_of_code code }
{
    row_among(&ROW_INSTRS, code)
}

// What was read in a row.
fn read_row(alloc: Global, row: Instr, bytes: &mut Unread<'_>) -> Result<Option<Instr>, Stop<Flaw>>
    ensures { ReadsPart result (and_read ((shape_part (instr_row_of row).shape).read bytes.old) (λ fields rest. Ok ((instr_row_of row).make fields, rest))) bytes.new }
{
    let fields = read_fields(alloc, shape_of(row), bytes)?;
    Ok(instr_with(row, fields))
}

/// An instruction; None where the number of a comparison or of a call in it is none.
#[tactic(auto, unfolding(crate::specs::InstrSpelling::written_instr_part, crate::specs::InstrSpelling::operation_part))]
pub fn read_instr(alloc: Global, bytes: &mut Unread<'_>) -> Result<Option<Instr>, Stop<Flaw>>
    ensures { ReadsPart result (and_read (written_instr_part.read bytes.old) (λ w rest. Ok (instr_of w, rest))) bytes.new }
{
    let left = bytes.left();
    let code = bytes.byte()?;
    match row_at(code) {
        Some(row) => read_row(alloc, row, bytes),
        None => Err(bad(left)),
    }
}

// Puts the spelling of fields behind the bytes.
fn write_fields(fields: Fields, out: &mut Bytes) -> Result<(), OutOfMemory>
    requires { IsTrue (fields_spelled fields) }
    ensures { OnOk result (Writes (shape_part (shape_of_fields fields)) out.old fields out.new) }
{
    match fields {
        Fields::NoField => Ok(()),
        Fields::NumberField(n) => {
            n.write(out)?;
            Ok(())
        }
        Fields::TypeField(ty) => {
            ty.write(out)?;
            Ok(())
        }
        Fields::DigitsFields(p, s) => {
            (p, s).write(out)?;
            Ok(())
        }
        Fields::LengthField(n) => {
            n.write(out)?;
            Ok(())
        }
        Fields::TestField(n) => {
            n.write(out)?;
            Ok(())
        }
        Fields::PlaceFields(line, column) => {
            (line, column).write(out)?;
            Ok(())
        }
        Fields::CallFields(object, function) => {
            (object, function).write(out)?;
            Ok(())
        }
    }
}

/// Puts the spelling of an instruction behind the bytes; a type in it is in bounds.
#[tactic(auto, unfolding(crate::specs::InstrSpelling::written_instr_part, crate::specs::InstrSpelling::operation_part, ds2_object_words::specs::Parts::byte_part))]
pub fn write_instr(instr: Instr, out: &mut Bytes) -> Result<(), OutOfMemory>
    requires { IsTrue (fields_spelled (fields_of instr)) }
    ensures { OnOk result (Writes written_instr_part out.old (written_instr_of instr) out.new) }
{
    out.push(instr.code())?;
    write_fields(fields_of(instr), out)?;
    Ok(())
}
