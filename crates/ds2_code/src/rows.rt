//! The rows of the machine's table, by their numbers.
ghost use Rattle.std.specs.Prelude.{◌≡◌};
ghost use Rattle.ds2_code.specs.OperationCode.{operation_code, RowsInOrder};

use crate::Instr;
use ds2_value::ValueFunction;

/// How many rows the machine's table has.
pub const ROW_COUNT: usize = 58;

/// A table with an item for each row of the machine's table.
#[derive(Clone, Copy)]
pub struct Rows<const N: usize> {
    /// The number of each row, which is its operation code in an object file.
    pub codes: [u8; N],
}

/// Hands all rows on to a macro, with what else that one takes: the name of each row, which fields stand behind its operation code in an
/// object file, the function of one that applies a function, and its number.
#[macro_export]
macro_rules! with_rows {
    ($then:ident $($more:tt)*) => {
        $then! {
            [$($more)*]
            Const(number) = 0,
            Null(ty) = 1,
            GLoad(number) = 2,
            GStore(number) = 3,
            LLoad(number) = 4,
            LStore(number) = 5,
            DropTop(bare) = 6,
            IToD(bare) = 7,
            Rescale(digits) = 8,
            Pad(length) = 9,
            Cut(length) = 10,
            IAdd(bare) = 11,
            ISub(bare) = 12,
            IMul(bare) = 13,
            INeg(bare) = 14,
            Apply(function IntegerAbsolute) = 15,
            Apply(function IntegerModulo) = 16,
            DAdd(bare) = 17,
            DSub(bare) = 18,
            DMul(bare) = 19,
            DDiv(bare) = 20,
            DNeg(bare) = 21,
            Apply(function DecimalAbsolute) = 22,
            Apply(function DecimalModulo) = 23,
            Apply(function Floor) = 24,
            Apply(function Ceiling) = 25,
            ICmp(test) = 26,
            DCmp(test) = 27,
            TCmp(test) = 28,
            And(bare) = 29,
            Or(bare) = 30,
            Not(bare) = 31,
            ITruth(bare) = 32,
            DTruth(bare) = 33,
            Apply(function IsNull) = 34,
            Choose(number) = 35,
            Least(number) = 36,
            Greatest(number) = 37,
            Cat(bare) = 38,
            Apply(function Length) = 39,
            Apply(function Substring) = 40,
            Apply(function SubstringFrom) = 41,
            Apply(function Trim) = 42,
            Tick(place) = 43,
            Jump(number) = 44,
            JFalse(number) = 45,
            JTrue(number) = 46,
            Call(number) = 47,
            Ret(bare) = 48,
            RetV(bare) = 49,
            NoWhen(bare) = 50,
            Output(number) = 51,
            Show(bare) = 52,
            Put(number) = 53,
            HCall(hash_call) = 54,
            ICall(iterator_call) = 55,
            SetParm(number) = 56,
            End(bare) = 57,
        }
    };
}

// A list of the numbers.
macro_rules! codes {
    ([] $($name:ident($fields:ident $($function:ident)?) = $code:literal,)*) => {
        [$($code),*]
    };
}

/// The instructions of a row, as a pattern.
#[macro_export]
macro_rules! of_row {
    (function $name:ident $function:ident) => { Instr::$name(ValueFunction::$function) };
    ($fields:ident $name:ident) => { Instr::$name { .. } };
}

// The number of an instruction's row.
macro_rules! code_of {
    ([$instr:expr] $($name:ident($fields:ident $($function:ident)?) = $code:literal,)*) => {
        match $instr {
            $(of_row!($fields $name $($function)?) => $code,)*
        }
    };
}

/// The rows of the machine's table.
pub const ROWS: Rows<ROW_COUNT> = Rows {
    codes: with_rows!(codes),
};

const _: () = prove!(ROWS.codes.len() == ROW_COUNT);

impl Instr {
    /// The number of the instruction's row.
    pub fn code(&self) -> u8
        ensures { result ≡ operation_code self.now }
    {
        with_rows!(code_of * self)
    }
}

/// The rows stand in the order of their numbers, from 0 on, so that no two have one number.
pub fn rows_in_order()
    ensures { RowsInOrder }
{}
