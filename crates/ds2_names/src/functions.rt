//! The functions that sources call by their names.
ghost use Rattle.std.specs.Prelude.{◌≡◌};
ghost use Rattle.ds2_names.specs.Functions.{null_test, function_named, takes_so_many};

use ds2_meaning::Function;
use ds2_value::ValueFunction;

/// At least and at most so many arguments.
pub type Counts = (usize, usize);

/// What a function of one value is, by the type of the value; None for a type that it does not take.
#[derive(Clone, Copy)]
pub struct ByType {
    pub integer: Option<Function>,
    pub decimal: Option<Function>,
    pub text: Option<Function>,
}

/// A function of several values in one type.
#[derive(Clone, Copy, PartialEq, Eq)]
pub enum FunctionOfMany {
    Coalesce,
    Greatest,
    Least,
}

/// A function that is called by its name.
#[derive(Clone, Copy)]
pub enum NamedFunction {
    OfOne(ByType),
    OfMany(FunctionOfMany),
    Remainder,
    Substring,
}

/// A function, and how many arguments it takes.
#[derive(Clone, Copy)]
pub struct FunctionRow {
    pub function: NamedFunction,
    pub counts: Counts,
}

// A function of values.
macro_rules! value {
    ($name:ident) => {
        Function::Value(ValueFunction::$name)
    };
}

// A function of one value, for a BIGINT, for a DECIMAL and for a text.
macro_rules! of_one {
    ($integer:expr, $decimal:expr, $text:expr) => {
        NamedFunction::OfOne(ByType {
            integer: $integer,
            decimal: $decimal,
            text: $text,
        })
    };
}

/// The function of the word `null`, of one value of whatever type.
pub fn null_test() -> ByType
    ensures { result ≡ null_test }
{
    let function = Some(value!(IsNull));
    ByType {
        integer: function,
        decimal: function,
        text: function,
    }
}

// A function that takes at least and at most so many arguments.
macro_rules! row {
    ($function:expr, $least:literal, $most:literal) => {
        Some(FunctionRow {
            function: $function,
            counts: ($least, $most),
        })
    };
}

/// The function of this name, where there is one.
pub fn function_named(name: &[u8]) -> Option<FunctionRow>
    ensures { result ≡ function_named name.now }
{
    if b"abs".as_slice() == name {
        row!(
            of_one!(
                Some(value!(IntegerAbsolute)),
                Some(value!(DecimalAbsolute)),
                None
            ),
            1,
            1
        )
    } else if b"ceil".as_slice() == name {
        row!(
            of_one!(Some(Function::Unchanged), Some(value!(Ceiling)), None),
            1,
            1
        )
    } else if b"coalesce".as_slice() == name {
        row!(NamedFunction::OfMany(FunctionOfMany::Coalesce), 1, 16)
    } else if b"floor".as_slice() == name {
        row!(
            of_one!(Some(Function::Unchanged), Some(value!(Floor)), None),
            1,
            1
        )
    } else if b"length".as_slice() == name {
        row!(of_one!(None, None, Some(value!(Length))), 1, 1)
    } else if b"max".as_slice() == name {
        row!(NamedFunction::OfMany(FunctionOfMany::Greatest), 2, 16)
    } else if b"min".as_slice() == name {
        row!(NamedFunction::OfMany(FunctionOfMany::Least), 2, 16)
    } else if b"mod".as_slice() == name {
        row!(NamedFunction::Remainder, 2, 2)
    } else if b"null".as_slice() == name {
        row!(
            of_one!(
                Some(value!(IsNull)),
                Some(value!(IsNull)),
                Some(value!(IsNull))
            ),
            1,
            1
        )
    } else if b"substr".as_slice() == name {
        row!(NamedFunction::Substring, 2, 3)
    } else if b"trim".as_slice() == name {
        row!(of_one!(None, None, Some(value!(Trim))), 1, 1)
    } else {
        None
    }
}

/// Whether so many arguments are taken.
pub fn takes_so_many(counts: Counts, n: usize) -> bool
    ensures { result ≡ takes_so_many counts n }
{
    let (least, most) = counts;
    least <= n && n <= most
}
