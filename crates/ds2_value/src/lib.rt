//! Values, their types, their order and functions, and what ends a run.
//!
//! A contract sees a [`Value`] with the plain data in it: a number as a whole number, a text as its UTF-8 bytes.
//!
//! ```text
//! let total = sum(&Value::Int(119), &Value::Null)?;
//! ```
#![tactic(auto)]

mod arithmetic;
mod assignment;
mod cell;
mod choice;
mod comparison;
mod condition;
mod conversion;
mod decimal_text;
mod equality;
mod fault;
mod fit;
mod functions;
mod hash_function;
mod hashing;
pub mod laws;
mod order;
mod schema;
mod texts;
mod truth;
mod ty;
mod value;
mod value_function;

pub use arithmetic::{absolute, difference, negative, product, remainder, sum};
pub use assignment::{assign, assign_owned};
pub use cell::{Cell, cell_in};
pub use choice::{coalesce, greatest, least};
pub use comparison::{Comparison, compare, compared};
pub use conversion::{decimal_value, fault_of, whole_decimal};
pub use decimal_text::write_dec;
pub use fault::{CALL_DEPTH, Ending, Fault};
pub use functions::{concat, is_null, length, substr, trim};
pub use hash_function::{HashFunction, IteratorFunction};
pub use order::key_compare;
pub use schema::{Column, Schema, copy_columns};
pub use truth::{Truth, and, not, or};
pub use ty::{TEXT_CHARACTERS, Ty, join_types};
pub use value::{Row, Value, copy_row};
pub use value_function::{OperandClass, ResultType, ValueFunction};
