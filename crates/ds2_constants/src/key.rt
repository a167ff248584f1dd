//! A constant as a key.
use ds2_value::{Ty, Value};

/// A constant with its type. Two are one where their types are, and their values, digit by digit and byte by byte.
#[derive(Drop)]
pub struct ConstantKey {
    pub ty: Ty,
    pub value: Value,
}
