//! What decimals are as values, and their faults in a run.
ghost use Rattle.std.specs.Prelude.{◌≡◌};
ghost use Rattle.ds2_value.specs.Types.{whole_decimal, fault_of, decimal_value};

use crate::{Fault, Value};
use ds2_decimal::{Dec, DecFault};

/// A BIGINT as a decimal without digits after the point.
pub fn whole_decimal(i: i64) -> Dec
    ensures { result ≡ whole_decimal i }
{
    Dec::new(i as i128, 0).unwrap()
}

/// What a fault of decimals is in a run.
pub fn fault_of(fault: DecFault) -> Fault
    ensures { result ≡ fault_of fault }
{
    match fault {
        DecFault::Overflow => Fault::Overflow,
        DecFault::DivideByZero => Fault::DivideByZero,
    }
}

/// The value of a decimal that was computed.
pub fn decimal_value(computed: Result<Dec, DecFault>) -> Result<Value, Fault>
    ensures { result ≡ decimal_value computed }
{
    match computed {
        Ok(d) => Ok(Value::Dec(d)),
        Err(fault) => Err(fault_of(fault)),
    }
}
