//! The code of a call.
ghost use Rattle.std.specs.Prelude.{◌≡◌};
ghost use Rattle.ds2_hash.specs.Calls.{call_code};

use ds2_value::Value;

/// The code of a call of a hash object or of an iterator: 0 where it did what was asked, else 1.
pub fn code_of_call(done: bool) -> Value
    ensures { result ≡ call_code done }
{
    if done { Value::Int(0) } else { Value::Int(1) }
}
