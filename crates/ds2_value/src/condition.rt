//! Values as conditions.
ghost use Rattle.std.specs.Prelude.{◌≡◌};
ghost use Rattle.ds2_value.specs.Value.{truth_of};

use crate::{Truth, Value};

impl Value {
    /// The truth of a value as a condition: Yes for a number other than 0, No for 0, Unknown for what is no number.
    #[tactic(auto, unfolding(crate::specs::Value::truth_of))]
    pub fn truth(&self) -> Truth
        ensures { result ≡ truth_of self.now }
    {
        let units = match self {
            Value::Int(i) => *i as i128,
            Value::Dec(d) => d.units(),
            Value::Null | Value::Txt(_) => return Truth::Unknown,
        };
        if units == 0 { Truth::No } else { Truth::Yes }
    }
}
