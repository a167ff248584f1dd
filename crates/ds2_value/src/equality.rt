//! Values are equal, ordered and hashed as keys.
ghost use Rattle.std.specs.Prelude.{◌≡◌, refl};
ghost use Rattle.std.specs.Ordering.{as_partial_cmp};
ghost use Rattle.ds2_value.specs.ValueLaws.{value_equiv, value_per, value_partial_order, key_order_total};
ghost use Rattle.ds2_value.specs.Order.{key_order, value_eq};

use crate::{Value, key_compare};
use std::cmp::Ordering;

impl PartialEq for Value {
    ghost eq = { value_eq };

    ghost laws = { value_per };

    fn eq(&self, other: &Self) -> bool {
        key_compare(self, other).is_eq()
    }
}

impl Eq for Value {
    ghost laws = { value_equiv };
}

impl PartialOrd for Value {
    ghost partial_cmp = { as_partial_cmp key_order };

    ghost laws = { value_partial_order };

    fn partial_cmp(&self, other: &Self) -> Option<Ordering> {
        Some(self.cmp(other))
    }
}

impl Ord for Value {
    ghost cmp = { key_order };

    ghost total = { key_order_total };

    ghost matches_partial_cmp = { λ x y. refl };

    ghost matches_eq = { λ x y. refl };

    fn cmp(&self, other: &Self) -> Ordering {
        key_compare(self, other)
    }
}
