//! A write that is torn.
ghost use Rattle.std.specs.Prelude.{◌≡◌};
ghost use Rattle.ds2_outside.specs.Tears.{kept_at};

/// A call that fails where it is one of the trait, and leaves the first bytes where it is a write.
#[derive(Clone, Copy, PartialEq, Eq)]
pub struct Tear {
    /// The number of the call, counted from 1.
    pub call: u64,
    /// The most bytes that a write leaves under the name.
    pub keep: u64,
}

/// How many bytes the first tear of this call keeps; None exactly where the call has no tear.
pub(crate) fn kept_at(tears: &[Tear], call: u64) -> Option<u64>
    ensures { result ≡ kept_at call tears.now }
{
    for tear in tears {
        if tear.call == call {
            return Some(tear.keep);
        }
    }
    None
}
