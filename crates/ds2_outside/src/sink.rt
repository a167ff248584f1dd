//! A log that grows at its end.
ghost use Rattle.std.specs.Prelude.{◌≡◌, ℕ, List, ◌++◌, Option, IfSome, OnOk, OnErr, IsErrOf, option_map};
ghost use Rattle.ds2_outside.specs.Causes.{HasCause};
ghost use Rattle.ds2_outside.specs.Written.{TakesPart};

use crate::WriteStop;
use ds2_base::Bytes;

/// A log that grows at its end. It may tell what it has taken. Its count of faults never falls, and a call answers Failed
/// only where the count rose in that call, or stands at its end.
pub trait Sink {
    /// The bytes that were taken, where the log tells them.
    ghost written: { Self → Option (List ℕ) };

    /// How often a write has failed.
    ghost faults: { Self → ℕ };

    /// Appends the bytes; after a refusal, a prefix of them.
    fn write_all(&mut self, bytes: &Bytes) -> Result<(), WriteStop>
        ensures ok { OnOk result (written self.new ≡ option_map (λ before. before ++ bytes.now) (written self.old)) }
        ensures err { OnErr result (IfSome (written self.old) (λ before. TakesPart before bytes.now (written self.new))) }
        ensures cause { HasCause (faults self.old) (faults self.new) (IsErrOf result WriteStop.Failed) };
}
