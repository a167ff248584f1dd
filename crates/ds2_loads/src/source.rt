//! Where the loads of a program come from.
ghost use Rattle.std.specs.Prelude.{◌≡◌, ◌<◌, List as Items, IfOk, Some, length, slice_get};
ghost use Rattle.ds2_code.specs.Desk.{SlotSettings};
ghost use Rattle.ds2_loads.specs.Sources.{IsNextLoad};

use ds2_base::OutOfMemory;
use ds2_machine::UnitLoad;
use std::alloc::Global;

/// The loads of a program, one after the other and in groups. A source stands at one of them, or before the first, and as a [`UnitLoad`]
/// it sets the slots of the one at which it stands. All its memory is taken at opening.
pub trait LoadSource: UnitLoad + Sized {
    /// What each load that is left sets, in order.
    ghost left: { Self → Items SlotSettings };

    /// What each load of each group sets, whatever was given so far.
    ghost grouped: { Self → Items (Items SlotSettings) };

    /// Goes to the next load; false exactly behind the last one. Takes no memory.
    fn next_load(&mut self) -> bool
        ensures next { IsNextLoad result (left self.old) (Self.settings self.new) (left self.new) }
        ensures grouped { grouped self.new ≡ grouped self.old };

    /// How many groups there are; none in a source that was opened without groups.
    fn groups(&self) -> u64
        ensures { result ≡ length (grouped self.now) };

    /// Goes before the first load of a group. The loads of that group are left then, and no others. Takes no memory.
    fn enter(&mut self, g: u64)
        requires { g < length (grouped self.old) }
        ensures entered { slice_get (grouped self.old) g ≡ Some (left self.new) }
        ensures grouped { grouped self.new ≡ grouped self.old };

    /// An equal source at the same load; tables and rows are shared.
    fn copy(&self, alloc: Global) -> Result<Self, OutOfMemory>
        ensures load { IfOk result (λ copied. Self.settings copied ≡ Self.settings self.now) }
        ensures left { IfOk result (λ copied. left copied ≡ left self.now) }
        ensures grouped { IfOk result (λ copied. grouped copied ≡ grouped self.now) };
}
