//! The grains at which the loads of thread programs are put into groups.
ghost use Rattle.std.specs.Prelude.{◌≡◌};
ghost use Rattle.ds2_unit.specs.ProgramRun.{grain_asked};

/// The first of these grains, or 0.
pub fn first_grain(grains: &[u32]) -> u32
    ensures { result ≡ grain_asked grains.now }
{
    match grains {
        [] => 0,
        [grain, ..] => *grain,
    }
}
