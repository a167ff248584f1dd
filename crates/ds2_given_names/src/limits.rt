//! TooManyNames: the first name beyond a limit.
ghost use Rattle.std.specs.Prelude.{◌≡◌, IfOk};
ghost use Rattle.ds2_names.specs.UnitRules.{beyond};
ghost use Rattle.ds2_scope.specs.Earliest.{earliest};

use ds2_base::Place;

/// The earliest of places beyond so many.
pub(crate) fn earliest_beyond(limit: usize, places: &mut [Place]) -> Option<Place>
    ensures { result ≡ earliest (beyond limit places.old) }
{
    if places.len() <= limit {
        return None;
    }
    let (_, place, _) = places.select_nth_unstable(limit);
    Some(*place)
}
