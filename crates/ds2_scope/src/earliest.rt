//! The earliest of several places.
ghost use Rattle.std.specs.Prelude.{◌≡◌, Some};
ghost use Rattle.ds2_names.specs.SourceUnit.{is_earlier};
ghost use Rattle.ds2_names.specs.NameRules.{place_unless};
ghost use Rattle.ds2_scope.specs.Earliest.{earlier_of, earliest};

use ds2_base::Place;

/// Whether a place stands before another one.
pub fn is_earlier(a: Place, b: Place) -> bool
    ensures { result ≡ is_earlier a b }
{
    a.line < b.line || a.line == b.line && a.column < b.column
}

/// The earlier of a place and another one, where there is one.
pub fn earlier(found: Option<Place>, place: Place) -> Place
    ensures { Some result ≡ earlier_of found (Some place) }
{
    match found {
        None => place,
        Some(first) => {
            if is_earlier(place, first) {
                place
            } else {
                first
            }
        }
    }
}

/// The earlier of two places, where there are some.
pub fn earlier_of(found: Option<Place>, other: Option<Place>) -> Option<Place>
    ensures { result ≡ earlier_of found other }
{
    match other {
        None => found,
        Some(place) => Some(earlier(found, place)),
    }
}

/// A place, where a test does not hold.
pub fn place_unless(holds: bool, place: Place) -> Option<Place>
    ensures { result ≡ earliest (place_unless holds place) }
{
    if holds { None } else { Some(place) }
}
