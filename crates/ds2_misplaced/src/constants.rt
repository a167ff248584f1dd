//! The constants for a constructor.
ghost use Rattle.std.specs.Prelude.{◌≡◌, option_copied};
ghost use Rattle.ds2_misplaced.specs.InstanceTests.{is_next_in_out, parameters_behind, constant_handed, wrong_constants, constants_handed};
ghost use Rattle.ds2_names.specs.NameRules.{constant_place, handed_constants};
ghost use Rattle.ds2_scope.specs.Earliest.{earliest};

use ds2_base::Place;
use ds2_scope::{earlier_of, place_unless};
use ds2_tree::Constant;

// The place of the first token of a constant.
fn constant_place(constant: &Constant) -> Place
    ensures { result ≡ constant_place constant.now }
{
    match constant.minus {
        None => constant.value.place,
        Some(place) => place,
    }
}

// The place of a constant, where it is for an in_out parameter.
fn constant_handed(in_out: bool, constant: &Constant) -> Option<Place>
    ensures { result ≡ earliest (constant_handed in_out constant.now) }
{
    if in_out {
        Some(constant_place(constant))
    } else {
        None
    }
}

// Whether the next parameter is in_out.
fn is_next_in_out(flags: &[bool]) -> bool
    ensures { result ≡ is_next_in_out flags.now }
{
    match flags {
        [] => false,
        [flag, ..] => *flag,
    }
}

// The parameters behind the next one.
fn parameters_behind(flags: &[bool]) -> &[bool]
    ensures { result.now ≡ parameters_behind flags.now }
{
    match flags {
        [] => &[],
        [_, behind @ ..] => behind,
    }
}

// The earliest constant for an in_out parameter.
fn handed_constants(flags: &[bool], constants: &[Constant]) -> Option<Place>
    ensures { result ≡ earliest (handed_constants flags.now constants.now) }
{
    let mut found: Option<Place> = None;
    let mut left = flags;
    'constants: for constant in constants {
        found = earlier_of(found, constant_handed(is_next_in_out(left), constant));
        left = parameters_behind(left);
    }
    found
}

/// The earliest constant for an in_out parameter of a constructor, where there is one.
pub(crate) fn constants_handed(constants: &[Constant], flags: Option<&[bool]>) -> Option<Place>
    ensures { result ≡ earliest (constants_handed constants.now (option_copied flags.entry)) }
{
    match flags {
        None => None,
        Some(flags) => handed_constants(flags, constants),
    }
}

/// The place of an instance whose constructor takes another number of constants.
pub(crate) fn wrong_constants(
    place: Place,
    constants: &[Constant],
    flags: Option<&[bool]>,
) -> Option<Place>
    ensures { result ≡ earliest (wrong_constants place constants.now (option_copied flags.entry)) }
{
    match flags {
        None => None,
        Some(flags) => place_unless(constants.len() == flags.len(), place),
    }
}
