//! Deeds by the numbers of the locations and methods that they are of.
ghost use Rattle.std.specs.Prelude.{◌≡◌, [], ◌∷◌, map, OnOk};
ghost use Rattle.ds2_locality.specs.Deeds.{Mention, MentionObject, Change, CallOf, WriteAt, variable_at, variables_at, set_deeds};
ghost use Rattle.ds2_deeds.specs.NamedLocations.{code_home, location_named};
ghost use Rattle.ds2_deeds.specs.NamedMethods.{method_of_name};
ghost use Rattle.ds2_deeds.specs.NumberedDeeds.{ProgramNumbers, numbers_of, with_deeds};

use crate::location::{CodeHome, LocationName, global_location};
use crate::methods::MethodName;
use crate::numbers::{Numbers, number_of, number_of_method};
use ds2_base::{List, OutOfMemory, Place};
use ds2_meaning::{HashVariable, Reference};

/// What a statement does: it mentions or changes a location, calls a method, each by its number, or writes a row or a line at its
/// place.
#[derive(Clone, Copy)]
pub enum NumberedDeed {
    /// A variable, a hash object or an iterator is mentioned.
    Mention(usize),
    /// A location is changed.
    Change(usize),
    /// A method is called.
    Call(usize),
    /// A row or a line is written here.
    Write(Place),
}

/// A variable is mentioned.
#[tactic(auto, unfolding(crate::specs::NumberedDeeds::with_deeds))]
pub fn add_mention(
    numbers: Numbers<'_>,
    deeds: &mut List<NumberedDeed>,
    at: LocationName<'_>,
) -> Result<(), OutOfMemory>
    ensures { OnOk result (deeds.new ≡ with_deeds (numbers_of numbers.entry) (Mention (location_named at.entry) ∷ []) deeds.old) }
{
    match number_of(numbers, at) {
        None => Ok(()),
        Some(number) => deeds.push(NumberedDeed::Mention(number)),
    }
}

/// A hash object or an iterator is mentioned.
#[tactic(auto, unfolding(crate::specs::NumberedDeeds::with_deeds))]
pub fn add_object(
    numbers: Numbers<'_>,
    deeds: &mut List<NumberedDeed>,
    at: LocationName<'_>,
) -> Result<(), OutOfMemory>
    ensures { OnOk result (deeds.new ≡ with_deeds (numbers_of numbers.entry) (MentionObject (location_named at.entry) ∷ []) deeds.old) }
{
    match number_of(numbers, at) {
        None => Ok(()),
        Some(number) => deeds.push(NumberedDeed::Mention(number)),
    }
}

/// A location is changed.
#[tactic(auto, unfolding(crate::specs::NumberedDeeds::with_deeds))]
pub fn add_change(
    numbers: Numbers<'_>,
    deeds: &mut List<NumberedDeed>,
    at: LocationName<'_>,
) -> Result<(), OutOfMemory>
    ensures { OnOk result (deeds.new ≡ with_deeds (numbers_of numbers.entry) (Change (location_named at.entry) ∷ []) deeds.old) }
{
    match number_of(numbers, at) {
        None => Ok(()),
        Some(number) => deeds.push(NumberedDeed::Change(number)),
    }
}

/// A method is called.
#[tactic(auto, unfolding(crate::specs::NumberedDeeds::with_deeds))]
pub fn add_call(
    numbers: Numbers<'_>,
    deeds: &mut List<NumberedDeed>,
    method: MethodName<'_>,
) -> Result<(), OutOfMemory>
    ensures { OnOk result (deeds.new ≡ with_deeds (numbers_of numbers.entry) (CallOf (method_of_name method.entry) ∷ []) deeds.old) }
{
    match number_of_method(numbers, method) {
        None => Ok(()),
        Some(number) => deeds.push(NumberedDeed::Call(number)),
    }
}

/// A row or a line is written at a place.
pub fn add_write(deeds: &mut List<NumberedDeed>, place: Place) -> Result<(), OutOfMemory>
    ensures { (numbers : ProgramNumbers) → OnOk result (deeds.new ≡ with_deeds numbers (WriteAt place ∷ []) deeds.old) }
{
    deeds.push(NumberedDeed::Write(place))
}

/// A variable that a body of a home names is mentioned; a parameter or a local of a method is no location.
#[tactic(auto, using(crate::proofs::DeedLemmas::none_added))]
pub fn add_variable(
    numbers: Numbers<'_>,
    deeds: &mut List<NumberedDeed>,
    home: CodeHome<'_>,
    variable: &Reference,
) -> Result<(), OutOfMemory>
    ensures { OnOk result (deeds.new ≡ with_deeds (numbers_of numbers.entry) (map Mention (variable_at (code_home home.entry) variable.now)) deeds.old) }
{
    match variable {
        Reference::At(global) => add_mention(numbers, deeds, global_location(home, global)),
        Reference::Local(_) => Ok(()),
    }
}

/// A variable that a body of a home names is mentioned and changed.
#[tactic(auto, using(crate::proofs::DeedLemmas::none_added, crate::proofs::DeedLemmas::both_added))]
pub fn add_set(
    numbers: Numbers<'_>,
    deeds: &mut List<NumberedDeed>,
    home: CodeHome<'_>,
    variable: &Reference,
) -> Result<(), OutOfMemory>
    ensures { OnOk result (deeds.new ≡ with_deeds (numbers_of numbers.entry) (set_deeds (code_home home.entry) variable.now) deeds.old) }
{
    match variable {
        Reference::At(global) => {
            let at = global_location(home, global);
            add_mention(numbers, deeds, at)?;
            add_change(numbers, deeds, at)
        }
        Reference::Local(_) => Ok(()),
    }
}

/// The variables of a hash object are mentioned.
pub fn add_mentions(
    numbers: Numbers<'_>,
    deeds: &mut List<NumberedDeed>,
    home: CodeHome<'_>,
    variables: &[HashVariable],
) -> Result<(), OutOfMemory>
    ensures { OnOk result (deeds.new ≡ with_deeds (numbers_of numbers.entry) (map Mention (variables_at (code_home home.entry) variables.now)) deeds.old) }
{
    'variables: for variable in variables {
        add_mention(numbers, deeds, global_location(home, &variable.global))?;
    }
    Ok(())
}

/// The variables of a hash object are changed.
pub fn add_changes(
    numbers: Numbers<'_>,
    deeds: &mut List<NumberedDeed>,
    home: CodeHome<'_>,
    variables: &[HashVariable],
) -> Result<(), OutOfMemory>
    ensures { OnOk result (deeds.new ≡ with_deeds (numbers_of numbers.entry) (map Change (variables_at (code_home home.entry) variables.now)) deeds.old) }
{
    'variables: for variable in variables {
        add_change(numbers, deeds, global_location(home, &variable.global))?;
    }
    Ok(())
}
