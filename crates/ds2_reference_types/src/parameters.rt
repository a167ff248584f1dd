//! The parameters that are still to get an argument.
ghost use Rattle.std.specs.Prelude.{◌≡◌, is_none};
ghost use Rattle.std.specs.Option.{option_copied};
ghost use Rattle.ds2_reference_types.specs.Parameters.{front_of, behind_front};

use ds2_meaning::Parameter;

/// The next parameter, where there is one.
#[tactic(auto, using(crate::proofs::Fronts::front_is))]
pub fn first_parameter(parameters: &[Parameter]) -> Option<&Parameter>
    ensures { option_copied result ≡ front_of parameters.now }
{
    match parameters {
        [] => None,
        [p, ..] => Some(p),
    }
}

/// The parameters behind the next one.
pub fn further_parameters(parameters: &[Parameter]) -> &[Parameter]
    ensures { result.now ≡ behind_front parameters.now }
{
    match parameters {
        [] => &[],
        [_, further @ ..] => further,
    }
}

/// Whether each parameter has got its argument.
#[tactic(auto, using(crate::proofs::Fronts::front_there))]
pub fn have_arguments(parameters: &[Parameter]) -> bool
    ensures { result ≡ is_none (front_of parameters.now) }
{
    match parameters {
        [] => true,
        [_, ..] => false,
    }
}
