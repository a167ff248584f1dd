//! Arguments, taken out of their list.
ghost use Rattle.std.specs.Prelude.{◌≡◌};
ghost use Rattle.ds2_expression_walk.specs.ArgumentCounts.{one_of, two_of, headed_by_first};

use ds2_base::List;
use ds2_types::judgement::Judgement;

/// Two arguments.
#[derive(Drop)]
pub struct TwoArguments {
    pub first: Judgement,
    pub second: Judgement,
}

/// The first argument and the others.
#[derive(Drop)]
pub struct FirstAndOthers {
    pub first: Judgement,
    pub others: List<Judgement>,
}

/// One argument, where it is alone.
#[tactic(auto, using(crate::proofs::ArgumentForms::one_taken, crate::proofs::ArgumentForms::not_one))]
pub fn single(arguments: List<Judgement>) -> Option<Judgement>
    ensures { result ≡ one_of arguments }
{
    if arguments.len() != 1 {
        return None;
    }
    let mut items = arguments.into_vec();
    let only = items.remove(0);
    Some(only)
}

/// Two arguments, where there are as many.
#[tactic(auto, using(crate::proofs::ArgumentForms::two_taken, crate::proofs::ArgumentForms::not_two))]
pub fn two(arguments: List<Judgement>) -> Option<TwoArguments>
    ensures { result ≡ two_of arguments }
{
    if arguments.len() != 2 {
        return None;
    }
    let mut items = arguments.into_vec();
    let first = items.remove(0);
    let second = items.remove(0);
    Some(TwoArguments { first, second })
}

/// The first argument and the others, where there is one.
#[tactic(auto, using(crate::proofs::ArgumentForms::first_taken))]
pub fn headed(arguments: List<Judgement>) -> Option<FirstAndOthers>
    ensures { result ≡ headed_by_first arguments }
{
    if arguments.is_empty() {
        return None;
    }
    let mut others = arguments.into_vec();
    let first = others.remove(0);
    Some(FirstAndOthers {
        first,
        others: List::of(others),
    })
}
