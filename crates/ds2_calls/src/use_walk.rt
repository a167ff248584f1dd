//! How the statements of a method use names: the walk that all rules on uses share.
ghost use Rattle.std.specs.Prelude.{◌≡◌, ◌∷◌, [], IfOk, option_copied};
ghost use Rattle.ds2_tree.specs.ExpressionViews.{expression_tree, operands_of, arguments_of};
ghost use Rattle.ds2_names.specs.NameRules.{is_flag_word};
ghost use Rattle.ds2_names.specs.Uses.{Values, Members, HandsOver, CallsOn, Sets, WritesTo, uses, operand_uses, argument_uses};
ghost use Rattle.ds2_calls.specs.UseParts.{UsePlaces, InOutFlags, earliest_use, next_flag, further_flags, uses_of_argument, handed_name};

use ds2_base::{OutOfMemory, Place};
use ds2_scope::earlier_of;
use ds2_token::Token;
use ds2_tree::{Argument, Callee, Expression, Operand};
use std::alloc::Global;

/// A rule on how names are used: for each use the earliest place at which it is broken.
pub trait UseRule {
    /// For each parameter of what is called whether it is in_out.
    ghost flags: { Self → InOutFlags };

    /// The places at which a use breaks the rule.
    ghost places: { Self → UsePlaces };

    /// For each parameter of what is called whether it is in_out.
    fn in_out(&self, alloc: Global, callee: &Callee) -> Result<&[bool], OutOfMemory>
        ensures { IfOk result (λ found. found.now ≡ flags self.now callee.now) };

    /// The value of a name.
    fn value(&self, alloc: Global, name: &Token) -> Result<Option<Place>, OutOfMemory>
        ensures { IfOk result (λ place. place ≡ earliest_use (places self.now) (Values name.now ∷ [])) };

    /// `x.y` without an argument list.
    fn member(
        &self,
        alloc: Global,
        object: &Token,
        member: &Token,
    ) -> Result<Option<Place>, OutOfMemory>
        ensures { IfOk result (λ place. place ≡ earliest_use (places self.now) (Members object.now member.now ∷ [])) };

    /// A variable that is handed to an in_out parameter.
    fn hand_over(&self, alloc: Global, name: &Token) -> Result<Option<Place>, OutOfMemory>
        ensures { IfOk result (λ place. place ≡ earliest_use (places self.now) (HandsOver name.now ∷ [])) };

    /// A call with its arguments.
    fn call(
        &self,
        alloc: Global,
        callee: &Callee,
        arguments: &[Argument],
    ) -> Result<Option<Place>, OutOfMemory>
        ensures { IfOk result (λ place. place ≡ earliest_use (places self.now) (CallsOn callee.now (arguments_of arguments.now) ∷ [])) };

    /// The target of an assignment, and the variable of a counted `do`.
    fn set(&self, alloc: Global, name: &Token) -> Result<Option<Place>, OutOfMemory>
        ensures { IfOk result (λ place. place ≡ earliest_use (places self.now) (Sets name.now ∷ [])) };

    /// A table of `output`.
    fn write(&self, alloc: Global, table: &Token) -> Result<Option<Place>, OutOfMemory>
        ensures { IfOk result (λ place. place ≡ earliest_use (places self.now) (WritesTo table.now ∷ [])) };
}

/// Whether a name before a point is a flag's word, `first` or `last`.
pub fn is_flag_word(object: &Token) -> bool
    ensures { result ≡ is_flag_word object.now }
{
    object.is_word("first") || object.is_word("last")
}

/// Whether the next argument is for an in_out parameter.
pub fn next_flag(flags: &[bool]) -> bool
    ensures { result ≡ next_flag flags.now }
{
    match flags {
        [] => false,
        [flag, ..] => *flag,
    }
}

/// What is told of the arguments behind the next one.
pub fn further_flags(flags: &[bool]) -> &[bool]
    ensures { result.now ≡ further_flags flags.now }
{
    match flags {
        [] => &[],
        [_, further @ ..] => further,
    }
}

/// The earliest place at which an expression breaks a rule on uses.
#[cycle(walk_expressions)]
#[tactic(auto, using(crate::proofs::UseLemmas::uses_of_call, crate::proofs::UseLemmas::uses_of_chain, crate::proofs::UseLemmas::both_uses))]
pub(crate) fn in_expression<R: UseRule>(
    alloc: Global,
    rule: &R,
    e: &Expression,
) -> Result<Option<Place>, OutOfMemory>
    ensures { IfOk result (λ place. place ≡ earliest_use (R.places rule.now) (uses (R.flags rule.now) (expression_tree e.now))) }
{
    match e {
        Expression::Constant(_) => Ok(None),
        Expression::Null(_) => Ok(None),
        Expression::Variable(name) => rule.value(alloc, name),
        Expression::Member { object, member, .. } => rule.member(alloc, object, member),
        Expression::Call {
            callee,
            arguments,
            ..
        } => in_call(alloc, rule, callee, arguments.as_slice()),
        Expression::Parenthesis { inner, .. } => in_expression(alloc, rule, inner),
        Expression::Sign { operand, .. } => in_expression(alloc, rule, operand),
        Expression::Chain { first, rest, .. } => {
            let found = in_expression(alloc, rule, first)?;
            let further = in_operands(alloc, rule, rest.as_slice())?;
            Ok(earlier_of(found, further))
        }
        Expression::Comparison { left, right, .. } => {
            let found = in_expression(alloc, rule, left)?;
            let other = in_expression(alloc, rule, right)?;
            Ok(earlier_of(found, other))
        }
        Expression::Not { operand, .. } => in_expression(alloc, rule, operand),
    }
}

/// The earliest place at which a call breaks a rule on uses.
#[cycle(walk_expressions)]
#[tactic(auto, using(crate::proofs::UseLemmas::use_and))]
pub(crate) fn in_call<R: UseRule>(
    alloc: Global,
    rule: &R,
    callee: &Callee,
    arguments: &[Argument],
) -> Result<Option<Place>, OutOfMemory>
    ensures { IfOk result (λ place. place ≡ earliest_use (R.places rule.now) (CallsOn callee.now (arguments_of arguments.now) ∷ argument_uses (R.flags rule.now) (R.flags rule.now callee.now) (arguments_of arguments.now))) }
{
    let found = rule.call(alloc, callee, arguments)?;
    let flags = rule.in_out(alloc, callee)?;
    let further = in_arguments(alloc, rule, flags, arguments)?;
    Ok(earlier_of(found, further))
}

// The earliest one in the further operands of a chain.
#[cycle(walk_expressions)]
fn in_operands<R: UseRule>(
    alloc: Global,
    rule: &R,
    operands: &[Operand],
) -> Result<Option<Place>, OutOfMemory>
    ensures { IfOk result (λ place. place ≡ earliest_use (R.places rule.now) (operand_uses (R.flags rule.now) (operands_of operands.now))) }
{
    let mut found: Option<Place> = None;
    'operands: for operand in operands {
        found = earlier_of(found, in_expression(alloc, rule, &operand.value)?);
    }
    Ok(found)
}

/// The name in an argument for an in_out parameter, where it is one.
#[tactic(auto, using(crate::proofs::UseLemmas::no_name_in_call, crate::proofs::UseLemmas::no_name_in_chain))]
pub fn handed_name(in_out: bool, e: &Expression) -> Option<&Token>
    ensures { option_copied result ≡ handed_name in_out (expression_tree e.now) }
{
    match e {
        Expression::Variable(name) => if in_out { Some(name) } else { None },
        Expression::Constant(_) => None,
        Expression::Null(_) => None,
        Expression::Member { .. } => None,
        Expression::Call { .. } => None,
        Expression::Parenthesis { .. } => None,
        Expression::Sign { .. } => None,
        Expression::Chain { .. } => None,
        Expression::Comparison { .. } => None,
        Expression::Not { .. } => None,
    }
}

// The earliest one in an argument, for an in_out parameter or for another one.
#[cycle(walk_expressions)]
fn in_argument<R: UseRule>(
    alloc: Global,
    rule: &R,
    in_out: bool,
    argument: &Argument,
) -> Result<Option<Place>, OutOfMemory>
    ensures { IfOk result (λ place. place ≡ earliest_use (R.places rule.now) (uses_of_argument (R.flags rule.now) (handed_name in_out (expression_tree argument.now.value)) (expression_tree argument.now.value))) }
{
    match handed_name(in_out, &argument.value) {
        None => in_expression(alloc, rule, &argument.value),
        Some(name) => rule.hand_over(alloc, name),
    }
}

/// The earliest place at which arguments break a rule on uses, of which some are for in_out parameters.
#[cycle(walk_expressions)]
pub(crate) fn in_arguments<R: UseRule>(
    alloc: Global,
    rule: &R,
    flags: &[bool],
    arguments: &[Argument],
) -> Result<Option<Place>, OutOfMemory>
    ensures { IfOk result (λ place. place ≡ earliest_use (R.places rule.now) (argument_uses (R.flags rule.now) flags.now (arguments_of arguments.now))) }
{
    let mut found: Option<Place> = None;
    let mut left = flags;
    'arguments: for argument in arguments {
        found = earlier_of(found, in_argument(alloc, rule, next_flag(left), argument)?);
        left = further_flags(left);
    }
    Ok(found)
}
