//! Variables that are handed in and out.
ghost use Rattle.std.specs.Prelude.{◌≡◌, IfOk, if◌then◌else◌, Some, None};
ghost use Rattle.ds2_elaboration.specs.ExpressionTypes.{TypeScope, is_settable_reference, reference_in, elaborated_variable, elaborated};
ghost use Rattle.ds2_reference_types.specs.Passing.{lent_variable};
ghost use Rattle.ds2_reference_types.specs.Scopes.{reference_of, IsScopeOf};
ghost use Rattle.ds2_tree.specs.ExpressionViews.{expression_tree};

use crate::names::spelled_name;
use crate::scopes::{KnownName, Scope, Standing};
use crate::variables::reference;
use ds2_base::OutOfMemory;
use ds2_meaning::Reference;
use ds2_token::Token;
use ds2_tree::Expression;
use std::alloc::Global;

/// A known variable, where it may be set: it is no flag.
fn settable_known(alloc: Global, known: &KnownName) -> Result<Option<Reference>, OutOfMemory>
    ensures { IfOk result (λ r. r ≡ (if is_settable_reference (reference_of known.now.standing known.now.name) then Some (reference_of known.now.standing known.now.name) else None)) }
{
    match known.standing {
        Standing::Local => {
            let found = reference(alloc, &known.name, Standing::Local)?;
            Ok(Some(found))
        }
        Standing::Variable => {
            let found = reference(alloc, &known.name, Standing::Variable)?;
            Ok(Some(found))
        }
        Standing::Parameter => {
            let found = reference(alloc, &known.name, Standing::Parameter)?;
            Ok(Some(found))
        }
        Standing::Flag => Ok(None),
    }
}

/// The variable that a name stands for, where it may be set.
fn settable_name(
    alloc: Global,
    scope: &Scope<'_>,
    name: &Token,
) -> Result<Option<Reference>, OutOfMemory>
    ensures { (types : TypeScope) → IsScopeOf types scope.now → IfOk result (λ r. r ≡ reference_in (elaborated_variable types name.now).node) }
{
    let spelled = spelled_name(alloc, name)?;
    match scope.variable(&spelled) {
        None => Ok(None),
        Some(known) => settable_known(alloc, known),
    }
}

/// The variable that an expression is, in parentheses or not, where it may be set.
fn settable_variable(
    alloc: Global,
    scope: &Scope<'_>,
    e: &Expression,
) -> Result<Option<Reference>, OutOfMemory>
    ensures { (types : TypeScope) → IsScopeOf types scope.now → IfOk result (λ r. r ≡ reference_in (elaborated types (expression_tree e.now)).node) }
{
    match e {
        Expression::Variable(name) => settable_name(alloc, scope, name),
        Expression::Parenthesis { inner, .. } => settable_variable(alloc, scope, inner),
        Expression::Constant(_) => Ok(None),
        Expression::Null(_) => Ok(None),
        Expression::Member { .. } => Ok(None),
        Expression::Call { .. } => Ok(None),
        Expression::Sign { .. } => Ok(None),
        Expression::Chain { .. } => Ok(None),
        Expression::Comparison { .. } => Ok(None),
        Expression::Not { .. } => Ok(None),
    }
}

/// The variable that an argument for an in_out parameter is, where it may be set.
pub fn lent_variable(
    alloc: Global,
    scope: &Scope<'_>,
    in_out: bool,
    e: &Expression,
) -> Result<Option<Reference>, OutOfMemory>
    ensures { (types : TypeScope) → IsScopeOf types scope.now → IfOk result (λ r. r ≡ lent_variable in_out (elaborated types (expression_tree e.now)).node) }
{
    if in_out {
        settable_variable(alloc, scope, e)
    } else {
        Ok(None)
    }
}
