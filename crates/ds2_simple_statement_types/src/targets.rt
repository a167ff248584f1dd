//! The variables that statements set.
ghost use Rattle.std.specs.Prelude.{◌≡◌, ℕ, List as Items, IfOk, Some};
ghost use Rattle.ds2_elaboration.specs.ExpressionTypes.{TypeScope, KnownVariable, is_settable_reference};
ghost use Rattle.ds2_elaboration.specs.StatementTypes.{settable_variable, target_of};
ghost use Rattle.ds2_reference_types.specs.Scopes.{reference_of, IsKnownVariable, IsScopeOf};
ghost use Rattle.ds2_simple_statement_types.specs.Targets.{IsTargetOf, IsTargetAs};

use ds2_base::{OutOfMemory, Refusal};
use ds2_meaning::{Reference, TypeKind};
use ds2_reference_types::names::spelled_name;
use ds2_reference_types::scopes::{KnownName, Scope, Standing};
use ds2_reference_types::variables::reference;
use ds2_token::Token;
use ds2_types::refusals::refusal;
use ds2_value::Ty;
use std::alloc::Global;

/// A variable that may be set, with its type, and the rule that is broken where it is a column whose tables do not join.
#[derive(Drop)]
pub struct Target {
    pub reference: Reference,
    pub ty: Ty,
    pub refusal: Option<Refusal<TypeKind>>,
}

/// A broken rule once more.
fn same_refusal(broken: &Option<Refusal<TypeKind>>) -> Option<Refusal<TypeKind>>
    ensures { result ≡ broken.now }
{
    match broken {
        None => None,
        Some(broken) => Some(refusal(broken.kind, broken.place)),
    }
}

/// Whether what stands so may be set: a flag may not.
fn is_settable(standing: Standing) -> bool
    ensures { (name : Items ℕ) → result ≡ is_settable_reference (reference_of standing name) }
{
    match standing {
        Standing::Local => true,
        Standing::Variable => true,
        Standing::Parameter => true,
        Standing::Flag => false,
    }
}

/// What is known of a variable.
fn of_known(alloc: Global, known: &KnownName) -> Result<Target, OutOfMemory>
    ensures { IfOk result (λ t. IsTargetOf t known.now) }
{
    let reference = reference(alloc, &known.name, known.standing)?;
    Ok(Target {
        reference,
        ty: known.ty,
        refusal: same_refusal(&known.refusal),
    })
}

/// A known variable, where it may be set.
fn if_settable(alloc: Global, known: &KnownName) -> Result<Option<Target>, OutOfMemory>
    ensures { (v : KnownVariable) → IsKnownVariable known.now v → IfOk result (λ t. IsTargetAs t (settable_variable (Some v))) }
{
    let settable = is_settable(known.standing);
    if settable {
        let found = of_known(alloc, known)?;
        Ok(Some(found))
    } else {
        Ok(None)
    }
}

/// The variable that a token stands for, where it may be set.
pub fn target_of(
    alloc: Global,
    scope: &Scope<'_>,
    name: &Token,
) -> Result<Option<Target>, OutOfMemory>
    ensures { (types : TypeScope) → IsScopeOf types scope.now → IfOk result (λ t. IsTargetAs t (target_of types name.now)) }
{
    let spelled = spelled_name(alloc, name)?;
    match scope.variable(&spelled) {
        None => Ok(None),
        Some(known) => if_settable(alloc, known),
    }
}
