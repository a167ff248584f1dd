//! The values of names: variables, and the flags of BY variables.
ghost use Rattle.std.specs.Prelude.{◌≡◌, [], IfOk, None};
ghost use Rattle.ds2_elaboration.specs.ExpressionTypes.{TypeScope, KnownVariable, flag_node, variable_node, elaborated_flag, elaborated_member, elaborated_variable};
ghost use Rattle.ds2_elaboration.specs.Typings.{form_of_operands};
ghost use Rattle.ds2_names.specs.NameRules.{is_flag_word};
ghost use Rattle.ds2_reference_types.specs.Flags.{flag_named, flag_form};
ghost use Rattle.ds2_reference_types.specs.Scopes.{reference_of, IsKnownVariable, IsScopeOf};
ghost use Rattle.ds2_types.specs.Judgements.{Judges};

use crate::names::{nameless, spelled_name};
use crate::objects::object_member;
use crate::scopes::{KnownName, Scope, Standing};
use ds2_base::{Name, OutOfMemory};
use ds2_meaning::{Global, Reference};
use ds2_token::Token;
use ds2_types::judgement::{Judgement, Typing};
use ds2_types::nodes;
use ds2_types::refusals::refusal;
use ds2_value::Ty;
use std::alloc::Global as Allocator;

/// How a method names a variable.
pub fn reference(
    alloc: Allocator,
    name: &Name,
    standing: Standing,
) -> Result<Reference, OutOfMemory>
    ensures { IfOk result (λ r. r ≡ reference_of standing name.now) }
{
    let name = name.copy(alloc)?;
    match standing {
        Standing::Local => Ok(Reference::Local(name)),
        Standing::Variable => Ok(Reference::At(Global::Named(name))),
        Standing::Parameter => Ok(Reference::At(Global::Parameter(name))),
        Standing::Flag => Ok(Reference::At(Global::Present(name))),
    }
}

/// The value of a variable.
fn known_value(alloc: Allocator, known: &KnownName) -> Result<Judgement, OutOfMemory>
    ensures { (v : KnownVariable) → IsKnownVariable known.now v → Judges (form_of_operands v.refusals (variable_node v)) result }
{
    match &known.refusal {
        Some(broken) => Ok(Judgement {
            typing: Typing::Unknown,
            outcome: Err(refusal(broken.kind, broken.place)),
        }),
        None => joined_value(alloc, known),
    }
}

/// The value of a variable of which no rule is broken.
fn joined_value(alloc: Allocator, known: &KnownName) -> Result<Judgement, OutOfMemory>
    ensures { (v : KnownVariable) → IsKnownVariable known.now v → known.now.refusal ≡ None → Judges (form_of_operands v.refusals (variable_node v)) result }
{
    let reference = reference(alloc, &known.name, known.standing)?;
    let node = nodes::variable(alloc, reference, known.ty)?;
    Ok(Judgement {
        typing: Typing::Known(node.ty),
        outcome: Ok(node),
    })
}

/// The value of a name.
pub fn variable(alloc: Allocator, scope: &Scope<'_>, name: &Token) -> Result<Judgement, OutOfMemory>
    ensures { (types : TypeScope) → IsScopeOf types scope.now → Judges (elaborated_variable types name.now) result }
{
    let spelled = spelled_name(alloc, name)?;
    match scope.variable(&spelled) {
        None => Ok(nameless(name.place)),
        Some(known) => known_value(alloc, known),
    }
}

/// The value of a flag of a BY variable, which is a BIGINT.
fn flag_value(alloc: Allocator, flag: Global) -> Result<Judgement, OutOfMemory>
    ensures { Judges (form_of_operands [] (flag_node flag)) result }
{
    let node = nodes::variable(alloc, Reference::At(flag), Ty::BigInt)?;
    Ok(Judgement {
        typing: Typing::Known(node.ty),
        outcome: Ok(node),
    })
}

/// The flag of a BY variable that a word names.
fn flag_named(alloc: Allocator, object: &Token, name: &Name) -> Result<Option<Global>, OutOfMemory>
    ensures { IfOk result (λ flag. flag ≡ flag_named object.now name.now) }
{
    if object.is_word("first") {
        Ok(Some(Global::First(name.copy(alloc)?)))
    } else if object.is_word("last") {
        Ok(Some(Global::Last(name.copy(alloc)?)))
    } else {
        Ok(None)
    }
}

/// A flag of a BY variable of this name.
fn flag_of(alloc: Allocator, object: &Token, name: &Name) -> Result<Judgement, OutOfMemory>
    ensures { Judges (flag_form object.now.place (flag_named object.now name.now)) result }
{
    let named = flag_named(alloc, object, name)?;
    match named {
        None => Ok(nameless(object.place)),
        Some(flag) => flag_value(alloc, flag),
    }
}

/// `first.v` and `last.v` of a BY variable.
fn flag(
    alloc: Allocator,
    scope: &Scope<'_>,
    object: &Token,
    member: &Token,
) -> Result<Judgement, OutOfMemory>
    ensures { (types : TypeScope) → IsScopeOf types scope.now → Judges (elaborated_flag types object.now member.now) result }
{
    let spelled = spelled_name(alloc, member)?;
    match scope.by_variable(&spelled) {
        None => Ok(nameless(object.place)),
        Some(name) => flag_of(alloc, object, name),
    }
}

/// A word that names a flag of a BY variable before a point.
fn is_flag_word(object: &Token) -> bool
    ensures { result ≡ is_flag_word object.now }
{
    object.is_word("first") || object.is_word("last")
}

/// What stands behind a name and a point, without an argument list: a flag of a BY variable, or the number of items of a hash object.
pub fn member_value(
    alloc: Allocator,
    scope: &Scope<'_>,
    object: &Token,
    member: &Token,
) -> Result<Judgement, OutOfMemory>
    ensures { (types : TypeScope) → IsScopeOf types scope.now → Judges (elaborated_member types object.now member.now) result }
{
    let is_flag = is_flag_word(object);
    if is_flag {
        flag(alloc, scope, object, member)
    } else {
        object_member(alloc, scope, object, member)
    }
}
