//! Calls of hash objects and of iterators, and members of objects.
ghost use Rattle.std.specs.Prelude.{◌≡◌, [], IfOk, Some};
ghost use Rattle.ds2_elaboration.specs.ExpressionTypes.{TypeScope, ObjectCalls, HashCalls, hash_function_named, iterator_function_named, elaborated_hash_call, elaborated_iterator_call, member_of_object, object_in_scope};
ghost use Rattle.ds2_elaboration.specs.Typings.{form_of_type};
ghost use Rattle.ds2_reference_types.specs.Scopes.{IsKnownObject, IsScopeOf};
ghost use Rattle.ds2_meaning.specs.TypedExpression as tree;
ghost use Rattle.ds2_names.specs.SourceUnit.{spelled_name};
ghost use Rattle.ds2_types.specs.Judgements.{node_tree, Judges};
ghost use Rattle.ds2_value.specs.declared.ty.Ty.TheVariants.{BigInt};

use crate::names::{nameless, spelled_name};
use crate::scopes::{KnownCalls, KnownObject, Scope};
use ds2_base::{Name, OutOfMemory};
use ds2_meaning::Expression;
use ds2_token::Token;
use ds2_types::judgement::{Judgement, Node, Typing};
use ds2_value::{HashFunction, IteratorFunction, Ty};
use std::alloc::Global;

/// The call of a hash object of this name.
fn hash_function(name: &[u8]) -> Option<HashFunction>
    ensures { result ≡ hash_function_named name.now }
{
    if name == b"find".as_slice() {
        Some(HashFunction::Find)
    } else if name == b"check".as_slice() {
        Some(HashFunction::Check)
    } else if name == b"add".as_slice() {
        Some(HashFunction::Add)
    } else if name == b"replace".as_slice() {
        Some(HashFunction::Replace)
    } else if name == b"remove".as_slice() {
        Some(HashFunction::Remove)
    } else if name == b"clear".as_slice() {
        Some(HashFunction::Clear)
    } else if name == b"num_items".as_slice() {
        Some(HashFunction::NumItems)
    } else {
        None
    }
}

/// The call of an iterator of this name.
fn iterator_function(name: &[u8]) -> Option<IteratorFunction>
    ensures { result ≡ iterator_function_named name.now }
{
    if name == b"first".as_slice() {
        Some(IteratorFunction::First)
    } else if name == b"next".as_slice() {
        Some(IteratorFunction::Next)
    } else if name == b"prev".as_slice() {
        Some(IteratorFunction::Prev)
    } else if name == b"last".as_slice() {
        Some(IteratorFunction::Last)
    } else {
        None
    }
}

/// The tree of a call of a hash object, whose code is a BIGINT.
fn hash_called(alloc: Global, hash: Name, function: HashFunction) -> Result<Node, OutOfMemory>
    ensures { IfOk result (λ n. node_tree n ≡ tree.HashCalled hash function) }
{
    let tree = Box::new(alloc, Expression::HashCalled { hash, function })?;
    Ok(Node {
        ty: Ty::BigInt,
        tree,
    })
}

/// The tree of a call of an iterator, whose code is a BIGINT.
fn iterator_called(
    alloc: Global,
    iterator: Name,
    function: IteratorFunction,
) -> Result<Node, OutOfMemory>
    ensures { IfOk result (λ n. node_tree n ≡ tree.IteratorCalled iterator function) }
{
    let tree = Box::new(alloc, Expression::IteratorCalled { iterator, function })?;
    Ok(Node {
        ty: Ty::BigInt,
        tree,
    })
}

/// The code of a call of the hash object of this name.
fn hash_code(alloc: Global, name: &Name, function: HashFunction) -> Result<Judgement, OutOfMemory>
    ensures { Judges (form_of_type BigInt [] (tree.HashCalled name.now function)) result }
{
    let hash = name.copy(alloc)?;
    let node = hash_called(alloc, hash, function)?;
    Ok(Judgement {
        typing: Typing::Known(Ty::BigInt),
        outcome: Ok(node),
    })
}

/// The code of a call of the iterator of this name.
fn iterator_code(
    alloc: Global,
    name: &Name,
    function: IteratorFunction,
) -> Result<Judgement, OutOfMemory>
    ensures { Judges (form_of_type BigInt [] (tree.IteratorCalled name.now function)) result }
{
    let iterator = name.copy(alloc)?;
    let node = iterator_called(alloc, iterator, function)?;
    Ok(Judgement {
        typing: Typing::Known(Ty::BigInt),
        outcome: Ok(node),
    })
}

/// A call of the hash object of this name.
pub fn hash_call(
    alloc: Global,
    name: &Name,
    object: &Token,
    method: &Token,
) -> Result<Judgement, OutOfMemory>
    ensures { name.now ≡ spelled_name object.now → Judges (elaborated_hash_call object.now method.now (hash_function_named (spelled_name method.now))) result }
{
    let spelled = spelled_name(alloc, method)?;
    match hash_function(spelled.as_slice()) {
        None => Ok(nameless(object.place)),
        Some(function) => hash_code(alloc, name, function),
    }
}

/// A call of the iterator of this name.
pub fn iterator_call(
    alloc: Global,
    name: &Name,
    object: &Token,
    method: &Token,
) -> Result<Judgement, OutOfMemory>
    ensures { name.now ≡ spelled_name object.now → Judges (elaborated_iterator_call object.now method.now (iterator_function_named (spelled_name method.now))) result }
{
    let spelled = spelled_name(alloc, method)?;
    match iterator_function(spelled.as_slice()) {
        None => Ok(nameless(object.place)),
        Some(function) => iterator_code(alloc, name, function),
    }
}

/// The word behind the point of a hash object of this name, without an argument list.
fn items(
    alloc: Global,
    name: &Name,
    object: &Token,
    member: &Token,
) -> Result<Judgement, OutOfMemory>
    ensures { name.now ≡ spelled_name object.now → Judges (member_of_object object.now member.now (Some HashCalls)) result }
{
    let spelled = spelled_name(alloc, member)?;
    let counts = spelled.as_slice() == b"num_items".as_slice();
    if counts {
        hash_code(alloc, name, HashFunction::NumItems)
    } else {
        Ok(nameless(object.place))
    }
}

/// The word behind the point of an object, without an argument list.
fn known_member(
    alloc: Global,
    known: &KnownObject,
    object: &Token,
    member: &Token,
) -> Result<Judgement, OutOfMemory>
    ensures { (calls : ObjectCalls) → IsKnownObject (spelled_name object.now) known.now calls → Judges (member_of_object object.now member.now (Some calls)) result }
{
    match &known.calls {
        KnownCalls::Methods(_) => Ok(nameless(object.place)),
        KnownCalls::Hash => items(alloc, &known.name, object, member),
        KnownCalls::Iterator => Ok(nameless(object.place)),
        KnownCalls::Parameters(_) => Ok(nameless(object.place)),
    }
}

/// The word behind the point of what is no flag, without an argument list: the number of items of a hash object.
pub fn object_member(
    alloc: Global,
    scope: &Scope<'_>,
    object: &Token,
    member: &Token,
) -> Result<Judgement, OutOfMemory>
    ensures { (types : TypeScope) → IsScopeOf types scope.now → Judges (member_of_object object.now member.now (object_in_scope types (spelled_name object.now))) result }
{
    let spelled = spelled_name(alloc, object)?;
    match scope.object(&spelled) {
        None => Ok(nameless(object.place)),
        Some(known) => known_member(alloc, known, object, member),
    }
}
