//! Parts of statements: two of them, and lists.
ghost use Rattle.std.specs.Prelude.{◌≡◌, ◌∷◌, ◌++◌, [], IfOk};
ghost use Rattle.ds2_simple_statement_types.specs.BothParts.{both_parts, with_one};

use ds2_base::{List, OutOfMemory, Refusal};
use ds2_meaning::TypeKind;
use ds2_types::refusals::first_of_both;

/// Two parts of a statement.
#[derive(Drop)]
pub struct Both<A, B> {
    pub first: A,
    pub second: B,
}

/// What stands of two parts: both of them, or the first of the rules that are broken in them.
pub fn of_both<A: Drop, B: Drop>(
    a: Result<A, Refusal<TypeKind>>,
    b: Result<B, Refusal<TypeKind>>,
) -> Result<Both<A, B>, Refusal<TypeKind>>
    ensures { result ≡ both_parts a b }
{
    match a {
        Ok(first) => match b {
            Ok(second) => Ok(Both { first, second }),
            Err(refusal) => Err(refusal),
        },
        Err(refusal) => match b {
            Ok(_) => Err(refusal),
            Err(further) => Err(first_of_both(refusal, Some(further))),
        },
    }
}

/// A list with one item more.
fn with_item<A: Drop>(mut items: List<A>, item: A) -> Result<List<A>, OutOfMemory>
    ensures { IfOk result (λ all. all ≡ items ++ item ∷ []) }
{
    items.push(item)?;
    Ok(items)
}

/// What stands of a list and of one item more behind it.
pub fn with_one<A: Drop>(
    items: Result<List<A>, Refusal<TypeKind>>,
    one: Result<A, Refusal<TypeKind>>,
) -> Result<Result<List<A>, Refusal<TypeKind>>, OutOfMemory>
    ensures { IfOk result (λ all. all ≡ with_one items one) }
{
    match items {
        Ok(items) => match one {
            Ok(item) => {
                let all = with_item(items, item)?;
                Ok(Ok(all))
            }
            Err(refusal) => Ok(Err(refusal)),
        },
        Err(refusal) => match one {
            Ok(_) => Ok(Err(refusal)),
            Err(further) => Ok(Err(first_of_both(refusal, Some(further)))),
        },
    }
}
