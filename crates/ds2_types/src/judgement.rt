//! What becomes of an expression.
ghost use Rattle.std.specs.Prelude.{◌≡◌};
ghost use Rattle.ds2_meaning.specs.IsTyped.{expression_type};
ghost use Rattle.ds2_meaning.specs.View.{typed_expression};

use ds2_base::{Place, Refusal};
use ds2_meaning::{Expression, TypeKind};
use ds2_value::Ty;

/// What is known of the type of an expression.
#[derive(Clone, Copy, PartialEq, Eq)]
pub enum Typing {
    /// Its type.
    Known(Ty),
    /// It is the constant null, whose word stands here.
    NullAt(Place),
    /// Nothing, since a rule is broken in it.
    Unknown,
}

/// A typed tree beside its type.
#[derive(Drop)]
pub struct Node {
    pub ty: Ty,
    pub tree: Box<Expression>,
    ghost own_type: { ty ≡ expression_type (typed_expression tree.value) },
}

/// Two operands of one form.
#[derive(Drop)]
pub struct Pair {
    pub left: Node,
    pub right: Node,
}

/// A typed tree, or the first of the rules that are broken in it.
pub type Outcome = Result<Node, Refusal<TypeKind>>;

/// What is known of an expression's type, and what becomes of it.
#[derive(Drop)]
pub struct Judgement {
    pub typing: Typing,
    pub outcome: Outcome,
}
