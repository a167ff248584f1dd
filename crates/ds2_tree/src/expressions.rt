//! Expressions and calls.
ghost use Rattle.ds2_tree.specs.Lists.{BeginsAt};
ghost use Rattle.ds2_tree.specs.Expressions.{expression_spelling, callee_spelling};
ghost use Rattle.ds2_tree.specs.ExpressionViews.{expression_tree};

use ds2_base::{List, Place};
use ds2_token::Token;
use std::mem::size_of;

/// An expression. A chain of operators of one level stands in a list, so that no walk goes deeper than the source is nested.
/// What is large and seldom there stands in a box, since a parser moves many expressions.
#[derive(Drop)]
#[cycle(expression)]
pub enum Expression {
    /// `integer | decimal | text`
    Constant(Token),
    /// `"null"`
    Null(Token),
    /// `name`
    Variable(Token),
    /// `name "." word`: a flag as `first.v`, or a call without an argument list.
    Member {
        object: Token,
        dot: Place,
        member: Box<Token>,
    },
    /// `call = (name | "null") "(" [args] ")" | name "." word "(" [args] ")"`, with `args = expr { "," expr }`.
    Call {
        callee: Box<Callee>,
        opening: Place,
        arguments: List<Argument>,
        closing: Place,
    },
    /// `"(" expr ")"`
    Parenthesis {
        opening: Place,
        inner: Box<Expression>,
        closing: Place,
    },
    /// `("-" | "+") unary`
    Sign {
        operator: Token,
        operand: Box<Expression>,
    },
    /// `operand operator operand { operator operand }`, all operators of one level.
    Chain {
        kind: ChainKind,
        first: Box<Expression>,
        rest: List<Operand>,
    },
    /// `cat cmp cat`
    Comparison {
        left: Box<Expression>,
        operator: Token,
        right: Box<Expression>,
    },
    /// `("not" | "^" | "~") neg`
    Not {
        operator: Token,
        operand: Box<Expression>,
    },
}

// A source has many expressions, and reading one moves it from level to level.
const _: () = prove!(size_of::<Expression>() <= 64);

/// The operators of a chain.
#[derive(Clone, Copy, PartialEq, Eq)]
pub enum ChainKind {
    /// `"or" | "|"`
    Or,
    /// `"and" | "&"`
    And,
    /// `"||"`
    Concatenation,
    /// `"+" | "-"`
    Sum,
    /// `"*" | "/"`
    Product,
}

/// A further operand of a chain, behind its operator.
#[derive(Drop)]
#[cycle(expression)]
pub struct Operand {
    pub operator: Token,
    pub value: Expression,
}

/// What is called.
#[derive(Drop)]
pub enum Callee {
    /// `name`: a method of the unit, or a function.
    Function(Token),
    /// `"null"`: the function of that name.
    Null(Token),
    /// `name "." word`: a method of an instance.
    Method {
        object: Token,
        dot: Place,
        method: Token,
    },
}

/// An expression of a list, behind its comma where it is not the first.
#[derive(Drop)]
#[cycle(expression)]
pub struct Argument {
    pub comma: Option<Place>,
    pub value: Expression,
}

impl Callee {
    /// The place of its first token.
    pub fn place(&self) -> Place
        ensures { BeginsAt (callee_spelling self.now) result }
    {
        match self {
            Callee::Function(name) => name.place,
            Callee::Null(keyword) => keyword.place,
            Callee::Method {
                object,
                dot: _,
                method: _,
            } => object.place,
        }
    }
}

impl Expression {
    /// The place of its first token.
    #[tactic(auto, using(crate::proofs::Places::chain_begins, crate::proofs::Places::call_begins, crate::proofs::Places::comparison_begins))]
    pub fn place(&self) -> Place
        ensures { BeginsAt (expression_spelling (expression_tree self.now)) result }
    {
        match self {
            Expression::Constant(token) => token.place,
            Expression::Null(keyword) => keyword.place,
            Expression::Variable(name) => name.place,
            Expression::Member { object, .. } => object.place,
            Expression::Call { callee, .. } => callee.place(),
            Expression::Parenthesis { opening, .. } => *opening,
            Expression::Sign { operator, .. } => operator.place,
            Expression::Chain { first, .. } => first.place(),
            Expression::Comparison { left, .. } => left.place(),
            Expression::Not { operator, .. } => operator.place,
        }
    }
}
