//! Statements.
ghost use Rattle.ds2_tree.specs.Lists.{BeginsAt};
ghost use Rattle.ds2_tree.specs.Statements.{statement_spelling};
ghost use Rattle.ds2_tree.specs.StatementViews.{statement_tree};

use crate::{Argument, Callee, Expression};
use ds2_base::{List, Place};
use ds2_token::Token;
use std::mem::size_of;

/// A statement. `end` is the place of the `;` that ends it. The parts of a chain of `if` and `else if` stand in a list, so that no
/// walk goes deeper than the source is nested.
#[derive(Drop)]
#[cycle(statement)]
pub enum Statement {
    /// `";"`
    Empty {
        end: Place,
    },
    /// `name "=" expr ";"`
    Assignment {
        target: Token,
        equals: Place,
        value: Expression,
        end: Place,
    },
    /// `call ";"`
    Call {
        callee: Callee,
        opening: Place,
        arguments: List<Argument>,
        closing: Place,
        end: Place,
    },
    /// `"leave" ";"`
    Leave {
        keyword: Token,
        end: Place,
    },
    /// `"continue" ";"`
    Continue {
        keyword: Token,
        end: Place,
    },
    /// `"return" [expr] ";"`
    Return {
        keyword: Token,
        value: Option<Expression>,
        end: Place,
    },
    /// `"output" { table } ";"`
    Output {
        keyword: Token,
        tables: List<Token>,
        end: Place,
    },
    /// `"put" { item } ";"`
    Put {
        keyword: Token,
        items: List<PutItem>,
        end: Place,
    },
    /// `"if" expr "then" stmt { "else" "if" expr "then" stmt } [ "else" stmt ]`
    If {
        keyword: Token,
        condition: Expression,
        then_keyword: Token,
        then: Box<Statement>,
        others: List<ElseIf>,
        otherwise: Option<Otherwise>,
    },
    /// `"select" [ "(" expr ")" ] ";" { "when" .. } [ "otherwise" stmt ] "end" ";"`
    Select {
        keyword: Token,
        selector: Option<Selector>,
        semicolon: Place,
        whens: List<When>,
        otherwise: Option<Otherwise>,
        end_keyword: Token,
        end: Place,
    },
    /// `"do" [ control ] ";" { stmt } "end" ";"`
    Do {
        keyword: Token,
        control: DoControl,
        semicolon: Place,
        body: List<Statement>,
        end_keyword: Token,
        end: Place,
    },
}

// A source has many statements, and each has the room of the largest.
const _: () = prove!(size_of::<Statement>() <= 240);

/// `item = text | name ["="] | name "." word`
#[derive(Drop)]
pub enum PutItem {
    /// `text`
    Text(Token),
    /// `name ["="]`
    Variable {
        name: Token,
        equals: Option<Place>,
    },
    /// `name "." word`
    Member {
        object: Token,
        dot: Place,
        member: Token,
    },
}

/// `"else" "if" expr "then" stmt`, chained to an `if`.
#[derive(Drop)]
#[cycle(statement)]
pub struct ElseIf {
    pub else_keyword: Token,
    pub keyword: Token,
    pub condition: Expression,
    pub then_keyword: Token,
    pub then: Statement,
}

/// `"(" expr ")"` behind `select`.
#[derive(Drop)]
pub struct Selector {
    pub opening: Place,
    pub value: Box<Expression>,
    pub closing: Place,
}

/// `"when" "(" expr { "," expr } ")" stmt`
#[derive(Drop)]
#[cycle(statement)]
pub struct When {
    pub keyword: Token,
    pub opening: Place,
    pub values: List<Argument>,
    pub closing: Place,
    pub statement: Statement,
}

/// The part for when no condition holds: `"else" stmt` of an `if`, `"otherwise" stmt` of a `select`.
#[derive(Drop)]
#[cycle(statement)]
pub struct Otherwise {
    pub keyword: Token,
    pub statement: Box<Statement>,
}

/// What stands between `do` and its `;`.
#[derive(Drop)]
pub enum DoControl {
    /// Nothing: a block.
    Block,
    /// A count.
    Counted(Box<CountedControl>),
    /// A tested condition.
    Tested(Box<TestedControl>),
}

/// `name "=" expr "to" expr ["by" expr]`
#[derive(Drop)]
pub struct CountedControl {
    pub variable: Token,
    pub equals: Place,
    pub start: Expression,
    pub to_keyword: Token,
    pub stop: Expression,
    pub step: Option<Step>,
}

/// `("while" | "until") "(" expr ")"`
#[derive(Drop)]
pub struct TestedControl {
    pub keyword: Token,
    pub opening: Place,
    pub condition: Expression,
    pub closing: Place,
}

/// `"by" expr`
#[derive(Drop)]
pub struct Step {
    pub keyword: Token,
    pub value: Expression,
}

impl Statement {
    /// The place of its first token.
    #[tactic(auto, using(crate::proofs::Places::if_begins, crate::proofs::Places::select_begins, crate::proofs::Places::do_begins, crate::proofs::Places::begins_in_front))]
    pub fn place(&self) -> Place
        ensures { BeginsAt (statement_spelling (statement_tree self.now)) result }
    {
        match self {
            Statement::Empty { end } => *end,
            Statement::Assignment { target, .. } => target.place,
            Statement::Call { callee, .. } => callee.place(),
            Statement::Leave { keyword, .. } => keyword.place,
            Statement::Continue { keyword, .. } => keyword.place,
            Statement::Return { keyword, .. } => keyword.place,
            Statement::Output { keyword, .. } => keyword.place,
            Statement::Put { keyword, .. } => keyword.place,
            Statement::If { keyword, .. } => keyword.place,
            Statement::Select { keyword, .. } => keyword.place,
            Statement::Do { keyword, .. } => keyword.place,
        }
    }
}
