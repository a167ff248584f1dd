//! Statements that stand where they may not stand: `leave` and `continue` outside of loops, `output` outside of system methods, and
//! `return` with a value where none is returned, or without one where one is.
ghost use Rattle.std.specs.Prelude.{◌≡◌};
ghost use Rattle.std.specs.Option.{option_map};
ghost use Rattle.ds2_tree.specs.ExpressionViews.{expression_tree};
ghost use Rattle.ds2_tree.specs.StatementViews.{statement_tree, statements_of, whens_of, otherwise_tree};
ghost use Rattle.ds2_names.specs.NameRules.{from_each, place_unless};
ghost use Rattle.ds2_names.specs.UnitRules.{misplaced_return};
ghost use Rattle.ds2_scope.specs.Earliest.{earliest};
ghost use Rattle.ds2_misplaced.specs.MisplacedParts.{allows, is_loop, misplaced_within, misplaced_within_all, misplaced_within_whens, misplaced_within_otherwise, misplaced_within_else_if};

use crate::output_rule::OutputRule;
use ds2_base::Place;
use ds2_scope::{earlier_of, place_unless};
use ds2_token::Token;
use ds2_tree::{DoControl, ElseIf, Expression, Otherwise, Statement, When};

// Whether a `do` is a loop.
fn is_loop(control: &DoControl) -> bool
    ensures { result ≡ is_loop control.now }
{
    match control {
        DoControl::Block => false,
        DoControl::Counted(_) => true,
        DoControl::Tested(_) => true,
    }
}

// A `return` with a value where none is returned, or without one where one is.
fn misplaced_return(returns: bool, keyword: &Token, value: &Option<Expression>) -> Option<Place>
    ensures { result ≡ earliest (misplaced_return returns keyword.now (option_map expression_tree value.now)) }
{
    match value {
        None => place_unless(!returns, keyword.place),
        Some(_) => place_unless(returns, keyword.place),
    }
}

// Whether an `output` of these tables may stand in a method.
fn allows(rule: OutputRule, tables: &[Token]) -> bool
    ensures { result ≡ allows rule tables.now }
{
    match rule {
        OutputRule::Nowhere => false,
        OutputRule::Unnamed => tables.is_empty(),
        OutputRule::Anywhere => true,
    }
}

// The earliest misplaced statement within one.
#[cycle(misplaced)]
fn within(rule: OutputRule, returns: bool, inside: bool, s: &Statement) -> Option<Place>
    ensures { result ≡ earliest (misplaced_within rule returns inside (statement_tree s.now)) }
{
    match s {
        Statement::Empty { .. } => None,
        Statement::Assignment { .. } => None,
        Statement::Call { .. } => None,
        Statement::Leave { keyword, .. } => place_unless(inside, keyword.place),
        Statement::Continue { keyword, .. } => place_unless(inside, keyword.place),
        Statement::Return { keyword, value, .. } => misplaced_return(returns, keyword, value),
        Statement::Output {
            keyword,
            tables,
            ..
        } => place_unless(allows(rule, tables.as_slice()), keyword.place),
        Statement::Put { .. } => None,
        Statement::If {
            then,
            others,
            otherwise,
            ..
        } => {
            let first = within(rule, returns, inside, then);
            let further = within_others(rule, returns, inside, others.as_slice());
            let last = within_otherwise(rule, returns, inside, otherwise);
            earlier_of(first, earlier_of(further, last))
        }
        Statement::Select {
            whens,
            otherwise,
            ..
        } => {
            let first = within_whens(rule, returns, inside, whens.as_slice());
            let last = within_otherwise(rule, returns, inside, otherwise);
            earlier_of(first, last)
        }
        Statement::Do { control, body, .. } => within_all(
            rule,
            returns,
            inside || is_loop(control),
            body.as_slice(),
        ),
    }
}

// The earliest one within the parts that are chained to an `if`.
#[cycle(misplaced)]
fn within_others(rule: OutputRule, returns: bool, inside: bool, others: &[ElseIf]) -> Option<Place>
    ensures { result ≡ earliest (from_each (misplaced_within_else_if rule returns inside) others.now) }
{
    let mut found: Option<Place> = None;
    'others: for x in others {
        found = earlier_of(found, within(rule, returns, inside, &x.then));
    }
    found
}

// The earliest one within a last part.
#[cycle(misplaced)]
fn within_otherwise(
    rule: OutputRule,
    returns: bool,
    inside: bool,
    otherwise: &Option<Otherwise>,
) -> Option<Place>
    ensures { result ≡ earliest (misplaced_within_otherwise rule returns inside (otherwise_tree otherwise.now)) }
{
    match otherwise {
        None => None,
        Some(last) => within(rule, returns, inside, &last.statement),
    }
}

// The earliest one within the parts of a `select`.
#[cycle(misplaced)]
fn within_whens(rule: OutputRule, returns: bool, inside: bool, whens: &[When]) -> Option<Place>
    ensures { result ≡ earliest (misplaced_within_whens rule returns inside (whens_of whens.now)) }
{
    let mut found: Option<Place> = None;
    'whens: for when in whens {
        found = earlier_of(found, within(rule, returns, inside, &when.statement));
    }
    found
}

/// The earliest misplaced statement within these.
#[cycle(misplaced)]
pub(crate) fn within_all(
    rule: OutputRule,
    returns: bool,
    inside: bool,
    body: &[Statement],
) -> Option<Place>
    ensures { result ≡ earliest (misplaced_within_all rule returns inside (statements_of body.now)) }
{
    let mut found: Option<Place> = None;
    'body: for s in body {
        found = earlier_of(found, within(rule, returns, inside, s));
    }
    found
}
