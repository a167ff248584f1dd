//! Which statements surely return.
ghost use Rattle.std.specs.Prelude.{◌≡◌, ◌&&◌};
ghost use Rattle.ds2_elaboration.specs.StatementTypes.{surely_returns, list_surely_returns, whens_surely_return, otherwise_surely_returns};
ghost use Rattle.ds2_tree.specs.StatementViews.{statement_tree, statements_of, whens_of, otherwise_tree};
ghost use Rattle.ds2_statement_types.specs.Returning.{chained_return};

use ds2_tree::{DoControl, ElseIf, Otherwise, Statement, When};

/// Both hold.
fn both_hold(a: bool, b: bool) -> bool
    ensures { result ≡ (a && b) }
{
    a && b
}

/// All three hold.
fn all_three(a: bool, b: bool, c: bool) -> bool
    ensures { result ≡ (a && (b && c)) }
{
    a && b && c
}

/// Whether a statement surely returns: `return`; a block without loop that does; an `if` with `else`, all of whose parts do; a
/// `select` with `otherwise`, all of whose parts do.
#[cycle(returning)]
pub fn surely_returns(s: &Statement) -> bool
    ensures { result ≡ surely_returns (statement_tree s.now) }
{
    match s {
        Statement::Return { .. } => true,
        Statement::Do { control, body, .. } => match control {
            DoControl::Block => list_returns(body.as_slice()),
            DoControl::Counted(_) => false,
            DoControl::Tested(_) => false,
        },
        Statement::If {
            then,
            others,
            otherwise,
            ..
        } => {
            let first = surely_returns(then);
            let further = others_return(others.as_slice());
            let last = last_returns(otherwise);
            all_three(first, further, last)
        }
        Statement::Select {
            whens,
            otherwise,
            ..
        } => {
            let parts = whens_return(whens.as_slice());
            let last = last_returns(otherwise);
            both_hold(parts, last)
        }
        Statement::Empty { .. } => false,
        Statement::Assignment { .. } => false,
        Statement::Call { .. } => false,
        Statement::Leave { .. } => false,
        Statement::Continue { .. } => false,
        Statement::Output { .. } => false,
        Statement::Put { .. } => false,
    }
}

/// Whether a list of statements does: its last statement does.
#[cycle(returning)]
pub fn list_returns(body: &[Statement]) -> bool
    ensures { result ≡ list_surely_returns (statements_of body.now) }
{
    match body {
        [] => false,
        [.., last] => surely_returns(last),
    }
}

/// Whether each part that is chained to an `if` does.
#[cycle(returning)]
fn others_return(others: &[ElseIf]) -> bool
    ensures { result ≡ chained_return others.now }
{
    let mut all = true;
    'others: for x in others {
        let one = surely_returns(&x.then);
        all = both_hold(all, one);
    }
    all
}

/// Whether each `when` part does.
#[cycle(returning)]
fn whens_return(whens: &[When]) -> bool
    ensures { result ≡ whens_surely_return (whens_of whens.now) }
{
    let mut all = true;
    'whens: for when in whens {
        let one = surely_returns(&when.statement);
        all = both_hold(all, one);
    }
    all
}

/// Whether there is a last part, and it does.
#[cycle(returning)]
fn last_returns(otherwise: &Option<Otherwise>) -> bool
    ensures { result ≡ otherwise_surely_returns (otherwise_tree otherwise.now) }
{
    match otherwise {
        None => false,
        Some(last) => surely_returns(&last.statement),
    }
}
