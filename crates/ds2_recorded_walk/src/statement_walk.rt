//! The walk of statements, in order of evaluation.
//!
//! Where ways part, one is walked after the other; the walk keeps aside which locations are dirty behind those walked before.
ghost use Rattle.std.specs.Prelude.{◌≡◌, map, OnOk, IfOk};
ghost use Rattle.std.specs.Option.{option_map};
ghost use Rattle.ds2_locality.specs.Walk.{walk as statement_walk, walk_all, walk_expression as expression_walk, walk_whens as whens_walk};
ghost use Rattle.ds2_meaning.specs.TypedStatement.{TypedWhens};
ghost use Rattle.ds2_meaning.specs.View.{in_a_row, all_expressions, all_statements, otherwise_part, typed_expression, typed_statement};
ghost use Rattle.ds2_statement_emitter.specs.Arms.{arm_tree, when_tree, last_tree};
ghost use Rattle.ds2_deeds.specs.ElseParts.{ElsePart};
ghost use Rattle.ds2_recorded_walk.specs.KnownFlags.{first_flags};
ghost use Rattle.ds2_recorded_walk.specs.RecordedParts.{BranchWalked, ArmsLeft, RestWalked, TestsRecorded, WhensLeft, count_head, LoopWalked, UntilWalked};
ghost use Rattle.ds2_recorded_walk.specs.RecordedStatements.{GoesOnBy, GoesPastBy};

use crate::branches::WalkedBranches;
use crate::decided::decided;
use crate::expression_walk::{walk_call, walk_expression, walk_items, walk_step, walk_values};
use crate::location_set::LocationSet;
use crate::record::{LoopWays, RecordedWalk};
use crate::walk_reads::{clean_variable, read_outputs};
use crate::walk_scope::RecordScope;
use ds2_base::{OutOfMemory, Place};
use ds2_meaning::{Arm, ByVariable, Expression, Reference, Statement, When};
use ds2_value::Truth;

// A branch of a chain, whose condition is walked and decided so: where it is always taken, none behind it is; where it may be, the walk
// goes on behind it from where it stands.
#[cycle(statement_walk)]
fn walk_branch(
    scope: &RecordScope<'_>,
    walk: &mut RecordedWalk,
    branches: &mut WalkedBranches,
    truth: Truth,
    then: &Statement,
) -> Result<(), OutOfMemory>
    ensures { OnOk result (BranchWalked scope.now walk.old walk.new branches.old branches.new truth (typed_statement then.now)) }
{
    match truth {
        Truth::Yes => {
            walk_statement(scope, walk, then)?;
            branches.is_decided = true;
            Ok(())
        }
        Truth::No => Ok(()),
        Truth::Unknown => {
            let before = walk.onward.copy(scope.alloc)?;
            walk_statement(scope, walk, then)?;
            let end = walk.go_on_from(before);
            branches.ends = branches.ends.united(scope.alloc, &end)?;
            Ok(())
        }
    }
}

// An `else if`, so that what follows makes the walk of the whole; behind a branch that is always taken it is not walked.
#[cycle(statement_walk)]
fn walk_arm(
    scope: &RecordScope<'_>,
    walk: &mut RecordedWalk,
    branches: &mut WalkedBranches,
    arm: &Arm,
) -> Result<(), OutOfMemory>
    ensures { (rest : ElsePart) → OnOk result (ArmsLeft scope.now walk.old walk.new branches.old branches.new rest (arm_tree arm.now rest)) }
{
    if branches.is_decided {
        return Ok(());
    }
    walk_expression(scope, walk, &arm.condition, arm.place)?;
    let truth = decided(scope.known, scope.body.home, &arm.condition);
    walk_branch(scope, walk, branches, truth, &arm.then)
}

// The `else if` parts of a chain.
#[cycle(statement_walk)]
fn walk_arms(
    scope: &RecordScope<'_>,
    walk: &mut RecordedWalk,
    branches: &mut WalkedBranches,
    arms: &[Arm],
) -> Result<(), OutOfMemory>
    ensures { (rest : ElsePart) → OnOk result (ArmsLeft scope.now walk.old walk.new branches.old branches.new rest (in_a_row (map arm_tree arms.now) rest)) }
{
    'arms: for arm in arms {
        walk_arm(scope, walk, branches, arm)?;
    }
    Ok(())
}

// The last else part of a chain, where there is one and it may be taken.
#[cycle(statement_walk)]
fn walk_else(
    scope: &RecordScope<'_>,
    walk: &mut RecordedWalk,
    is_decided: bool,
    otherwise: &Option<Box<Statement>>,
) -> Result<(), OutOfMemory>
    ensures { OnOk result (RestWalked scope.now walk.old walk.new is_decided (last_tree otherwise.now)) }
{
    if is_decided {
        return Ok(());
    }
    match otherwise {
        None => Ok(()),
        Some(last) => walk_statement(scope, walk, last),
    }
}

// The tests of a `when`, by these known flags: what is dirty where one of them holds. The walk goes on where none does.
fn walk_tests(
    scope: &RecordScope<'_>,
    walk: &mut RecordedWalk,
    known: &[ByVariable],
    tests: &[Expression],
    place: Place,
) -> Result<LocationSet, OutOfMemory>
    ensures { IfOk result (λ holding. TestsRecorded scope.now walk.old walk.new holding known.now (all_expressions (map typed_expression tests.now)) place) }
{
    let mut holding = LocationSet::new(scope.alloc);
    'tests: for test in tests {
        walk_expression(scope, walk, test, place)?;
        match decided(known, scope.body.home, test) {
            Truth::Yes => {
                walk.meet(scope.alloc, &holding)?;
                return Ok(walk.go_on_from(LocationSet::new(scope.alloc)));
            }
            Truth::No => {}
            Truth::Unknown => {
                holding = holding.united(scope.alloc, &walk.onward)?;
            }
        }
    }
    Ok(holding)
}

// A `when`, so that what follows makes the walk of the whole; `ends` gets what is dirty behind it.
#[cycle(statement_walk)]
fn walk_when(
    scope: &RecordScope<'_>,
    walk: &mut RecordedWalk,
    ends: &mut LocationSet,
    known: &[ByVariable],
    when: &When,
    place: Place,
) -> Result<(), OutOfMemory>
    ensures { (rest : TypedWhens) → OnOk result (WhensLeft scope.now walk.old walk.new ends.old ends.new known.now place rest (when_tree when.now rest)) }
{
    let holding = walk_tests(scope, walk, known, when.tests.as_slice(), place)?;
    let failing = walk.go_on_from(holding);
    walk_statement(scope, walk, &when.then)?;
    let end = walk.go_on_from(failing);
    *ends = ends.united(scope.alloc, &end)?;
    Ok(())
}

// The `otherwise` part of a `select`; where there is none, no way goes on.
#[cycle(statement_walk)]
fn walk_otherwise(
    scope: &RecordScope<'_>,
    walk: &mut RecordedWalk,
    known: &[ByVariable],
    otherwise: &Option<Box<Statement>>,
    place: Place,
) -> Result<(), OutOfMemory>
    ensures { OnOk result (GoesPastBy scope.now walk.old walk.new (λ s. whens_walk s (first_flags known.now) (otherwise_part (last_tree otherwise.now)) place)) }
{
    match otherwise {
        None => {
            walk.onward = LocationSet::new(scope.alloc);
            Ok(())
        }
        Some(last) => walk_statement(scope, walk, last),
    }
}

// The `when` parts of a `select`, so that what follows makes the walk of the whole.
#[cycle(statement_walk)]
fn walk_whens(
    scope: &RecordScope<'_>,
    walk: &mut RecordedWalk,
    ends: &mut LocationSet,
    known: &[ByVariable],
    whens: &[When],
    place: Place,
) -> Result<(), OutOfMemory>
    ensures { (rest : TypedWhens) → OnOk result (WhensLeft scope.now walk.old walk.new ends.old ends.new known.now place rest (in_a_row (map when_tree whens.now) rest)) }
{
    'whens: for when in whens {
        walk_when(scope, walk, ends, known, when, place)?;
    }
    Ok(())
}

// The head of a counted loop: its bounds and its step are walked, and its variable is made clean. What is dirty there is handed back.
fn walk_count_head(
    scope: &RecordScope<'_>,
    walk: &mut RecordedWalk,
    place: Place,
    variable: &Reference,
    bounds: (&Expression, &Expression),
    step: &Option<Expression>,
) -> Result<LocationSet, OutOfMemory>
    ensures head { IfOk result (λ head. head ≡ walk.new.onward) }
    ensures walked { IfOk result (λ head. GoesOnBy scope.now walk.old walk.new (count_head place variable.now (typed_expression bounds.entry.0.now) (typed_expression bounds.entry.1.now) (option_map typed_expression step.now))) }
{
    let (start, end) = bounds;
    walk_expression(scope, walk, start, place)?;
    walk_expression(scope, walk, end, place)?;
    walk_step(scope, walk, step, place)?;
    clean_variable(scope, walk, variable)?;
    walk.onward.copy(scope.alloc)
}

// The head of a loop that tests before each round: its test is walked. What is dirty before that is handed back.
fn walk_test_head(
    scope: &RecordScope<'_>,
    walk: &mut RecordedWalk,
    condition: &Expression,
    place: Place,
) -> Result<LocationSet, OutOfMemory>
    ensures head { IfOk result (λ head. head ≡ walk.old.onward) }
    ensures walked { IfOk result (λ head. GoesOnBy scope.now walk.old walk.new (λ s. expression_walk s (typed_expression condition.now) place)) }
{
    let head = walk.onward.copy(scope.alloc)?;
    walk_expression(scope, walk, condition, place)?;
    Ok(head)
}

// A loop that tests before its body, past its test: behind it the head's locations are dirty. Its body's ways by `leave` and `continue`
// end at it.
#[cycle(statement_walk)]
fn walk_loop(
    scope: &RecordScope<'_>,
    walk: &mut RecordedWalk,
    head: LocationSet,
    body: &[Statement],
) -> Result<(), OutOfMemory>
    ensures { OnOk result (LoopWalked scope.now walk.old walk.new head (all_statements (map typed_statement body.now))) }
{
    let around = walk.change_loop(LoopWays::new(scope.alloc));
    walk_body(scope, walk, body)?;
    let _inner = walk.change_loop(around);
    walk.onward = head;
    Ok(())
}

// The body of a loop that tests behind each round; the ways to its next round meet behind it. What is dirty where ways left the loop is
// handed back.
#[cycle(statement_walk)]
fn walk_until_body(
    scope: &RecordScope<'_>,
    walk: &mut RecordedWalk,
    body: &[Statement],
) -> Result<LocationSet, OutOfMemory>
    ensures { IfOk result (λ left. UntilWalked scope.now walk.old walk.new left (all_statements (map typed_statement body.now))) }
{
    let around = walk.change_loop(LoopWays::new(scope.alloc));
    walk_body(scope, walk, body)?;
    let LoopWays { leaves, continues } = walk.change_loop(around);
    walk.meet(scope.alloc, &continues)?;
    Ok(leaves)
}

/// Statements in order.
#[cycle(statement_walk)]
pub fn walk_body(
    scope: &RecordScope<'_>,
    walk: &mut RecordedWalk,
    body: &[Statement],
) -> Result<(), OutOfMemory>
    ensures { OnOk result (GoesPastBy scope.now walk.old walk.new (λ s. walk_all s (all_statements (map typed_statement body.now)))) }
{
    'body: for s in body {
        walk_statement(scope, walk, s)?;
    }
    Ok(())
}

// A statement.
#[cycle(statement_walk)]
fn walk_statement(
    scope: &RecordScope<'_>,
    walk: &mut RecordedWalk,
    s: &Statement,
) -> Result<(), OutOfMemory>
    ensures { OnOk result (GoesPastBy scope.now walk.old walk.new (λ w. statement_walk w (typed_statement s.now))) }
{
    match s {
        Statement::Empty { place: _ } => Ok(()),
        Statement::Assign {
            place,
            variable,
            value,
        } => {
            walk_expression(scope, walk, value, *place)?;
            clean_variable(scope, walk, variable)
        }
        Statement::Invoke { place, call } => walk_call(scope, walk, call, *place),
        Statement::Evaluate { place, value } => walk_expression(scope, walk, value, *place),
        Statement::SetParameters {
            place,
            instance: _,
            values,
        } => walk_values(scope, walk, values.as_slice(), *place),
        Statement::Leave { place: _ } => walk.leave(scope.alloc),
        Statement::Continue { place: _ } => walk.go_to_next_round(scope.alloc),
        Statement::Return { place: _ } => walk.return_from(scope.alloc),
        Statement::ReturnValue { place, value } => {
            walk_expression(scope, walk, value, *place)?;
            walk.return_from(scope.alloc)
        }
        Statement::Output { place, outputs } => {
            read_outputs(scope, walk, outputs.as_slice(), *place)
        }
        Statement::Put { place, items } => walk_items(scope, walk, items.as_slice(), *place),
        Statement::If {
            place,
            condition,
            then,
            others,
            otherwise,
        } => {
            let mut branches = WalkedBranches {
                ends: LocationSet::new(scope.alloc),
                is_decided: false,
            };
            walk_expression(scope, walk, condition, *place)?;
            let truth = decided(scope.known, scope.body.home, condition);
            walk_branch(scope, walk, &mut branches, truth, then)?;
            walk_arms(scope, walk, &mut branches, others.as_slice())?;
            walk_else(scope, walk, branches.is_decided, otherwise)?;
            walk.meet(scope.alloc, &branches.ends)
        }
        Statement::Select {
            place,
            whens,
            otherwise,
        } => {
            let mut ends = LocationSet::new(scope.alloc);
            walk_whens(
                scope,
                walk,
                &mut ends,
                scope.known,
                whens.as_slice(),
                *place,
            )?;
            walk_otherwise(scope, walk, scope.known, otherwise, *place)?;
            walk.meet(scope.alloc, &ends)
        }
        Statement::SelectValue {
            place,
            value,
            whens,
            otherwise,
        } => {
            walk_expression(scope, walk, value, *place)?;
            let mut ends = LocationSet::new(scope.alloc);
            walk_whens(scope, walk, &mut ends, &[], whens.as_slice(), *place)?;
            walk_otherwise(scope, walk, &[], otherwise, *place)?;
            walk.meet(scope.alloc, &ends)
        }
        Statement::Block { place: _, body } => walk_body(scope, walk, body.as_slice()),
        Statement::Count {
            place,
            variable,
            start,
            end,
            step,
            body,
        } => {
            let head = walk_count_head(scope, walk, *place, variable, (start, end), step)?;
            walk_loop(scope, walk, head, body.as_slice())
        }
        Statement::While {
            place,
            condition,
            body,
        } => {
            let head = walk_test_head(scope, walk, condition, *place)?;
            walk_loop(scope, walk, head, body.as_slice())
        }
        Statement::Until {
            place,
            condition,
            body,
        } => {
            let left = walk_until_body(scope, walk, body.as_slice())?;
            walk_expression(scope, walk, condition, *place)?;
            walk.meet(scope.alloc, &left)
        }
    }
}
