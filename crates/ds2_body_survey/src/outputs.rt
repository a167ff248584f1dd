//! Whether an `output` statement stands among statements.
ghost use Rattle.std.specs.Prelude.{◌≡◌, ◌||◌, [], Option as Maybe, map};
ghost use Rattle.ds2_meaning.specs.TypedStatement.{TypedStatement, has_output, have_output, whens_have_output};
ghost use Rattle.ds2_meaning.specs.View.{in_a_row, all_statements, otherwise_part, typed_statement};
ghost use Rattle.ds2_statement_emitter.specs.Arms.{when_tree, arm_of_chain, last_tree};
ghost use Rattle.ds2_body_survey.specs.Surveyed.{output_in_rest};

use ds2_meaning::{Arm, Statement, When};

// Whether one of three holds.
fn one_holds(first: bool, second: bool, third: bool) -> bool
    ensures { result ≡ (first || (second || third)) }
{
    first || (second || third)
}

// Whether one stands in the `else if` parts of a chain.
#[cycle(output)]
fn arms_have_output(arms: &[Arm]) -> bool
    ensures { (o : Maybe TypedStatement) → (result || output_in_rest [] o) ≡ output_in_rest (map arm_of_chain arms.now) o }
{
    'arms: for arm in arms {
        if statement_has_output(&arm.then) {
            return true;
        }
    }
    false
}

// Whether one stands in the else part of a chain.
#[cycle(output)]
fn else_has_output(otherwise: &Option<Box<Statement>>) -> bool
    ensures { result ≡ output_in_rest [] (last_tree otherwise.now) }
{
    match otherwise {
        None => false,
        Some(last) => statement_has_output(last),
    }
}

// Whether one stands in the `when` parts of a `select`.
#[cycle(output)]
fn whens_have_output(whens: &[When]) -> bool
    ensures { (o : Maybe TypedStatement) → (result || whens_have_output (otherwise_part o)) ≡ whens_have_output (in_a_row (map when_tree whens.now) (otherwise_part o)) }
{
    'whens: for when in whens {
        if statement_has_output(&when.then) {
            return true;
        }
    }
    false
}

// Whether one stands in the `otherwise` part of a `select`.
#[cycle(output)]
fn otherwise_has_output(otherwise: &Option<Box<Statement>>) -> bool
    ensures { result ≡ whens_have_output (otherwise_part (last_tree otherwise.now)) }
{
    match otherwise {
        None => false,
        Some(last) => statement_has_output(last),
    }
}

/// Whether one stands among statements.
#[cycle(output)]
pub fn statements_have_output(body: &[Statement]) -> bool
    ensures { result ≡ have_output (all_statements (map typed_statement body.now)) }
{
    'body: for s in body {
        if statement_has_output(s) {
            return true;
        }
    }
    false
}

// Whether a statement is one, or one stands in it.
#[cycle(output)]
fn statement_has_output(s: &Statement) -> bool
    ensures { result ≡ has_output (typed_statement s.now) }
{
    match s {
        Statement::Empty { place: _ } => false,
        Statement::Assign {
            place: _,
            variable: _,
            value: _,
        } => false,
        Statement::Invoke { place: _, call: _ } => false,
        Statement::Evaluate { place: _, value: _ } => false,
        Statement::SetParameters {
            place: _,
            instance: _,
            values: _,
        } => false,
        Statement::Leave { place: _ } => false,
        Statement::Continue { place: _ } => false,
        Statement::Return { place: _ } => false,
        Statement::ReturnValue { place: _, value: _ } => false,
        Statement::Output {
            place: _,
            outputs: _,
        } => true,
        Statement::Put { place: _, items: _ } => false,
        Statement::If {
            place: _,
            condition: _,
            then,
            others,
            otherwise,
        } => {
            let first = statement_has_output(then);
            let others = arms_have_output(others.as_slice());
            let last = else_has_output(otherwise);
            one_holds(first, others, last)
        }
        Statement::Select {
            place: _,
            whens,
            otherwise,
        } => {
            let parts = whens_have_output(whens.as_slice());
            let last = otherwise_has_output(otherwise);
            parts || last
        }
        Statement::SelectValue {
            place: _,
            value: _,
            whens,
            otherwise,
        } => {
            let parts = whens_have_output(whens.as_slice());
            let last = otherwise_has_output(otherwise);
            parts || last
        }
        Statement::Block { place: _, body } => statements_have_output(body.as_slice()),
        Statement::Count {
            place: _,
            variable: _,
            start: _,
            end: _,
            step: _,
            body,
        } => statements_have_output(body.as_slice()),
        Statement::While {
            place: _,
            condition: _,
            body,
        } => statements_have_output(body.as_slice()),
        Statement::Until {
            place: _,
            condition: _,
            body,
        } => statements_have_output(body.as_slice()),
    }
}
