//! The types of the values that the code of statements keeps.
ghost use Rattle.std.specs.Prelude.{◌≡◌, [], ◌∷◌, ◌++◌, List as Items, Option as Maybe, map, OnOk};
ghost use Rattle.std.specs.Option.{option_map};
ghost use Rattle.ds2_meaning.specs.TypedStatement.{TypedStatement, TypedWhens};
ghost use Rattle.ds2_meaning.specs.View.{in_a_row, all_statements, otherwise_part, typed_expression, typed_statement, typed_statements};
ghost use Rattle.ds2_program_code.specs.KeptTypes.{types_of_count, types_kept, all_types_kept, whens_types_kept};
ghost use Rattle.ds2_statement_emitter.specs.Appending.{IfPart};
ghost use Rattle.ds2_statement_emitter.specs.Arms.{when_tree, arm_of_chain, last_tree};
ghost use Rattle.ds2_body_survey.specs.Surveyed.{with_types, types_of_rest};

use crate::expression_types::expression_type;
use ds2_base::{List, OutOfMemory};
use ds2_meaning::{Arm, Expression, Statement, When};
use ds2_value::Ty;

// Adds a type.
#[tactic(auto, unfolding(crate::specs::Surveyed::with_types))]
fn add_type(types: &mut List<Ty>, ty: Ty) -> Result<(), OutOfMemory>
    ensures { OnOk result (types.new ≡ with_types (ty ∷ []) types.old) }
{
    types.push(ty)
}

// Adds the types of the step, where one was given, and of the end of a counted loop.
#[tactic(auto, using(crate::proofs::SurveyLemmas::two_added))]
fn add_count_types(types: &mut List<Ty>, step: &Option<Expression>) -> Result<(), OutOfMemory>
    ensures { OnOk result (types.new ≡ with_types (types_of_count (option_map typed_expression step.now)) types.old) }
{
    match step {
        None => add_type(types, Ty::BigInt),
        Some(_) => {
            add_type(types, Ty::BigInt)?;
            add_type(types, Ty::BigInt)
        }
    }
}

// Adds those of an `else if`, so that what follows makes those of the whole.
#[cycle(kept)]
fn add_arm(types: &mut List<Ty>, arm: &Arm) -> Result<(), OutOfMemory>
    ensures { (ps : Items IfPart) (o : Maybe TypedStatement) → OnOk result (with_types (types_of_rest ps o) types.new ≡ with_types (types_of_rest (arm_of_chain arm.now ∷ ps) o) types.old) }
{
    add_types(types, &arm.then)
}

// Adds those of the `else if` parts of a chain.
#[cycle(kept)]
fn add_arms(types: &mut List<Ty>, arms: &[Arm]) -> Result<(), OutOfMemory>
    ensures { (o : Maybe TypedStatement) → OnOk result (with_types (types_of_rest [] o) types.new ≡ with_types (types_of_rest (map arm_of_chain arms.now) o) types.old) }
{
    'arms: for arm in arms {
        add_arm(types, arm)?;
    }
    Ok(())
}

// Adds those of the else part of a chain, where there is one.
#[cycle(kept)]
#[tactic(auto, using(crate::proofs::SurveyLemmas::none_added))]
fn add_else(types: &mut List<Ty>, otherwise: &Option<Box<Statement>>) -> Result<(), OutOfMemory>
    ensures { OnOk result (types.new ≡ with_types (types_of_rest [] (last_tree otherwise.now)) types.old) }
{
    match otherwise {
        None => Ok(()),
        Some(last) => add_types(types, last),
    }
}

// Adds those of a `when`, so that what follows makes those of the whole.
#[cycle(kept)]
fn add_when(types: &mut List<Ty>, when: &When) -> Result<(), OutOfMemory>
    ensures { (rest : TypedWhens) → OnOk result (with_types (whens_types_kept rest) types.new ≡ with_types (whens_types_kept (when_tree when.now rest)) types.old) }
{
    add_types(types, &when.then)
}

// Adds those of the `when` parts of a `select`.
#[cycle(kept)]
fn add_whens(types: &mut List<Ty>, whens: &[When]) -> Result<(), OutOfMemory>
    ensures { (o : Maybe TypedStatement) → OnOk result (with_types (whens_types_kept (otherwise_part o)) types.new ≡ with_types (whens_types_kept (in_a_row (map when_tree whens.now) (otherwise_part o))) types.old) }
{
    'whens: for when in whens {
        add_when(types, when)?;
    }
    Ok(())
}

// Adds those of the `otherwise` part of a `select`, where there is one.
#[cycle(kept)]
#[tactic(auto, using(crate::proofs::SurveyLemmas::none_added))]
fn add_otherwise(
    types: &mut List<Ty>,
    otherwise: &Option<Box<Statement>>,
) -> Result<(), OutOfMemory>
    ensures { OnOk result (types.new ≡ with_types (whens_types_kept (otherwise_part (last_tree otherwise.now))) types.old) }
{
    match otherwise {
        None => Ok(()),
        Some(last) => add_types(types, last),
    }
}

// Adds those of statements in order.
#[cycle(kept)]
fn add_all_types(types: &mut List<Ty>, body: &[Statement]) -> Result<(), OutOfMemory>
    ensures { OnOk result (types.new ≡ with_types (all_types_kept (all_statements (map typed_statement body.now))) types.old) }
{
    'body: for s in body {
        add_types(types, s)?;
    }
    Ok(())
}

// Adds those of a statement.
#[cycle(kept)]
fn add_types(types: &mut List<Ty>, s: &Statement) -> Result<(), OutOfMemory>
    ensures { OnOk result (types.new ≡ with_types (types_kept (typed_statement s.now)) types.old) }
{
    match s {
        Statement::Empty { place: _ } => Ok(()),
        Statement::Assign {
            place: _,
            variable: _,
            value: _,
        } => Ok(()),
        Statement::Invoke { place: _, call: _ } => Ok(()),
        Statement::Evaluate { place: _, value: _ } => Ok(()),
        Statement::SetParameters {
            place: _,
            instance: _,
            values: _,
        } => Ok(()),
        Statement::Leave { place: _ } => Ok(()),
        Statement::Continue { place: _ } => Ok(()),
        Statement::Return { place: _ } => Ok(()),
        Statement::ReturnValue { place: _, value: _ } => Ok(()),
        Statement::Output {
            place: _,
            outputs: _,
        } => Ok(()),
        Statement::Put { place: _, items: _ } => Ok(()),
        Statement::If {
            place: _,
            condition: _,
            then,
            others,
            otherwise,
        } => {
            add_types(types, then)?;
            add_arms(types, others.as_slice())?;
            add_else(types, otherwise)
        }
        Statement::Select {
            place: _,
            whens,
            otherwise,
        } => {
            add_whens(types, whens.as_slice())?;
            add_otherwise(types, otherwise)
        }
        Statement::SelectValue {
            place: _,
            value,
            whens,
            otherwise,
        } => {
            add_type(types, expression_type(value))?;
            add_whens(types, whens.as_slice())?;
            add_otherwise(types, otherwise)
        }
        Statement::Block { place: _, body } => add_all_types(types, body.as_slice()),
        Statement::Count {
            place: _,
            variable: _,
            start: _,
            end: _,
            step,
            body,
        } => {
            add_count_types(types, step)?;
            add_all_types(types, body.as_slice())
        }
        Statement::While {
            place: _,
            condition: _,
            body,
        } => add_all_types(types, body.as_slice()),
        Statement::Until {
            place: _,
            condition: _,
            body,
        } => add_all_types(types, body.as_slice()),
    }
}

/// Adds the types of the values that the code of statements keeps, in the order of their numbers.
#[tactic(auto, unfolding(crate::specs::Surveyed::with_types))]
pub fn add_kept_types(types: &mut List<Ty>, body: &[Statement]) -> Result<(), OutOfMemory>
    ensures { OnOk result (types.new ≡ types.old ++ all_types_kept (typed_statements body.now)) }
{
    add_all_types(types, body)
}
