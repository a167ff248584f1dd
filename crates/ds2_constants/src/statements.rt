//! The constants of statements.
ghost use Rattle.std.specs.Prelude.{◌≡◌, [], ◌∷◌, List as Items, Option as Maybe, map, OnOk};
ghost use Rattle.std.specs.Option.{option_map};
ghost use Rattle.ds2_value.specs.declared.value.Value.TheVariants.{Txt};
ghost use Rattle.ds2_meaning.specs.TypedStatement.{TypedStatement, TypedWhens, Item};
ghost use Rattle.ds2_meaning.specs.View.{in_a_row, all_statements, otherwise_part, typed_statement, typed_expression, item_tree, parameter_tree};
ghost use Rattle.ds2_gen.specs.StatementCode.{text_type, label_of};
ghost use Rattle.ds2_program_code.specs.UsedConstants.{constants_of_items, constants_of_step, constants_of_parameters, constants_of_statement, constants_of_body, constants_of_whens};
ghost use Rattle.ds2_program_code.specs.CodeConstants.{with_used_constant};
ghost use Rattle.ds2_statement_emitter.specs.Appending.{IfPart};
ghost use Rattle.ds2_statement_emitter.specs.Arms.{when_tree, arm_of_chain, last_tree};
ghost use Rattle.ds2_constants.specs.UsedOnce.{with_used, constants_of_rest};

use crate::ConstantTable;
use crate::expressions::{collect_call, collect_expression, collect_expressions};
use crate::texts::{label_value, text_value};
use ds2_base::{OutOfMemory, Text};
use ds2_meaning::{Arm, Expression, ParameterSetting, PutItem, Statement, When};
use ds2_value::{Ty, Value};
use std::alloc::Global;

// Adds a text constant.
fn collect_text(alloc: Global, table: &mut ConstantTable, text: &Text) -> Result<(), OutOfMemory>
    ensures { OnOk result (table.new ≡ with_used_constant table.old (record { value = Txt text.now; ty = text_type text.now })) }
{
    let (value, ty) = text_value(alloc, text)?;
    table.add(alloc, &value, ty)
}

// Adds the constant of a label.
fn collect_label(alloc: Global, table: &mut ConstantTable, name: &Text) -> Result<(), OutOfMemory>
    ensures { OnOk result (table.new ≡ with_used_constant table.old (record { value = Txt (label_of name.now); ty = text_type (label_of name.now) })) }
{
    let (value, ty) = label_value(alloc, name)?;
    table.add(alloc, &value, ty)
}

// Adds those of an item of a line, so that what follows makes those of the whole.
#[tactic(auto, using(crate::proofs::CollectedStatements::text_collected, crate::proofs::CollectedStatements::shown_collected, crate::proofs::CollectedStatements::labelled_collected))]
fn collect_item(alloc: Global, table: &mut ConstantTable, item: &PutItem) -> Result<(), OutOfMemory>
    ensures { (rest : Items Item) → OnOk result (with_used (constants_of_items rest) table.new ≡ with_used (constants_of_items (item_tree item.now ∷ rest)) table.old) }
{
    match item {
        PutItem::Constant(text) => collect_text(alloc, table, text),
        PutItem::Value(e) => collect_expression(alloc, table, e),
        PutItem::Named { name, value } => {
            collect_label(alloc, table, name)?;
            collect_expression(alloc, table, value)
        }
    }
}

// Adds those of a line.
fn collect_items(
    alloc: Global,
    table: &mut ConstantTable,
    items: &[PutItem],
) -> Result<(), OutOfMemory>
    ensures { OnOk result (table.new ≡ with_used (constants_of_items (map item_tree items.now)) table.old) }
{
    'items: for item in items {
        collect_item(alloc, table, item)?;
    }
    Ok(())
}

// Adds those of the parameters of a thread program.
fn collect_parameters(
    alloc: Global,
    table: &mut ConstantTable,
    values: &[ParameterSetting],
) -> Result<(), OutOfMemory>
    ensures { OnOk result (table.new ≡ with_used (constants_of_parameters (map parameter_tree values.now)) table.old) }
{
    'values: for setting in values {
        collect_expression(alloc, table, &setting.value)?;
    }
    Ok(())
}

// Adds those of the step of a counted loop: 1 where none was given, and else 0, with which it is compared.
#[tactic(auto, using(crate::proofs::Collected::one_used, crate::proofs::Collected::first_used))]
fn collect_step(
    alloc: Global,
    table: &mut ConstantTable,
    step: &Option<Expression>,
) -> Result<(), OutOfMemory>
    ensures { OnOk result (table.new ≡ with_used (constants_of_step (option_map typed_expression step.now)) table.old) }
{
    match step {
        None => table.add(alloc, &Value::Int(1), Ty::BigInt),
        Some(e) => {
            table.add(alloc, &Value::Int(0), Ty::BigInt)?;
            collect_expression(alloc, table, e)
        }
    }
}

// Adds those of an `else if`, so that what follows makes those of the whole.
#[cycle(gather)]
fn collect_arm(alloc: Global, table: &mut ConstantTable, arm: &Arm) -> Result<(), OutOfMemory>
    ensures { (ps : Items IfPart) (o : Maybe TypedStatement) → OnOk result (with_used (constants_of_rest ps o) table.new ≡ with_used (constants_of_rest (arm_of_chain arm.now ∷ ps) o) table.old) }
{
    collect_expression(alloc, table, &arm.condition)?;
    collect_statement(alloc, table, &arm.then)
}

// Adds those of the `else if` parts of a chain.
#[cycle(gather)]
fn collect_arms(alloc: Global, table: &mut ConstantTable, arms: &[Arm]) -> Result<(), OutOfMemory>
    ensures { (o : Maybe TypedStatement) → OnOk result (with_used (constants_of_rest [] o) table.new ≡ with_used (constants_of_rest (map arm_of_chain arms.now) o) table.old) }
{
    'arms: for arm in arms {
        collect_arm(alloc, table, arm)?;
    }
    Ok(())
}

// Adds those of the else part of a chain, where there is one.
#[cycle(gather)]
#[tactic(auto, using(crate::proofs::Collected::none_used))]
fn collect_else(
    alloc: Global,
    table: &mut ConstantTable,
    otherwise: &Option<Box<Statement>>,
) -> Result<(), OutOfMemory>
    ensures { OnOk result (table.new ≡ with_used (constants_of_rest [] (last_tree otherwise.now)) table.old) }
{
    match otherwise {
        None => Ok(()),
        Some(last) => collect_statement(alloc, table, last),
    }
}

// Adds those of a `when`, so that what follows makes those of the whole.
#[cycle(gather)]
fn collect_when(alloc: Global, table: &mut ConstantTable, when: &When) -> Result<(), OutOfMemory>
    ensures { (rest : TypedWhens) → OnOk result (with_used (constants_of_whens rest) table.new ≡ with_used (constants_of_whens (when_tree when.now rest)) table.old) }
{
    collect_expressions(alloc, table, when.tests.as_slice())?;
    collect_statement(alloc, table, &when.then)
}

// Adds those of the `when` parts of a `select`.
#[cycle(gather)]
fn collect_whens(
    alloc: Global,
    table: &mut ConstantTable,
    whens: &[When],
) -> Result<(), OutOfMemory>
    ensures { (o : Maybe TypedStatement) → OnOk result (with_used (constants_of_whens (otherwise_part o)) table.new ≡ with_used (constants_of_whens (in_a_row (map when_tree whens.now) (otherwise_part o))) table.old) }
{
    'whens: for when in whens {
        collect_when(alloc, table, when)?;
    }
    Ok(())
}

// Adds those of the `otherwise` part of a `select`, where there is one.
#[cycle(gather)]
#[tactic(auto, using(crate::proofs::Collected::none_used))]
fn collect_otherwise(
    alloc: Global,
    table: &mut ConstantTable,
    otherwise: &Option<Box<Statement>>,
) -> Result<(), OutOfMemory>
    ensures { OnOk result (table.new ≡ with_used (constants_of_whens (otherwise_part (last_tree otherwise.now))) table.old) }
{
    match otherwise {
        None => Ok(()),
        Some(last) => collect_statement(alloc, table, last),
    }
}

/// Adds those of statements in order.
#[cycle(gather)]
pub fn collect_statements(
    alloc: Global,
    table: &mut ConstantTable,
    body: &[Statement],
) -> Result<(), OutOfMemory>
    ensures { OnOk result (table.new ≡ with_used (constants_of_body (all_statements (map typed_statement body.now))) table.old) }
{
    'body: for s in body {
        collect_statement(alloc, table, s)?;
    }
    Ok(())
}

// Adds those of a statement.
#[cycle(gather)]
fn collect_statement(
    alloc: Global,
    table: &mut ConstantTable,
    s: &Statement,
) -> Result<(), OutOfMemory>
    ensures { OnOk result (table.new ≡ with_used (constants_of_statement (typed_statement s.now)) table.old) }
{
    match s {
        Statement::Empty { place: _ } => Ok(()),
        Statement::Assign {
            place: _,
            variable: _,
            value,
        } => collect_expression(alloc, table, value),
        Statement::Invoke { place: _, call } => collect_call(alloc, table, call),
        Statement::Evaluate { place: _, value } => collect_expression(alloc, table, value),
        Statement::SetParameters {
            place: _,
            instance: _,
            values,
        } => collect_parameters(alloc, table, values.as_slice()),
        Statement::Leave { place: _ } => Ok(()),
        Statement::Continue { place: _ } => Ok(()),
        Statement::Return { place: _ } => Ok(()),
        Statement::ReturnValue { place: _, value } => collect_expression(alloc, table, value),
        Statement::Output {
            place: _,
            outputs: _,
        } => Ok(()),
        Statement::Put { place: _, items } => collect_items(alloc, table, items.as_slice()),
        Statement::If {
            place: _,
            condition,
            then,
            others,
            otherwise,
        } => {
            collect_expression(alloc, table, condition)?;
            collect_statement(alloc, table, then)?;
            collect_arms(alloc, table, others.as_slice())?;
            collect_else(alloc, table, otherwise)
        }
        Statement::Select {
            place: _,
            whens,
            otherwise,
        } => {
            collect_whens(alloc, table, whens.as_slice())?;
            collect_otherwise(alloc, table, otherwise)
        }
        Statement::SelectValue {
            place: _,
            value,
            whens,
            otherwise,
        } => {
            collect_expression(alloc, table, value)?;
            collect_whens(alloc, table, whens.as_slice())?;
            collect_otherwise(alloc, table, otherwise)
        }
        Statement::Block { place: _, body } => collect_statements(alloc, table, body.as_slice()),
        Statement::Count {
            place: _,
            variable: _,
            start,
            end,
            step,
            body,
        } => {
            collect_expression(alloc, table, start)?;
            collect_expression(alloc, table, end)?;
            collect_step(alloc, table, step)?;
            collect_statements(alloc, table, body.as_slice())
        }
        Statement::While {
            place: _,
            condition,
            body,
        } => {
            collect_expression(alloc, table, condition)?;
            collect_statements(alloc, table, body.as_slice())
        }
        Statement::Until {
            place: _,
            condition,
            body,
        } => {
            collect_expression(alloc, table, condition)?;
            collect_statements(alloc, table, body.as_slice())
        }
    }
}
