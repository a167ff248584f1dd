//! The deeds of statements.
ghost use Rattle.std.specs.Prelude.{◌≡◌, [], ◌∷◌, map, OnOk};
ghost use Rattle.std.specs.Option.{option_map};
ghost use Rattle.ds2_locality.specs.Deeds.{item_deeds, parameter_deeds, step_deeds as deeds_of_step, statement_deeds as deeds_of_statement, body_deeds, when_deeds};
ghost use Rattle.ds2_meaning.specs.TypedStatement.{TypedWhens};
ghost use Rattle.ds2_meaning.specs.View.{in_a_row, all_statements, typed_expression, typed_statement, item_tree, parameter_tree};
ghost use Rattle.ds2_statement_emitter.specs.Arms.{arm_tree, when_tree, last_tree};
ghost use Rattle.ds2_deeds.specs.ElseParts.{ElsePart, else_deeds as deeds_of_else};
ghost use Rattle.ds2_deeds.specs.CodeTrees.{scope_of};
ghost use Rattle.ds2_deeds.specs.NumberedDeeds.{numbers_of, with_deeds};

use crate::deed::{NumberedDeed, add_change, add_set, add_write};
use crate::expression_deeds::{add_call_deeds, add_expression_deeds, add_expressions_deeds};
use crate::location::{CodeHome, GlobalName, LocationName};
use crate::numbers::Numbers;
use crate::object_deeds::add_outputs;
use crate::scope::BodyScope;
use ds2_base::{List, Name, OutOfMemory};
use ds2_meaning::{Arm, Expression, ParameterSetting, PutItem, Statement, When};

// Adds those of an item of a line.
fn add_item_deeds(
    numbers: Numbers<'_>,
    deeds: &mut List<NumberedDeed>,
    scope: &BodyScope<'_>,
    item: &PutItem,
) -> Result<(), OutOfMemory>
    ensures { OnOk result (deeds.new ≡ with_deeds (numbers_of numbers.entry) (item_deeds (scope_of scope.now) (item_tree item.now ∷ [])) deeds.old) }
{
    match item {
        PutItem::Constant(_) => Ok(()),
        PutItem::Value(value) => add_expression_deeds(numbers, deeds, scope, value),
        PutItem::Named { name: _, value } => add_expression_deeds(numbers, deeds, scope, value),
    }
}

// Adds those of the items of a line.
fn add_items_deeds(
    numbers: Numbers<'_>,
    deeds: &mut List<NumberedDeed>,
    scope: &BodyScope<'_>,
    items: &[PutItem],
) -> Result<(), OutOfMemory>
    ensures { OnOk result (deeds.new ≡ with_deeds (numbers_of numbers.entry) (item_deeds (scope_of scope.now) (map item_tree items.now)) deeds.old) }
{
    'items: for item in items {
        add_item_deeds(numbers, deeds, scope, item)?;
    }
    Ok(())
}

// Adds those of a parameter of an instance that gets a value.
fn add_parameter_deeds(
    numbers: Numbers<'_>,
    deeds: &mut List<NumberedDeed>,
    scope: &BodyScope<'_>,
    instance: &Name,
    setting: &ParameterSetting,
) -> Result<(), OutOfMemory>
    ensures { OnOk result (deeds.new ≡ with_deeds (numbers_of numbers.entry) (parameter_deeds (scope_of scope.now) instance.now (parameter_tree setting.now ∷ [])) deeds.old) }
{
    add_expression_deeds(numbers, deeds, scope, &setting.value)?;
    let at = LocationName {
        home: CodeHome::Instance(instance),
        global: GlobalName::Parameter(&setting.parameter),
    };
    add_change(numbers, deeds, at)
}

// Adds those of the parameters of an instance that get values.
fn add_parameters_deeds(
    numbers: Numbers<'_>,
    deeds: &mut List<NumberedDeed>,
    scope: &BodyScope<'_>,
    instance: &Name,
    settings: &[ParameterSetting],
) -> Result<(), OutOfMemory>
    ensures { OnOk result (deeds.new ≡ with_deeds (numbers_of numbers.entry) (parameter_deeds (scope_of scope.now) instance.now (map parameter_tree settings.now)) deeds.old) }
{
    'settings: for setting in settings {
        add_parameter_deeds(numbers, deeds, scope, instance, setting)?;
    }
    Ok(())
}

// Adds those of the step of a counted loop, where there is one.
fn add_step_deeds(
    numbers: Numbers<'_>,
    deeds: &mut List<NumberedDeed>,
    scope: &BodyScope<'_>,
    step: &Option<Expression>,
) -> Result<(), OutOfMemory>
    ensures { OnOk result (deeds.new ≡ with_deeds (numbers_of numbers.entry) (deeds_of_step (scope_of scope.now) (option_map typed_expression step.now)) deeds.old) }
{
    match step {
        None => Ok(()),
        Some(step) => add_expression_deeds(numbers, deeds, scope, step),
    }
}

// Adds those of an `else if`, so that what follows makes those of the whole.
#[cycle(statement_deeds)]
fn add_arm_deeds(
    numbers: Numbers<'_>,
    deeds: &mut List<NumberedDeed>,
    scope: &BodyScope<'_>,
    arm: &Arm,
) -> Result<(), OutOfMemory>
    ensures { (rest : ElsePart) → OnOk result (with_deeds (numbers_of numbers.entry) (deeds_of_else (scope_of scope.now) rest) deeds.new ≡ with_deeds (numbers_of numbers.entry) (deeds_of_else (scope_of scope.now) (arm_tree arm.now rest)) deeds.old) }
{
    add_expression_deeds(numbers, deeds, scope, &arm.condition)?;
    add_statement_deeds(numbers, deeds, scope, &arm.then)
}

// Adds those of the `else if` parts of a chain.
#[cycle(statement_deeds)]
fn add_arms_deeds(
    numbers: Numbers<'_>,
    deeds: &mut List<NumberedDeed>,
    scope: &BodyScope<'_>,
    arms: &[Arm],
) -> Result<(), OutOfMemory>
    ensures { (rest : ElsePart) → OnOk result (with_deeds (numbers_of numbers.entry) (deeds_of_else (scope_of scope.now) rest) deeds.new ≡ with_deeds (numbers_of numbers.entry) (deeds_of_else (scope_of scope.now) (in_a_row (map arm_tree arms.now) rest)) deeds.old) }
{
    'arms: for arm in arms {
        add_arm_deeds(numbers, deeds, scope, arm)?;
    }
    Ok(())
}

// Adds those of the last else part, or of the `otherwise` part, where there is one.
#[cycle(statement_deeds)]
fn add_last_deeds(
    numbers: Numbers<'_>,
    deeds: &mut List<NumberedDeed>,
    scope: &BodyScope<'_>,
    last: &Option<Box<Statement>>,
) -> Result<(), OutOfMemory>
    ensures { OnOk result (deeds.new ≡ with_deeds (numbers_of numbers.entry) (deeds_of_else (scope_of scope.now) (last_tree last.now)) deeds.old) }
{
    match last {
        None => Ok(()),
        Some(last) => add_statement_deeds(numbers, deeds, scope, last),
    }
}

// Adds those of a `when`, so that what follows makes those of the whole.
#[cycle(statement_deeds)]
fn add_when_deeds(
    numbers: Numbers<'_>,
    deeds: &mut List<NumberedDeed>,
    scope: &BodyScope<'_>,
    when: &When,
) -> Result<(), OutOfMemory>
    ensures { (rest : TypedWhens) → OnOk result (with_deeds (numbers_of numbers.entry) (when_deeds (scope_of scope.now) rest) deeds.new ≡ with_deeds (numbers_of numbers.entry) (when_deeds (scope_of scope.now) (when_tree when.now rest)) deeds.old) }
{
    add_expressions_deeds(numbers, deeds, scope, when.tests.as_slice())?;
    add_statement_deeds(numbers, deeds, scope, &when.then)
}

// Adds those of the `when` parts of a `select`, so that what follows makes those of the whole.
#[cycle(statement_deeds)]
fn add_whens_deeds(
    numbers: Numbers<'_>,
    deeds: &mut List<NumberedDeed>,
    scope: &BodyScope<'_>,
    whens: &[When],
) -> Result<(), OutOfMemory>
    ensures { (rest : TypedWhens) → OnOk result (with_deeds (numbers_of numbers.entry) (when_deeds (scope_of scope.now) rest) deeds.new ≡ with_deeds (numbers_of numbers.entry) (when_deeds (scope_of scope.now) (in_a_row (map when_tree whens.now) rest)) deeds.old) }
{
    'whens: for when in whens {
        add_when_deeds(numbers, deeds, scope, when)?;
    }
    Ok(())
}

/// Adds those of statements in order.
#[cycle(statement_deeds)]
pub fn add_body_deeds(
    numbers: Numbers<'_>,
    deeds: &mut List<NumberedDeed>,
    scope: &BodyScope<'_>,
    body: &[Statement],
) -> Result<(), OutOfMemory>
    ensures { OnOk result (deeds.new ≡ with_deeds (numbers_of numbers.entry) (body_deeds (scope_of scope.now) (all_statements (map typed_statement body.now))) deeds.old) }
{
    'body: for s in body {
        add_statement_deeds(numbers, deeds, scope, s)?;
    }
    Ok(())
}

// Adds those of a statement.
#[cycle(statement_deeds)]
fn add_statement_deeds(
    numbers: Numbers<'_>,
    deeds: &mut List<NumberedDeed>,
    scope: &BodyScope<'_>,
    s: &Statement,
) -> Result<(), OutOfMemory>
    ensures { OnOk result (deeds.new ≡ with_deeds (numbers_of numbers.entry) (deeds_of_statement (scope_of scope.now) (typed_statement s.now)) deeds.old) }
{
    match s {
        Statement::Empty { place: _ } => Ok(()),
        Statement::Assign {
            place: _,
            variable,
            value,
        } => {
            add_expression_deeds(numbers, deeds, scope, value)?;
            add_set(numbers, deeds, scope.home, variable)
        }
        Statement::Invoke { place: _, call } => add_call_deeds(numbers, deeds, scope, call),
        Statement::Evaluate { place: _, value } => {
            add_expression_deeds(numbers, deeds, scope, value)
        }
        Statement::SetParameters {
            place: _,
            instance,
            values,
        } => add_parameters_deeds(numbers, deeds, scope, instance, values.as_slice()),
        Statement::Leave { place: _ } => Ok(()),
        Statement::Continue { place: _ } => Ok(()),
        Statement::Return { place: _ } => Ok(()),
        Statement::ReturnValue { place: _, value } => {
            add_expression_deeds(numbers, deeds, scope, value)
        }
        Statement::Output { place, outputs } => {
            add_write(deeds, *place)?;
            add_outputs(numbers, deeds, scope, outputs.as_slice())
        }
        Statement::Put { place, items } => {
            add_write(deeds, *place)?;
            add_items_deeds(numbers, deeds, scope, items.as_slice())
        }
        Statement::If {
            place: _,
            condition,
            then,
            others,
            otherwise,
        } => {
            add_expression_deeds(numbers, deeds, scope, condition)?;
            add_statement_deeds(numbers, deeds, scope, then)?;
            add_arms_deeds(numbers, deeds, scope, others.as_slice())?;
            add_last_deeds(numbers, deeds, scope, otherwise)
        }
        Statement::Select {
            place: _,
            whens,
            otherwise,
        } => {
            add_whens_deeds(numbers, deeds, scope, whens.as_slice())?;
            add_last_deeds(numbers, deeds, scope, otherwise)
        }
        Statement::SelectValue {
            place: _,
            value,
            whens,
            otherwise,
        } => {
            add_expression_deeds(numbers, deeds, scope, value)?;
            add_whens_deeds(numbers, deeds, scope, whens.as_slice())?;
            add_last_deeds(numbers, deeds, scope, otherwise)
        }
        Statement::Block { place: _, body } => {
            add_body_deeds(numbers, deeds, scope, body.as_slice())
        }
        Statement::Count {
            place: _,
            variable,
            start,
            end,
            step,
            body,
        } => {
            add_expression_deeds(numbers, deeds, scope, start)?;
            add_expression_deeds(numbers, deeds, scope, end)?;
            add_step_deeds(numbers, deeds, scope, step)?;
            add_set(numbers, deeds, scope.home, variable)?;
            add_body_deeds(numbers, deeds, scope, body.as_slice())
        }
        Statement::While {
            place: _,
            condition,
            body,
        } => {
            add_expression_deeds(numbers, deeds, scope, condition)?;
            add_body_deeds(numbers, deeds, scope, body.as_slice())
        }
        Statement::Until {
            place: _,
            condition,
            body,
        } => {
            add_expression_deeds(numbers, deeds, scope, condition)?;
            add_body_deeds(numbers, deeds, scope, body.as_slice())
        }
    }
}
