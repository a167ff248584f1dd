//! The tokens of reading statements.
ghost use Rattle.std.specs.Prelude.{◌≡◌, ◌++◌, OnOk};
ghost use Rattle.ds2_tree.specs.Lists.{if_any, all_spelled};
ghost use Rattle.ds2_tree.specs.Readings.{input_flag_spelling, input_spelling, by_variable_spelling, by_spelling, threads_spelling, merge_retain_spelling, reading_spelling};

use crate::tokens::{Added, push_if_any, push_mark, push_token};
use ds2_base::List;
use ds2_token::Token;
use ds2_tree::{By, ByVariable, Input, InputFlag, MergeRetain, Reading, Threads};
use std::alloc::Global;

// Adds the tokens of the flag of an input, where it has one.
fn spell_input_flag(alloc: Global, out: &mut List<Token>, flag: &Option<InputFlag>) -> Added
    ensures { OnOk result (out.new ≡ out.old ++ if_any input_flag_spelling flag.now) }
{
    match flag {
        None => Ok(()),
        Some(flag) => {
            push_mark(alloc, out, "(", flag.opening)?;
            push_token(alloc, out, &flag.keyword)?;
            push_mark(alloc, out, "=", flag.equals)?;
            push_token(alloc, out, &flag.name)?;
            push_mark(alloc, out, ")", flag.closing)
        }
    }
}

// Adds the tokens of an input.
fn spell_input(alloc: Global, out: &mut List<Token>, input: &Input) -> Added
    ensures { OnOk result (out.new ≡ out.old ++ input_spelling input.now) }
{
    push_token(alloc, out, &input.table)?;
    spell_input_flag(alloc, out, &input.flag)
}

// Adds the tokens of inputs.
fn spell_inputs(alloc: Global, out: &mut List<Token>, inputs: &[Input]) -> Added
    ensures { OnOk result (out.new ≡ out.old ++ all_spelled input_spelling inputs.now) }
{
    for input in inputs {
        spell_input(alloc, out, input)?;
    }
    Ok(())
}

// Adds the tokens of a BY variable.
fn spell_by_variable(alloc: Global, out: &mut List<Token>, variable: &ByVariable) -> Added
    ensures { OnOk result (out.new ≡ out.old ++ by_variable_spelling variable.now) }
{
    push_if_any(alloc, out, &variable.descending)?;
    push_token(alloc, out, &variable.name)
}

// Adds the tokens of BY variables.
fn spell_by_variables(alloc: Global, out: &mut List<Token>, variables: &[ByVariable]) -> Added
    ensures { OnOk result (out.new ≡ out.old ++ all_spelled by_variable_spelling variables.now) }
{
    for variable in variables {
        spell_by_variable(alloc, out, variable)?;
    }
    Ok(())
}

// Adds the tokens of `by`.
fn spell_by(alloc: Global, out: &mut List<Token>, by: &By) -> Added
    ensures { OnOk result (out.new ≡ out.old ++ by_spelling by.now) }
{
    push_token(alloc, out, &by.keyword)?;
    spell_by_variables(alloc, out, by.variables.as_slice())?;
    push_mark(alloc, out, ";", by.end)
}

// Adds the tokens of `by`, where it is there.
fn spell_by_if_any(alloc: Global, out: &mut List<Token>, by: &Option<By>) -> Added
    ensures { OnOk result (out.new ≡ out.old ++ if_any by_spelling by.now) }
{
    match by {
        None => Ok(()),
        Some(by) => spell_by(alloc, out, by),
    }
}

// Adds the tokens of the number of threads, where it is there.
fn spell_threads(alloc: Global, out: &mut List<Token>, threads: &Option<Threads>) -> Added
    ensures { OnOk result (out.new ≡ out.old ++ if_any threads_spelling threads.now) }
{
    match threads {
        None => Ok(()),
        Some(threads) => {
            push_token(alloc, out, &threads.keyword)?;
            push_mark(alloc, out, "=", threads.equals)?;
            push_token(alloc, out, &threads.number)
        }
    }
}

// Adds the tokens of `/ retain`, where it is there.
fn spell_merge_retain(alloc: Global, out: &mut List<Token>, retain: &Option<MergeRetain>) -> Added
    ensures { OnOk result (out.new ≡ out.old ++ if_any merge_retain_spelling retain.now) }
{
    match retain {
        None => Ok(()),
        Some(retain) => {
            push_mark(alloc, out, "/", retain.slash)?;
            push_token(alloc, out, &retain.keyword)
        }
    }
}

// Adds the tokens of a reading statement.
pub fn spell_reading(alloc: Global, out: &mut List<Token>, reading: &Reading) -> Added
    ensures { OnOk result (out.new ≡ out.old ++ reading_spelling reading.now) }
{
    match reading {
        Reading::Set {
            keyword,
            inputs,
            end,
            by,
        } => {
            push_token(alloc, out, keyword)?;
            spell_inputs(alloc, out, inputs.as_slice())?;
            push_mark(alloc, out, ";", *end)?;
            spell_by_if_any(alloc, out, by)
        }
        Reading::SetFrom {
            keyword,
            from_keyword,
            instance,
            threads,
            end,
        } => {
            push_token(alloc, out, keyword)?;
            push_token(alloc, out, from_keyword)?;
            push_token(alloc, out, instance)?;
            spell_threads(alloc, out, threads)?;
            push_mark(alloc, out, ";", *end)
        }
        Reading::Merge {
            keyword,
            inputs,
            retain,
            end,
            by,
        } => {
            push_token(alloc, out, keyword)?;
            spell_inputs(alloc, out, inputs.as_slice())?;
            spell_merge_retain(alloc, out, retain)?;
            push_mark(alloc, out, ";", *end)?;
            spell_by(alloc, out, by)
        }
    }
}
