//! The words of the five commands.
ghost use Rattle.std.specs.Prelude.{◌≡◌, ◌≤◌, IfOk, IfSome, unwrap_or};
ghost use Rattle.ds2_answer.specs.declared.words.TheConstants.{DEFAULT_BUDGET, MOST_BUDGET};
ghost use Rattle.ds2_answer.specs.CommandLines.{HasRowsWithin, IsBudgetWithin, budget_on_line, command_line_of, demo_command, file_command, exec_with_options, is_object_name, no_options, object_command, options_behind, run_with_options, source_command, with_option};

use crate::MOST_SALES;
use crate::words::{DEFAULT_BUDGET, MOST_BUDGET, is_file_name, is_source, number_within};
use ds2_base::{OutOfMemory, Text};
use std::alloc::Global;

/// The most workers that a line may ask for.
pub const MOST_THREADS: u64 = 64;

/// What a line of words asks for. Each but `demo` names its file; a budget is the number of steps that each call of a system method may take.
/// A new one touches the files that docs/ARCHITECTURE.md lists under 'To add a command'.
#[derive(Drop)]
pub enum CommandLine {
    /// `run SOURCE [--threads N] [--budget N]`: compiles the source, stores its object and runs its programs.
    Run {
        source: Text,
        /// How many workers run a stage, where the line says so.
        threads: Option<u32>,
        budget: u64,
    },
    /// `compile SOURCE`: compiles the source and stores its object.
    Compile {
        source: Text,
    },
    /// `exec OBJECT [--budget N]`: runs the programs of an object.
    Exec {
        object: Text,
        budget: u64,
    },
    /// `check SOURCE`: tells whether the source is refused, and which of its thread programs are local.
    Check {
        source: Text,
    },
    /// `demo N`: runs a job of its own over N rows, 1 to [`MOST_SALES`], in files of its own.
    Demo {
        n: u32,
    },
}

/// The options of a line, each where it is given.
#[derive(Clone, Copy, PartialEq, Eq)]
pub struct GivenOptions {
    pub threads: Option<u32>,
    pub budget: Option<u64>,
}

fn is_object_name(word: &str) -> bool
    ensures { result ≡ is_object_name word.now }
{
    is_file_name(word) && word.as_bytes().ends_with(b".dso")
}

// An option and its number, behind others among which it is not.
fn with_option(given: GivenOptions, option: &str, number: &str) -> Option<GivenOptions>
    requires { IsBudgetWithin given }
    ensures options { result ≡ with_option given option.now number.now }
    ensures within { IfSome result IsBudgetWithin }
{
    if option == "--threads" && given.threads.is_none() {
        match number_within(number, MOST_THREADS) {
            None => None,
            Some(threads) => Some(GivenOptions {
                threads: Some(threads as u32),
                budget: given.budget,
            }),
        }
    } else if option == "--budget" && given.budget.is_none() {
        match number_within(number, MOST_BUDGET) {
            None => None,
            Some(budget) => Some(GivenOptions {
                threads: given.threads,
                budget: Some(budget),
            }),
        }
    } else {
        None
    }
}

// The options that words give; None where they are none.
fn options_of(words: &[Text]) -> Option<GivenOptions>
    ensures options { result ≡ options_behind no_options words.now }
    ensures within { IfSome result IsBudgetWithin }
{
    let mut given = GivenOptions {
        threads: None,
        budget: None,
    };
    let mut rest = words;
    'options: while let [option, number, after @ ..] = rest {
        match with_option(given, option.as_str(), number.as_str()) {
            None => return None,
            Some(more) => given = more,
        }
        rest = after;
    }
    if rest.is_empty() { Some(given) } else { None }
}

// The budget of options, or that of a line without `--budget`.
fn budget_of(given: GivenOptions) -> u64
    requires { IsBudgetWithin given }
    ensures budget { result ≡ unwrap_or given.budget DEFAULT_BUDGET }
    ensures within { result ≤ MOST_BUDGET }
{
    match given.budget {
        None => DEFAULT_BUDGET,
        Some(budget) => budget,
    }
}

// `run` with these options.
fn run_with_options(
    alloc: Global,
    source: &Text,
    options: &[Text],
) -> Result<Option<CommandLine>, OutOfMemory>
    ensures command { IfOk result (λ command. command ≡ run_with_options source.now (options_behind no_options options.now)) }
    ensures within { IfOk result (λ command. IfSome command (λ line. budget_on_line line ≤ MOST_BUDGET)) }
    ensures rows { IfOk result (λ command. IfSome command HasRowsWithin) }
{
    match options_of(options) {
        None => Ok(None),
        Some(given) => Ok(Some(CommandLine::Run {
            source: source.copy(alloc)?,
            threads: given.threads,
            budget: budget_of(given),
        })),
    }
}

// `exec` with these options, none of which is a number of workers.
fn exec_with_options(
    alloc: Global,
    object: &Text,
    options: &[Text],
) -> Result<Option<CommandLine>, OutOfMemory>
    ensures command { IfOk result (λ command. command ≡ exec_with_options object.now (options_behind no_options options.now)) }
    ensures within { IfOk result (λ command. IfSome command (λ line. budget_on_line line ≤ MOST_BUDGET)) }
    ensures rows { IfOk result (λ command. IfSome command HasRowsWithin) }
{
    match options_of(options) {
        None => Ok(None),
        Some(given) => {
            if given.threads.is_some() {
                return Ok(None);
            }
            Ok(Some(CommandLine::Exec {
                object: object.copy(alloc)?,
                budget: budget_of(given),
            }))
        }
    }
}

// The command of a source with these options.
fn source_command(
    alloc: Global,
    word: &str,
    source: &Text,
    options: &[Text],
) -> Result<Option<CommandLine>, OutOfMemory>
    ensures command { IfOk result (λ command. command ≡ source_command word.now source.now options.now) }
    ensures within { IfOk result (λ command. IfSome command (λ line. budget_on_line line ≤ MOST_BUDGET)) }
    ensures rows { IfOk result (λ command. IfSome command HasRowsWithin) }
{
    if word == "run" {
        run_with_options(alloc, source, options)
    } else if word == "compile" && options.is_empty() {
        let source = source.copy(alloc)?;
        Ok(Some(CommandLine::Compile { source }))
    } else if word == "check" && options.is_empty() {
        let source = source.copy(alloc)?;
        Ok(Some(CommandLine::Check { source }))
    } else {
        Ok(None)
    }
}

// The command of an object with these options.
fn object_command(
    alloc: Global,
    word: &str,
    object: &Text,
    options: &[Text],
) -> Result<Option<CommandLine>, OutOfMemory>
    ensures command { IfOk result (λ command. command ≡ object_command word.now object.now options.now) }
    ensures within { IfOk result (λ command. IfSome command (λ line. budget_on_line line ≤ MOST_BUDGET)) }
    ensures rows { IfOk result (λ command. IfSome command HasRowsWithin) }
{
    if word == "exec" {
        exec_with_options(alloc, object, options)
    } else {
        Ok(None)
    }
}

// The command of a file with these options.
fn file_command(
    alloc: Global,
    word: &str,
    file: &Text,
    options: &[Text],
) -> Result<Option<CommandLine>, OutOfMemory>
    ensures command { IfOk result (λ command. command ≡ file_command word.now file.now options.now) }
    ensures within { IfOk result (λ command. IfSome command (λ line. budget_on_line line ≤ MOST_BUDGET)) }
    ensures rows { IfOk result (λ command. IfSome command HasRowsWithin) }
{
    if is_source(file.as_str()) {
        source_command(alloc, word, file, options)
    } else if is_object_name(file.as_str()) {
        object_command(alloc, word, file, options)
    } else {
        Ok(None)
    }
}

// `demo` with its number of rows, behind which no word stands.
fn demo_command(number: &Text, more: &[Text]) -> Option<CommandLine>
    ensures command { result ≡ demo_command number.now more.now }
    ensures within { IfSome result (λ line. budget_on_line line ≤ MOST_BUDGET) }
    ensures rows { IfSome result HasRowsWithin }
{
    match more {
        [_, ..] => None,
        [] => match number_within(number.as_str(), MOST_SALES as u64) {
            None => None,
            Some(n) => Some(CommandLine::Demo { n: n as u32 }),
        },
    }
}

/// The command of a line of words, or None where it is no line. A budget is at most [`MOST_BUDGET`], and `demo` has 1 to [`MOST_SALES`]
/// rows.
pub fn read_command_line(alloc: Global, words: &[Text]) -> Result<Option<CommandLine>, OutOfMemory>
    ensures command { IfOk result (λ command. command ≡ command_line_of words.now) }
    ensures within { IfOk result (λ command. IfSome command (λ line. budget_on_line line ≤ MOST_BUDGET)) }
    ensures rows { IfOk result (λ command. IfSome command HasRowsWithin) }
{
    match words {
        [word, next, more @ ..] => {
            if word.as_str() == "demo" {
                Ok(demo_command(next, more))
            } else {
                file_command(alloc, word.as_str(), next, more)
            }
        }
        [_] => Ok(None),
        [] => Ok(None),
    }
}
