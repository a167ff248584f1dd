//! Functions by their names.
ghost use Rattle.std.specs.Prelude.{List as Items, Some};
ghost use Rattle.ds2_elaboration.specs.FunctionTypes.{ElaboratedArgument, form_of_many, form_of_function, form_of_row, elaborated_function, elaborated_null_call};
ghost use Rattle.ds2_expression_types.specs.Arguments.{AreJudged};
ghost use Rattle.ds2_names.specs.declared.functions.NamedFunction.TheVariants as named;
ghost use Rattle.ds2_types.specs.Judgements.{Judges};

use crate::argument_counts::{headed, single, two};
use ds2_base::{List, OutOfMemory, Place};
use ds2_expression_types::choices::{coalesce, extreme, substring};
use ds2_meaning::Function;
use ds2_names::{
    ByType, FunctionOfMany, FunctionRow, NamedFunction, function_named, null_test, takes_so_many,
};
use ds2_reference_types::names::{nameless, spelled_name};
use ds2_token::Token;
use ds2_types::functions::{of_one, remainder};
use ds2_types::judgement::Judgement;
use std::alloc::Global;

/// A function of one value, whose argument is alone.
fn of_single(
    alloc: Global,
    by_type: ByType,
    name: Place,
    arguments: List<Judgement>,
) -> Result<Judgement, OutOfMemory>
    ensures { (xs : Items ElaboratedArgument) → AreJudged xs arguments → Judges (form_of_function (named.OfOne by_type) name xs) result }
{
    match single(arguments) {
        None => Ok(nameless(name)),
        Some(x) => of_one(alloc, by_type, name, x),
    }
}

/// A function of several values in one type.
fn of_many(
    alloc: Global,
    function: FunctionOfMany,
    name: Place,
    arguments: List<Judgement>,
) -> Result<Judgement, OutOfMemory>
    ensures { (xs : Items ElaboratedArgument) → AreJudged xs arguments → Judges (form_of_many function name xs) result }
{
    match function {
        FunctionOfMany::Coalesce => coalesce(alloc, name, arguments),
        FunctionOfMany::Greatest => extreme(alloc, Function::Greatest, name, arguments),
        FunctionOfMany::Least => extreme(alloc, Function::Least, name, arguments),
    }
}

/// `mod` of two numbers.
fn remainder_of(
    alloc: Global,
    name: Place,
    arguments: List<Judgement>,
) -> Result<Judgement, OutOfMemory>
    ensures { (xs : Items ElaboratedArgument) → AreJudged xs arguments → Judges (form_of_function named.Remainder name xs) result }
{
    match two(arguments) {
        None => Ok(nameless(name)),
        Some(arguments) => remainder(alloc, name, arguments.first, arguments.second),
    }
}

/// `substr` of a text and numbers.
fn substring_of(
    alloc: Global,
    name: Place,
    arguments: List<Judgement>,
) -> Result<Judgement, OutOfMemory>
    ensures { (xs : Items ElaboratedArgument) → AreJudged xs arguments → Judges (form_of_function named.Substring name xs) result }
{
    match headed(arguments) {
        None => Ok(nameless(name)),
        Some(arguments) => substring(alloc, name, arguments.first, arguments.others),
    }
}

/// A function of as many arguments as it takes.
fn form(
    alloc: Global,
    function: NamedFunction,
    name: Place,
    arguments: List<Judgement>,
) -> Result<Judgement, OutOfMemory>
    ensures { (xs : Items ElaboratedArgument) → AreJudged xs arguments → Judges (form_of_function function name xs) result }
{
    match function {
        NamedFunction::OfOne(by_type) => of_single(alloc, by_type, name, arguments),
        NamedFunction::OfMany(many) => of_many(alloc, many, name, arguments),
        NamedFunction::Remainder => remainder_of(alloc, name, arguments),
        NamedFunction::Substring => substring_of(alloc, name, arguments),
    }
}

/// A function, where it takes as many arguments.
fn counted(
    alloc: Global,
    row: FunctionRow,
    name: Place,
    arguments: List<Judgement>,
) -> Result<Judgement, OutOfMemory>
    ensures { (xs : Items ElaboratedArgument) → AreJudged xs arguments → Judges (form_of_row (Some row) name xs) result }
{
    if takes_so_many(row.counts, arguments.len()) {
        form(alloc, row.function, name, arguments)
    } else {
        Ok(nameless(name))
    }
}

/// A function by its name.
pub fn function(
    alloc: Global,
    name: &Token,
    arguments: List<Judgement>,
) -> Result<Judgement, OutOfMemory>
    ensures { (xs : Items ElaboratedArgument) → AreJudged xs arguments → Judges (elaborated_function name.now xs) result }
{
    let word = spelled_name(alloc, name)?;
    match function_named(word.as_slice()) {
        None => Ok(nameless(name.place)),
        Some(row) => counted(alloc, row, name.place, arguments),
    }
}

/// The word `null`, as a function.
pub fn null_call(
    alloc: Global,
    word: Place,
    arguments: List<Judgement>,
) -> Result<Judgement, OutOfMemory>
    ensures { (xs : Items ElaboratedArgument) → AreJudged xs arguments → Judges (elaborated_null_call word xs) result }
{
    of_single(alloc, null_test(), word, arguments)
}
