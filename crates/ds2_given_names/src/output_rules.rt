//! What the outputs of a unit break: two columns of one name, and an output, or a thread program, without a column.
ghost use Rattle.std.specs.Prelude.{◌≡◌, ◌||◌, [], IfOk, not, nat_eq, length, option_copied};
ghost use Rattle.ds2_names.specs.NameRules.{from_each, place_unless, options_of};
ghost use Rattle.ds2_names.specs.SourceUnit.{SourceNames};
ghost use Rattle.ds2_names.specs.UnitRules.{without_columns, thread_name_place};
ghost use Rattle.ds2_tree.specs.declared.units.OutputTable as source_output;
ghost use Rattle.ds2_scope.specs.CodeUnits.{unit_source};
ghost use Rattle.ds2_given_names.specs.OutputParts.{AreStatementLists, is_null_output};
ghost use Rattle.ds2_scope.specs.Earliest.{earliest};
ghost use Rattle.ds2_given_names.specs.OutputRules.{name_place, earlier_of_both, BreaksRealOutput, BreaksOutput, BreaksOutputs};
ghost use Rattle.ds2_scope.specs.UnitNames.{NamesAre};

use crate::listed::option_lists;
use crate::lists::KeepDrop;
use crate::output_columns::{columns_by, earliest_clash};
use crate::renamed::new_names;
use ds2_base::{OutOfMemory, Place};
use ds2_names::OutputName;
use ds2_scope::{Unit, UnitKind, UnitNames, earlier_of, place_unless, spelled_name};
use ds2_token::Token;
use ds2_tree::{OutputOption, OutputOptions, OutputTable};
use std::alloc::Global;

/// The earliest places at which outputs break the rules on their columns, None where they do not.
#[derive(Clone, Copy)]
pub(crate) struct BrokenOutputs {
    /// The later one of two columns of one name.
    pub clash: Option<Place>,
    /// An output without a column.
    pub empty: Option<Place>,
}

// The options of an output.
fn options_of(options: &Option<OutputOptions>) -> &[OutputOption]
    ensures { result.now ≡ options_of options.now }
{
    match options {
        None => &[],
        Some(options) => options.list.as_slice(),
    }
}

// The place of an output without columns, where the columns are known.
fn unless_empty(is_open: bool, columns: &[OutputName], place: Place) -> Option<Place>
    ensures { result ≡ earliest (place_unless (is_open || not (nat_eq (length columns.now) 0)) place) }
{
    place_unless(is_open || !columns.is_empty(), place)
}

// Whether an output is `_null_`.
fn is_null_output(alloc: Global, o: &OutputTable) -> Result<bool, OutOfMemory>
    ensures { IfOk result (λ is_null. is_null ≡ is_null_output o.now) }
{
    let name = spelled_name(alloc, &o.table)?;
    Ok(name.as_slice() == b"_null_".as_slice())
}

// What an output with these options at this place breaks that is not `_null_`.
fn in_real_output(
    alloc: Global,
    names: &UnitNames,
    statements: &KeepDrop,
    options: &[OutputOption],
    place: Place,
) -> Result<BrokenOutputs, OutOfMemory>
    ensures { IfOk result (λ b. (all : SourceNames) (o : source_output.OutputTable) → NamesAre names.now all → AreStatementLists statements.now all.unit.globals → options.now ≡ options_of o.options → place ≡ o.table.place → BreaksRealOutput all o b) }
{
    let lists = option_lists(alloc, options)?;
    let news = new_names(alloc, options)?;
    let columns = columns_by(alloc, statements, &lists, &news, names.variables.as_slice())?;
    let clash = earliest_clash(alloc, columns.as_slice())?;
    let empty = unless_empty(names.is_open, columns.as_slice(), place);
    Ok(BrokenOutputs { clash, empty })
}

// What an output breaks.
fn in_output(
    alloc: Global,
    names: &UnitNames,
    statements: &KeepDrop,
    o: &OutputTable,
) -> Result<BrokenOutputs, OutOfMemory>
    ensures { IfOk result (λ b. (all : SourceNames) → NamesAre names.now all → AreStatementLists statements.now all.unit.globals → BreaksOutput all o.now b) }
{
    if is_null_output(alloc, o)? {
        Ok(BrokenOutputs {
            clash: None,
            empty: None,
        })
    } else {
        in_real_output(
            alloc,
            names,
            statements,
            options_of(&o.options),
            o.table.place,
        )
    }
}

// The earlier places of two.
fn earlier_of_both(a: BrokenOutputs, b: BrokenOutputs) -> BrokenOutputs
    ensures { result ≡ earlier_of_both a b }
{
    BrokenOutputs {
        clash: earlier_of(a.clash, b.clash),
        empty: earlier_of(a.empty, b.empty),
    }
}

/// What outputs break.
pub(crate) fn in_outputs(
    alloc: Global,
    names: &UnitNames,
    statements: &KeepDrop,
    outputs: &[OutputTable],
) -> Result<BrokenOutputs, OutOfMemory>
    ensures { IfOk result (λ b. (all : SourceNames) → NamesAre names.now all → AreStatementLists statements.now all.unit.globals → BreaksOutputs all outputs.now b) }
{
    let mut found = BrokenOutputs {
        clash: None,
        empty: None,
    };
    'outputs: for o in outputs {
        found = earlier_of_both(found, in_output(alloc, names, statements, o)?);
    }
    Ok(found)
}

// The place of the name of a thread program without a column.
fn thread_without_columns(
    alloc: Global,
    names: &UnitNames,
    statements: &KeepDrop,
    name: Option<&Token>,
) -> Result<Option<Place>, OutOfMemory>
    ensures { IfOk result (λ place. (all : SourceNames) → NamesAre names.now all → AreStatementLists statements.now all.unit.globals → place ≡ earliest (from_each (without_columns all []) (name_place (option_copied name.entry)))) }
{
    match name {
        None => Ok(None),
        Some(name) => {
            let broken = in_real_output(alloc, names, statements, &[], name.place)?;
            Ok(broken.empty)
        }
    }
}

/// The place of the name of a unit that is a thread program without a column.
pub(crate) fn in_thread(
    alloc: Global,
    names: &UnitNames,
    statements: &KeepDrop,
    unit: Unit<'_>,
) -> Result<Option<Place>, OutOfMemory>
    ensures { IfOk result (λ place. (all : SourceNames) → NamesAre names.now all → AreStatementLists statements.now all.unit.globals → all.unit ≡ unit_source unit.entry → place ≡ earliest (from_each (without_columns all []) (thread_name_place all))) }
{
    match unit.kind {
        UnitKind::Package => Ok(None),
        UnitKind::Thread => {
            let place = thread_without_columns(alloc, names, statements, unit.name)?;
            Ok(place)
        }
        UnitKind::Data => Ok(None),
    }
}
