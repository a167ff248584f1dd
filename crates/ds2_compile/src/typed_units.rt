//! What a unit of a source becomes behind others.
ghost use Rattle.std.specs.Prelude.{◌≡◌, OnOk};
ghost use Rattle.ds2_tree.specs.Units.{APackage, AThread, AData};
ghost use Rattle.ds2_tree.specs.UnitViews.{data_tree, package_tree, thread_tree};
ghost use Rattle.ds2_names.specs.SourceLimits.{BeforeUnit, behind_part};
ghost use Rattle.ds2_names.specs.SourceUnit.{columns_stored, unit_of_data, unit_of_package, unit_of_thread};
ghost use Rattle.ds2_elaboration.specs.Elaboration.{unit_refusal};
ghost use Rattle.ds2_elaboration.specs.UnitsBefore.{UnitsBefore as UnitTypes};
ghost use Rattle.ds2_declared_types.specs.TypesKnown.{TellsTypes};
ghost use Rattle.ds2_program_types.specs.TypedPrograms.{IsTypedData, IsTypedPackage, IsTypedThread};
ghost use Rattle.ds2_resolve.specs.StandingBefore.{TellsOfUnits};
ghost use Rattle.ds2_compile.specs.SourceOutcomes.{IsOutcomeOfUnit};

use crate::refusals::{of_names, of_types};
use ds2_base::Stop;
use ds2_declared_types::KnownTypes;
use ds2_meaning::{MentionedTable, TypedData, TypedPackage, TypedThread};
use ds2_names::NamedSchema;
use ds2_program_types::at_hand::unit_names;
use ds2_program_types::check::{check, check_package, check_thread};
use ds2_resolve::{UnitsBefore, resolve, resolve_package, resolve_thread};
use ds2_scope::{unit_of_data, unit_of_package, unit_of_thread};
use ds2_source::SourceRefusal;
use ds2_tree::{DataProgram, Package, Thread};
use std::alloc::Global;

/// What a data program becomes behind units with these types, which make these tables. Its names stand among those before then.
pub(crate) fn typed_program(
    alloc: Global,
    before: &mut UnitsBefore,
    known: &KnownTypes<'_>,
    made: &[MentionedTable],
    tables: &[NamedSchema],
    program: &DataProgram,
) -> Result<TypedData, Stop<SourceRefusal>>
    ensures typed { (units : UnitTypes) → TellsOfUnits before.old units.names → TellsTypes known.now units → made.now ≡ units.names.made
        → IsOutcomeOfUnit (unit_refusal (columns_stored tables.now) units (unit_of_data (data_tree program.now))) (IsTypedData (columns_stored tables.now) units (unit_of_data (data_tree program.now))) result }
    ensures behind { OnOk result ((units : BeforeUnit) → TellsOfUnits before.old units → TellsOfUnits before.new (behind_part (columns_stored tables.now) (AData (data_tree program.now)) units)) }
{
    let names = unit_names(alloc, tables, &before.known, unit_of_data(program))?;
    match resolve(alloc, tables, before, program)? {
        Some(refusal) => Err(Stop::Refused(of_names(refusal))),
        None => match check(alloc, tables, made, &names, known, program)? {
            Ok(typed) => Ok(typed),
            Err(refusal) => Err(Stop::Refused(of_types(refusal))),
        },
    }
}

/// What a package becomes, likewise.
pub(crate) fn typed_package(
    alloc: Global,
    before: &mut UnitsBefore,
    known: &KnownTypes<'_>,
    made: &[MentionedTable],
    tables: &[NamedSchema],
    unit: &Package,
) -> Result<TypedPackage, Stop<SourceRefusal>>
    ensures typed { (units : UnitTypes) → TellsOfUnits before.old units.names → TellsTypes known.now units → made.now ≡ units.names.made
        → IsOutcomeOfUnit (unit_refusal (columns_stored tables.now) units (unit_of_package (package_tree unit.now))) (IsTypedPackage (columns_stored tables.now) units unit.now) result }
    ensures behind { OnOk result ((units : BeforeUnit) → TellsOfUnits before.old units → TellsOfUnits before.new (behind_part (columns_stored tables.now) (APackage (package_tree unit.now)) units)) }
{
    let names = unit_names(alloc, tables, &before.known, unit_of_package(unit))?;
    match resolve_package(alloc, tables, before, unit)? {
        Some(refusal) => Err(Stop::Refused(of_names(refusal))),
        None => match check_package(alloc, tables, made, &names, known, unit)? {
            Ok(typed) => Ok(typed),
            Err(refusal) => Err(Stop::Refused(of_types(refusal))),
        },
    }
}

/// What a thread program becomes, likewise.
pub(crate) fn typed_thread(
    alloc: Global,
    before: &mut UnitsBefore,
    known: &KnownTypes<'_>,
    made: &[MentionedTable],
    tables: &[NamedSchema],
    unit: &Thread,
) -> Result<TypedThread, Stop<SourceRefusal>>
    ensures typed { (units : UnitTypes) → TellsOfUnits before.old units.names → TellsTypes known.now units → made.now ≡ units.names.made
        → IsOutcomeOfUnit (unit_refusal (columns_stored tables.now) units (unit_of_thread (thread_tree unit.now))) (IsTypedThread (columns_stored tables.now) units (unit_of_thread (thread_tree unit.now))) result }
    ensures behind { OnOk result ((units : BeforeUnit) → TellsOfUnits before.old units → TellsOfUnits before.new (behind_part (columns_stored tables.now) (AThread (thread_tree unit.now)) units)) }
{
    let names = unit_names(alloc, tables, &before.known, unit_of_thread(unit))?;
    match resolve_thread(alloc, tables, before, unit)? {
        Some(refusal) => Err(Stop::Refused(of_names(refusal))),
        None => match check_thread(alloc, tables, made, &names, known, unit)? {
            Ok(typed) => Ok(typed),
            Err(refusal) => Err(Stop::Refused(of_types(refusal))),
        },
    }
}
