//! What a data program or a thread program becomes: its instances and methods with its other parts, and the thread program that it reads
//! from.
ghost use Rattle.std.specs.Prelude.{◌≡◌, IfOk, false, option_copied};
ghost use Rattle.std.specs.Option.{option_map};
ghost use Rattle.ds2_elaboration.specs.ProgramTypes.{broken_type_rules};
ghost use Rattle.ds2_elaboration.specs.SourceTypes.{unit_names, unit_stage};
ghost use Rattle.ds2_elaboration.specs.UnitsBefore.{UnitsBefore};
ghost use Rattle.ds2_declared_types.specs.TypesKnown.{TellsTypes};
ghost use Rattle.ds2_meaning.specs.View.{typed_thread_program};
ghost use Rattle.ds2_names.specs.SourceUnit.{columns_stored, is_package};
ghost use Rattle.ds2_program_types.specs.TypedMethodLists.{AreInstancesAndMethods};
ghost use Rattle.ds2_program_types.specs.TypedPrograms.{IsProgramOf, IsStagedProgram};
ghost use Rattle.ds2_program_types.specs.UnitsAtHand.{IsAtHand, columns_at_hand, source_at_hand};
ghost use Rattle.ds2_scope.specs.CodeUnits.{unit_source};
ghost use Rattle.ds2_scope.specs.UnitNames.{NamesAre};
ghost use Rattle.ds2_types.specs.Judgements.{IsOutcome};

use crate::at_hand::{UnitAtHand, at_hand, unit_reading};
use crate::instances::ruled_instances;
use crate::methods::{TypedMethods, typed_methods};
use crate::parts::with_parts;
use crate::unit_tables::unit_tables;
use ds2_base::{OutOfMemory, Refusal};
use ds2_declared_types::KnownTypes;
use ds2_instance_types::TypedInstances;
use ds2_meaning::{MentionedTable, Program, Shared, TypeKind, TypedData, TypedThread};
use ds2_names::NamedSchema;
use ds2_scope::{Unit, UnitNames};
use ds2_simple_statement_types::parts::{Both, of_both};
use std::alloc::Global;

/// The instances and the methods of a program, or the one of the rules of types that it breaks that is given.
fn typed_parts(
    alloc: Global,
    made: &[MentionedTable],
    known: &KnownTypes<'_>,
    unit: UnitAtHand<'_, '_>,
) -> Result<Result<Both<TypedInstances, TypedMethods>, Refusal<TypeKind>>, OutOfMemory>
    ensures { (before : UnitsBefore) → TellsTypes known.now before → before.names.made ≡ made.now → IsAtHand before unit.entry
        → IfOk result (IsOutcome (AreInstancesAndMethods (columns_at_hand unit.entry) before (source_at_hand unit.entry)) (broken_type_rules (columns_at_hand unit.entry) before (source_at_hand unit.entry))) }
{
    let scope = unit_tables(alloc, known, unit)?;
    let instances = ruled_instances(alloc, made, known, unit, &scope)?;
    let methods = typed_methods(alloc, &scope, unit.unit.globals)?;
    Ok(of_both(instances, methods))
}

/// What a program becomes, without the thread program that it reads from.
fn typed_program(
    alloc: Global,
    made: &[MentionedTable],
    known: &KnownTypes<'_>,
    unit: UnitAtHand<'_, '_>,
) -> Result<Result<Program, Refusal<TypeKind>>, OutOfMemory>
    ensures { (before : UnitsBefore) → TellsTypes known.now before → before.names.made ≡ made.now → IsAtHand before unit.entry → is_package (source_at_hand unit.entry).kind ≡ false
        → IfOk result (IsOutcome (IsProgramOf (columns_at_hand unit.entry) before (source_at_hand unit.entry)) (broken_type_rules (columns_at_hand unit.entry) before (source_at_hand unit.entry))) }
{
    let typed = typed_parts(alloc, made, known, unit)?;
    match typed {
        Err(refusal) => Ok(Err(refusal)),
        Ok(both) => {
            let program = with_parts(alloc, made, unit, both.first, both.second)?;
            Ok(Ok(program))
        }
    }
}

/// The thread program that is read from, with one owner more.
fn shared_stage(
    stage: Option<&Shared<TypedThread>>,
) -> Result<Option<Shared<TypedThread>>, OutOfMemory>
    ensures { IfOk result (λ own. own ≡ option_copied stage.entry) }
{
    match stage {
        None => Ok(None),
        Some(stage) => {
            let own = stage.share()?;
            Ok(Some(own))
        }
    }
}

/// What a program becomes with this thread program, which it reads from.
fn with_stage(
    alloc: Global,
    made: &[MentionedTable],
    known: &KnownTypes<'_>,
    unit: UnitAtHand<'_, '_>,
    stage: Option<&Shared<TypedThread>>,
) -> Result<Result<TypedData, Refusal<TypeKind>>, OutOfMemory>
    ensures { (before : UnitsBefore) → TellsTypes known.now before → before.names.made ≡ made.now → IsAtHand before unit.entry → is_package (source_at_hand unit.entry).kind ≡ false
        → option_map typed_thread_program (option_copied stage.entry) ≡ unit_stage (columns_at_hand unit.entry) before (source_at_hand unit.entry)
        → IfOk result (IsOutcome (IsStagedProgram (columns_at_hand unit.entry) before (source_at_hand unit.entry)) (broken_type_rules (columns_at_hand unit.entry) before (source_at_hand unit.entry))) }
{
    let typed = typed_program(alloc, made, known, unit)?;
    match typed {
        Err(refusal) => Ok(Err(refusal)),
        Ok(program) => {
            let stage = shared_stage(stage)?;
            Ok(Ok(TypedData { program, stage }))
        }
    }
}

/// What a data program or a thread program becomes with the thread program that it reads from, over the tables of the store and behind other
/// units: a typed program, or the refusal of its types.
pub fn staged_program(
    alloc: Global,
    tables: &[NamedSchema],
    made: &[MentionedTable],
    names: &UnitNames,
    known: &KnownTypes<'_>,
    unit: Unit<'_>,
) -> Result<Result<TypedData, Refusal<TypeKind>>, OutOfMemory>
    ensures { (before : UnitsBefore) → TellsTypes known.now before → before.names.made ≡ made.now → is_package (unit_source unit.entry).kind ≡ false
        → NamesAre names.now (unit_names (columns_stored tables.now) before (unit_source unit.entry))
        → IfOk result (IsOutcome (IsStagedProgram (columns_stored tables.now) before (unit_source unit.entry)) (broken_type_rules (columns_stored tables.now) before (unit_source unit.entry))) }
{
    let read = unit_reading(alloc, tables, known, unit)?;
    let hand = at_hand(tables, names, unit, &read);
    let typed = with_stage(alloc, made, known, hand, read.stage)?;
    Ok(typed)
}
