//! The walks over `run`.
ghost use Rattle.std.specs.List.{list_any, range_with_len};
ghost use Rattle.std.specs.Option.{option_or};
ghost use Rattle.std.specs.Prelude.{◌≡◌, ◌-◌, IfOk, OnOk, length, map, take, drop};
ghost use Rattle.ds2_deeds.specs.CodeTrees.{nameless_tree};
ghost use Rattle.ds2_deeds.specs.NamedLocations.{locations_named};
ghost use Rattle.ds2_locality.specs.Deeds.{columns_written};
ghost use Rattle.ds2_locality.specs.KeptLocations.{is_kept as is_kept_at};
ghost use Rattle.ds2_locality.specs.Verdict.{JudgedThread};
ghost use Rattle.ds2_locality.specs.Walk.{no_flag, read_locations, walk_all};
ghost use Rattle.ds2_meaning.specs.Method.{MethodTree};
ghost use Rattle.ds2_meaning.specs.ProgramTree.{program_has_output};
ghost use Rattle.ds2_meaning.specs.TypedStatement.{have_output};
ghost use Rattle.ds2_meaning.specs.View.{system_tree, typed_method};
ghost use Rattle.ds2_recorded_walk.specs.KnownFlags.{first_flags};
ghost use Rattle.ds2_recorded_walk.specs.LocationBits.{both_on, either_on};
ghost use Rattle.ds2_recorded_walk.specs.RecordedStatements.{GoesOnBy, GoesPastBy};
ghost use Rattle.ds2_local.specs.EffectSteps.{RunRecorded, RunTells};
ghost use Rattle.ds2_local.specs.HeldWalks.{HoldsWalks};
ghost use Rattle.ds2_local.specs.JudgedBodies.{HoldsJudged};
ghost use Rattle.ds2_local.specs.JudgedTrees.{place_of_system};
ghost use Rattle.ds2_local.specs.RunGrounds.{AreCells, find_dirty, is_flag_at, IsGroundAt, past_run_in};
ghost use Rattle.ds2_local.specs.Verdicts.{TellsCells};

use crate::effects::call_rounds;
use crate::judged::JudgedBodies;
use crate::marks::changed_bits;
use crate::reading::{bys_read, is_flag_of_bys, is_kept};
use crate::settled::call_effects;
use ds2_base::{List, OutOfMemory, Place};
use ds2_body_survey::statements_have_output;
use ds2_deeds::{LocationName, run_deeds, system_scope, with_called};
use ds2_meaning::{ByVariable, Method, Program, SystemMethod};
use ds2_recorded_walk::{
    LocationSet, RecordScope, RecordedRead, RecordedWalk, common, is_on, read_output, united,
    walk_body,
};
use std::alloc::Global;

// Which locations keep what they hold from one load to the next but for what `run` does.
fn kept_bits(
    alloc: Global,
    locations: &[LocationName<'_>],
    program: &Program,
) -> Result<List<bool>, OutOfMemory>
    ensures { IfOk result (λ bits. bits ≡ map (is_kept_at (nameless_tree program.now)) (locations_named locations.now)) }
{
    let mut bits = List::new(alloc);
    'locations: for at in locations {
        bits.push(is_kept(program, *at))?;
    }
    Ok(bits)
}

/// The cells of a program: what `run` can change and no load sets, and `run` does not set to null.
pub fn cells(bodies: &JudgedBodies<'_>) -> Result<List<bool>, OutOfMemory>
    ensures { (t : JudgedThread) → HoldsJudged t bodies.now → TellsCells t → IfOk result (λ bits. AreCells t (locations_named bodies.now.numbers.locations.now) bits) }
{
    let rounds = call_rounds(bodies.deeds)?;
    let own = run_deeds(bodies.alloc, bodies.numbers, bodies.program)?;
    let deeds = with_called(bodies.alloc, bodies.deeds, rounds, own.as_slice())?;
    let locations = bodies.numbers.locations;
    let changed = changed_bits(bodies.alloc, locations.len(), deeds.as_slice())?;
    let kept = kept_bits(bodies.alloc, locations, bodies.program)?;
    common(bodies.alloc, changed.as_slice(), kept.as_slice())
}

// Whether an `output` stands in a system method.
fn system_has_output(method: &Option<SystemMethod>) -> bool
    ensures { result ≡ have_output (system_tree method.now).statements }
{
    match method {
        None => false,
        Some(method) => statements_have_output(method.body.as_slice()),
    }
}

// Whether an `output` stands in one of methods.
fn methods_have_output(methods: &[Method]) -> bool
    ensures { result ≡ list_any (λ (m : MethodTree). have_output m.body) (map typed_method methods.now) }
{
    'methods: for method in methods {
        if statements_have_output(method.body.as_slice()) {
            return true;
        }
    }
    false
}

// Whether an `output` stands in a program.
fn has_output(program: &Program) -> bool
    ensures { result ≡ program_has_output (nameless_tree program.now) }
{
    if system_has_output(&program.init) {
        return true;
    }
    if system_has_output(&program.run) {
        return true;
    }
    if system_has_output(&program.term) {
        return true;
    }
    methods_have_output(program.methods.as_slice())
}

// The place of the name of a system method, where there is one.
fn place_of(method: &Option<SystemMethod>) -> Place
    ensures { result ≡ place_of_system method.now }
{
    match method {
        None => Place::start(),
        Some(method) => method.place,
    }
}

// The columns of the first outputs of a program are read, as an implicit output does.
fn read_all_outputs(
    scope: &RecordScope<'_>,
    walk: &mut RecordedWalk,
    place: Place,
) -> Result<(), OutOfMemory>
    ensures { OnOk result (GoesOnBy scope.now walk.old walk.new (λ s. read_locations place (columns_written s.code (range_with_len 0 (length s.code.outputs))))) }
{
    'outputs: for number in 0..scope.body.outputs.len() {
        read_output(scope, walk, number, place)?;
    }
    Ok(())
}

// The end of `run`: an implicit output reads every column that it writes, at the place of `run`'s name.
fn walk_implicit_output(
    scope: &RecordScope<'_>,
    walk: &mut RecordedWalk,
    program: &Program,
) -> Result<(), OutOfMemory>
    ensures { OnOk result (GoesOnBy scope.now walk.old walk.new (past_run_in (program_has_output (nameless_tree program.now)) (place_of_system program.now.run))) }
{
    if has_output(program) {
        return Ok(());
    }
    read_all_outputs(scope, walk, place_of(&program.run))?;
    Ok(())
}

// The statements of a system method, where there is one.
fn walk_system(
    scope: &RecordScope<'_>,
    walk: &mut RecordedWalk,
    method: &Option<SystemMethod>,
) -> Result<(), OutOfMemory>
    ensures { OnOk result (GoesPastBy scope.now walk.old walk.new (λ s. walk_all s (system_tree method.now).statements)) }
{
    match method {
        None => Ok(()),
        Some(method) => walk_body(scope, walk, method.body.as_slice()),
    }
}

// Records the walk over `run` in a scope, up to its end.
fn record_in(scope: &RecordScope<'_>, program: &Program) -> Result<RecordedWalk, OutOfMemory>
    ensures { IfOk result (λ walk. RunRecorded scope.now (system_tree program.now.run).statements (program_has_output (nameless_tree program.now)) (place_of_system program.now.run) walk) }
{
    let locations = LocationSet::all(scope.alloc, scope.numbers.locations.len());
    let mut walk = RecordedWalk::new(scope.alloc, locations);
    walk_system(scope, &mut walk, &program.run)?;
    walk.end(scope.alloc)?;
    walk_implicit_output(scope, &mut walk, program)?;
    Ok(walk)
}

// Records the walk over `run` with these `first` flags known.
fn record_run(bodies: &JudgedBodies<'_>, known: &[ByVariable]) -> Result<RecordedWalk, OutOfMemory>
    ensures { (t : JudgedThread) → HoldsJudged t bodies.now → IfOk result (λ walk. RunTells t (locations_named bodies.now.numbers.locations.now) (first_flags known.now) walk) }
{
    let effects = call_effects(bodies, known)?;
    let scope = RecordScope {
        alloc: bodies.alloc,
        numbers: bodies.numbers,
        effects: effects.as_slice(),
        body: system_scope(bodies.program),
        known,
    };
    record_in(&scope, bodies.program)
}

/// Records the walk over `run` with no flag known.
pub fn record_later_loads(bodies: &JudgedBodies<'_>) -> Result<RecordedWalk, OutOfMemory>
    ensures { (t : JudgedThread) → HoldsJudged t bodies.now → IfOk result (λ walk. RunTells t (locations_named bodies.now.numbers.locations.now) no_flag walk) }
{
    record_run(bodies, &[])
}

// The first of reads whose location is dirty.
fn failing(reads: &[RecordedRead], dirty: &[bool]) -> Option<RecordedRead>
    ensures { result ≡ find_dirty dirty.now reads.now }
{
    'reads: for read in reads {
        if is_on(dirty, read.location) {
            return Some(*read);
        }
    }
    None
}

// The flags of these BY variables.
fn flags_of(
    alloc: Global,
    locations: &[LocationName<'_>],
    bys: &[ByVariable],
) -> Result<List<bool>, OutOfMemory>
    ensures { IfOk result (λ bits. bits ≡ map (is_flag_at bys.now) (locations_named locations.now)) }
{
    let mut bits = List::new(alloc);
    'locations: for at in locations {
        bits.push(is_flag_of_bys(bys, *at))?;
    }
    Ok(bits)
}

// The BY variables before a grain, and the one at the grain with the later ones.
fn bys_at(bys: &[ByVariable], grain: usize) -> (&[ByVariable], &[ByVariable])
    ensures before { result.0.now ≡ take (grain - 1) bys.now }
    ensures from { result.1.now ≡ drop (grain - 1) bys.now }
{
    let before = grain.saturating_sub(1);
    if before < bys.len() {
        bys.split_at(before)
    } else {
        (bys, &[])
    }
}

// The first read of a dirty location in the two walks of a grain, from these cells and these flags that are dirty throughout.
fn failing_in_walks(
    alloc: Global,
    dirty: &[bool],
    flags: &[bool],
    first: &RecordedWalk,
    later: &RecordedWalk,
) -> Result<Option<RecordedRead>, OutOfMemory>
    ensures { IfOk result (λ read. read ≡ option_or (find_dirty dirty.now first.now.reads) (find_dirty (either_on (both_on dirty.now first.now.onward) flags.now) later.now.reads)) }
{
    if let Some(read) = failing(first.reads.as_slice(), dirty) {
        return Ok(Some(read));
    }
    let past = first.onward.values(alloc)?;
    let left = common(alloc, dirty, past.as_slice())?;
    let dirty_later = united(alloc, left.as_slice(), flags)?;
    Ok(failing(later.reads.as_slice(), dirty_later.as_slice()))
}

/// The first read of a dirty location in the two walks of a grain, by its cells and by the recorded walk of later loads; None where the
/// rules on walks hold there.
pub fn failing_at_grain(
    bodies: &JudgedBodies<'_>,
    cells: &[bool],
    later: &RecordedWalk,
    grain: usize,
) -> Result<Option<RecordedRead>, OutOfMemory>
    ensures { (t : JudgedThread) → HoldsWalks t bodies.now cells.now later.now → IfOk result (λ read. IsGroundAt t (locations_named bodies.now.numbers.locations.now) grain read) }
{
    let (coarser, finer) = bys_at(bys_read(bodies.program), grain);
    let first = record_run(bodies, finer)?;
    let flags = flags_of(bodies.alloc, bodies.numbers.locations, coarser)?;
    let dirty = united(bodies.alloc, cells, flags.as_slice())?;
    failing_in_walks(
        bodies.alloc,
        dirty.as_slice(),
        flags.as_slice(),
        &first,
        later,
    )
}
