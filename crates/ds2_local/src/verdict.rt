//! The verdict on a thread program.
ghost use Rattle.std.specs.Prelude.{◌≡◌, ◌<◌, ◌≤◌, IfOk, None, Some, length};
ghost use Rattle.ds2_deeds.specs.NamedLocations.{global_named, location_named, locations_named};
ghost use Rattle.ds2_deeds.specs.NumberedDeeds.{numbers_of};
ghost use Rattle.ds2_locality.specs.declared.locality.Reason.TheVariants.{TermHasStatements};
ghost use Rattle.ds2_locality.specs.declared.locality.Verdict.TheVariants.{Local};
ghost use Rattle.ds2_locality.specs.Deeds.{init_deeds as deeds_of_init};
ghost use Rattle.ds2_locality.specs.Verdict.{JudgedThread, coarsest, verdict_of, name_given, at_finest, ground_at, ground_of_term, stands_before as stands_before_of, first_write as first_write_of};
ghost use Rattle.ds2_meaning.specs.IsTyped.{IsTypedUnit};
ghost use Rattle.ds2_meaning.specs.ProgramMeaning.{global_name};
ghost use Rattle.ds2_meaning.specs.Reading.{bys_of};
ghost use Rattle.ds2_meaning.specs.ProgramTree.{reader_of};
ghost use Rattle.ds2_meaning.specs.View.{system_tree, typed_thread_program};
ghost use Rattle.ds2_local.specs.HeldWalks.{HoldsWalks};
ghost use Rattle.ds2_local.specs.JudgedBodies.{HoldsJudged, IsNumbered};
ghost use Rattle.ds2_local.specs.JudgedTrees.{judged_thread, place_of_system};
ghost use Rattle.ds2_local.specs.RunGrounds.{ground_of_read, IsNotLocalBy};
ghost use Rattle.ds2_local.specs.Verdicts.{earlier_of_places, ground_of_place, first_write_numbered, place_written, IsSoundAt, TellsCells};

use crate::cycles::cycle_effects;
use crate::effects::call_rounds;
use crate::judged::JudgedBodies;
use crate::parts::call_parts;
use crate::reading::bys_read;
use crate::runs::{cells, failing_at_grain, record_later_loads};
use ds2_base::{Name, OutOfMemory, Place};
use ds2_deeds::{
    CodeHome, GlobalName, LocationName, NumberedDeed, Numbers, all_method_deeds, init_deeds,
    locations_in_order, methods_in_order, sorted_numbers, with_called,
};
use ds2_layout::lay_out_thread;
use ds2_locality::{Reason, Verdict};
use ds2_meaning::{Program, SystemMethod, TypedThread};
use ds2_recorded_walk::{RecordedRead, RecordedWalk};
use std::alloc::Global;

// The name of a global.
fn name_of_global<'p>(global: GlobalName<'p>) -> &'p Name
    ensures { result.now ≡ global_name (global_named global.entry) }
{
    match global {
        GlobalName::Named(name) => name,
        GlobalName::First(name) => name,
        GlobalName::Last(name) => name,
        GlobalName::Present(name) => name,
        GlobalName::Parameter(name) => name,
    }
}

// The name that is given for a location: its own, or that of the instance whose it is.
fn given_name<'p>(at: LocationName<'p>) -> &'p Name
    ensures { result.now ≡ name_given (location_named at.entry).home (location_named at.entry).global }
{
    match at.home {
        CodeHome::Program => name_of_global(at.global),
        CodeHome::Instance(name) => name,
    }
}

// The place of a system method's name, where it has a statement.
fn place_with_statements(method: &Option<SystemMethod>) -> Option<Place>
    ensures { ground_of_place TermHasStatements result ≡ ground_of_term (place_of_system method.now) (system_tree method.now).statements }
{
    match method {
        None => None,
        Some(method) => {
            if method.body.is_empty() {
                None
            } else {
                Some(method.place)
            }
        }
    }
}

// Whether one place stands before another one.
fn stands_before(a: Place, b: Place) -> bool
    ensures { result ≡ stands_before_of a b }
{
    a.line < b.line || (a.line == b.line && a.column < b.column)
}

// The earlier one of a place that was found before, where there is one, and of a further one.
fn earlier(found: Option<Place>, place: Place) -> Place
    ensures { Some result ≡ earlier_of_places found (Some place) }
{
    match found {
        None => place,
        Some(before) => {
            if stands_before(place, before) {
                place
            } else {
                before
            }
        }
    }
}

// The earlier one of a place that was found before and of the one at which a deed writes, where there are such.
fn earlier_written(found: Option<Place>, deed: NumberedDeed) -> Option<Place>
    ensures { result ≡ earlier_of_places found (place_written deed) }
{
    match deed {
        NumberedDeed::Write(place) => Some(earlier(found, place)),
        NumberedDeed::Mention(_) => found,
        NumberedDeed::Change(_) => found,
        NumberedDeed::Call(_) => found,
    }
}

// The earliest place at which deeds write a row or a line.
fn first_write(deeds: &[NumberedDeed]) -> Option<Place>
    ensures { result ≡ first_write_numbered deeds.now }
{
    let mut found = None;
    'deeds: for deed in deeds {
        found = earlier_written(found, *deed);
    }
    found
}

// The earliest place at which `init`, a constructor or a method that they may call writes.
fn first_write_of_init(bodies: &JudgedBodies<'_>) -> Result<Option<Place>, OutOfMemory>
    ensures { (t : JudgedThread) → HoldsJudged t bodies.now → IfOk result (λ place. place ≡ first_write_of (deeds_of_init t.program)) }
{
    let rounds = call_rounds(bodies.deeds)?;
    let own = init_deeds(bodies.alloc, bodies.numbers, bodies.program)?;
    let deeds = with_called(bodies.alloc, bodies.deeds, rounds, own.as_slice())?;
    Ok(first_write(deeds.as_slice()))
}

// A program that is not local, by the read that fails.
fn not_local(bodies: &JudgedBodies<'_>, read: RecordedRead) -> Result<Verdict, OutOfMemory>
    ensures { IfOk result (λ verdict. IsNotLocalBy (ground_of_read (locations_named bodies.now.numbers.locations.now) (Some read)) verdict) }
{
    match bodies.numbers.locations.get(read.location) {
        None => Err(OutOfMemory),
        Some(at) => Ok(Verdict::NotLocal {
            reason: Reason::Reads(given_name(*at).copy(bodies.alloc)?),
            place: read.place,
        }),
    }
}

// A program that is local at a grain; want of memory where it has more than 32 bits.
fn local(grain: usize) -> Result<Verdict, OutOfMemory>
    ensures { IfOk result (λ verdict. verdict ≡ Local grain) }
{
    match u32::try_from(grain) {
        Ok(grain) => Ok(Verdict::Local { grain }),
        Err(_) => Err(OutOfMemory),
    }
}

// The coarsest grain that is tried with so many BY variables.
fn coarsest_grain(count: usize) -> usize
    ensures { result ≡ coarsest count }
{
    if count == 0 { 0 } else { 1 }
}

// A grain that is finer than one and at most as fine as another, halfway between them.
fn halfway(grain: usize, finest: usize) -> usize
    requires { grain < finest }
    ensures finer { grain < result }
    ensures within { result ≤ finest }
{
    finest - (finest - grain) / 2
}

// The finest grain at which the rules on walks hold, where they hold at the coarsest one, by halves. Where they do not hold at a grain they
// hold at no finer one.
fn finest_grain(
    bodies: &JudgedBodies<'_>,
    cells: &[bool],
    later: &RecordedWalk,
    count: usize,
) -> Result<usize, OutOfMemory>
    ensures { (t : JudgedThread) → HoldsWalks t bodies.now cells.now later.now → ground_at t (coarsest count) ≡ None → IfOk result (λ grain. at_finest (ground_at t) count ≡ Local grain) }
{
    ds2_locality::laws::coarser_holds();
    let mut grain = coarsest_grain(count);
    let mut finest = count;
    'grains: while grain < finest {
        let finer = halfway(grain, finest);
        if failing_at_grain(bodies, cells, later, finer)?.is_some() {
            finest = finer - 1;
        } else {
            grain = finer;
        }
    }
    Ok(grain)
}

// The verdict by the walks over `run`.
fn verdict_on_walks(
    bodies: &JudgedBodies<'_>,
    cells: &[bool],
    later: &RecordedWalk,
) -> Result<Verdict, OutOfMemory>
    ensures { (t : JudgedThread) → HoldsWalks t bodies.now cells.now later.now → IfOk result (λ verdict. verdict ≡ at_finest (ground_at t) (length (bys_of t.program.reading))) }
{
    ds2_locality::laws::coarser_holds();
    let count = bys_read(bodies.program).len();
    match failing_at_grain(bodies, cells, later, coarsest_grain(count))? {
        Some(read) => not_local(bodies, read),
        None => local(finest_grain(bodies, cells, later, count)?),
    }
}

// The verdict where the rule on `init` and `term` holds.
fn verdict_on_run(bodies: &JudgedBodies<'_>) -> Result<Verdict, OutOfMemory>
    ensures { (t : JudgedThread) → HoldsJudged t bodies.now → TellsCells t → IfOk result (λ verdict. verdict ≡ at_finest (ground_at t) (length (bys_of t.program.reading))) }
{
    let cells = cells(bodies)?;
    let later = record_later_loads(bodies)?;
    verdict_on_walks(bodies, cells.as_slice(), &later)
}

// The verdict on a program that is judged.
fn verdict_on(bodies: &JudgedBodies<'_>) -> Result<Verdict, OutOfMemory>
    ensures { (t : JudgedThread) → HoldsJudged t bodies.now → TellsCells t → IfOk result (λ verdict. verdict ≡ verdict_of t) }
{
    if let Some(place) = place_with_statements(&bodies.program.term) {
        return Ok(Verdict::NotLocal {
            reason: Reason::TermHasStatements,
            place,
        });
    }
    match first_write_of_init(bodies)? {
        None => verdict_on_run(bodies),
        Some(place) => Ok(Verdict::NotLocal {
            reason: Reason::InitWrites,
            place,
        }),
    }
}

// The verdict on a thread program, whose locations and methods have these numbers.
fn verdict_by_numbers(
    alloc: Global,
    program: &Program,
    numbers: Numbers<'_>,
) -> Result<Verdict, OutOfMemory>
    ensures { (t : JudgedThread) → IsNumbered t program.now (numbers_of numbers.entry) → TellsCells t → IfOk result (λ verdict. verdict ≡ verdict_of t) }
{
    ds2_deeds::laws::once_told_are_distinct();
    ds2_deeds::laws::callees_are_found();
    ds2_deeds::laws::reached_are_found();
    let deeds = all_method_deeds(alloc, numbers, program)?;
    let parts = call_parts(alloc, deeds.as_slice())?;
    let count = numbers.locations.len();
    let cycles = cycle_effects(alloc, count, deeds.as_slice(), &parts)?;
    verdict_on(&JudgedBodies {
        alloc,
        program,
        numbers,
        deeds: deeds.as_slice(),
        cycles: cycles.as_slice(),
        order: parts.order.as_slice(),
    })
}

/// The verdict on a thread program whose names and types fit; where it is local at a grain, the thread program is group independent there:
/// its groups give the same whatever groups before have left. `names` are those of its declarations of hash objects, iterators and instances,
/// in order. Wants memory too where it has more BY variables or slots than 32 bits count.
pub fn judge(alloc: Global, thread: &TypedThread, names: &[Name]) -> Result<Verdict, OutOfMemory>
    requires { IsTypedUnit (reader_of (typed_thread_program thread.now)) }
    ensures verdict { IfOk result (λ verdict. verdict ≡ verdict_of (judged_thread names.now thread.now)) }
    ensures independent { IfOk result (λ verdict. IsSoundAt (reader_of (typed_thread_program thread.now)) verdict) }
{
    ds2_locality::laws::all_objects_are_told();
    ds2_locality::laws::local_is_independent();
    ds2_deeds::laws::once_told_are_distinct();
    ds2_deeds::laws::own_methods_are_first();
    let layout = lay_out_thread(alloc, thread)?;
    let program = &thread.program;
    let locations = locations_in_order(alloc, layout.slots.as_slice(), program, names)?;
    let methods = methods_in_order(alloc, program)?;
    let sorted = sorted_numbers(alloc, locations.as_slice())?;
    let numbers = Numbers {
        locations: locations.as_slice(),
        sorted: sorted.as_slice(),
        methods: methods.as_slice(),
        own: program.methods.len(),
    };
    verdict_by_numbers(alloc, program, numbers)
}
