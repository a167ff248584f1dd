//! A case run by the top call, and its answer.

use crate::block::Setting;
use crate::contents::{CaseFile, contents};
use crate::damage::Damaged;
use crate::meeting::Meeting;
use crate::mistake::{CaseError, Mistake};
use crate::telling::{add_contents, add_named, without_counts};
use crate::watched::{Asked, Call, Watched};
use ds2_base::{Bytes, List, OutOfMemory, Stop, Text};
use ds2_case_gate::WaitingGate;
use ds2_outside::{Gate, MemSink, MemStore, NoGate, Tear};
use ds2_top::{Status, ds2, ds2_alone};
use std::alloc::{AllocError, Global};
use std::sync::Wait;
use std::thread::Threads;

// A case: what is given, what is its own, and the byte of its damaged file at which the damage is, where there is one.
#[derive(Clone, Copy)]
struct Case<'a> {
    given: &'a Setting,
    own: &'a Setting,
    place: Option<usize>,
}

// The file of a case that is damaged, where one is.
fn damaged_of<'a>(case: Case<'a>) -> Option<&'a Damaged> {
    if let Some(damaged) = &case.own.damaged {
        return Some(damaged);
    }
    match &case.given.damaged {
        Some(damaged) => Some(damaged),
        None => None,
    }
}

fn words_of<'a>(case: Case<'a>) -> &'a [Text] {
    if let Some(words) = &case.own.words {
        return words.as_slice();
    }
    match &case.given.words {
        Some(words) => words.as_slice(),
        None => &[],
    }
}

// The words of the command that runs before the case; None where none does.
fn first_words<'a>(case: Case<'a>) -> Option<&'a [Text]> {
    if let Some(words) = &case.own.first_words {
        return Some(words.as_slice());
    }
    match &case.given.first_words {
        Some(words) => Some(words.as_slice()),
        None => None,
    }
}

fn shows_counts(case: Case) -> bool {
    case.own.shows_counts || case.given.shows_counts
}

fn shows_objects(case: Case) -> bool {
    case.own.shows_objects || case.given.shows_objects
}

// The case's own numbers, or the given ones where it has none.
fn own_or_given(alloc: Global, own: &[u64], given: &[u64]) -> Result<List<u64>, OutOfMemory> {
    if own.is_empty() {
        return List::from_slice(alloc, given);
    }
    List::from_slice(alloc, own)
}

fn is_named(names: &[Text], name: &Text) -> bool {
    names.iter().any(|other| *other == *name)
}

// The tears of a case's calls: its own, or the given ones where it has none.
fn tears_of(alloc: Global, case: Case) -> Result<List<Tear>, OutOfMemory> {
    if case.own.tears.is_empty() {
        return List::from_slice(alloc, case.given.tears.as_slice());
    }
    List::from_slice(alloc, case.own.tears.as_slice())
}

// Puts files into a store, but for those of these names.
fn put_files(
    alloc: Global,
    files: &[CaseFile],
    without: &[Text],
    store: &mut MemStore,
) -> Result<(), Stop<Mistake>> {
    for file in files {
        if !is_named(without, &file.name) {
            let bytes = contents(alloc, file.pieces.as_slice())?;
            store.put(alloc, &file.name, bytes)?;
        }
    }
    Ok(())
}

// Puts files that these calls have written into a store, but for those of these names.
fn put_written(
    alloc: Global,
    calls: &[Call],
    after: &MemStore,
    without: &[Text],
    store: &mut MemStore,
) -> Result<(), OutOfMemory> {
    for call in calls {
        if call.asked != Asked::Write || is_named(without, &call.name) {
            continue;
        }
        if let Some(bytes) = after.file(&call.name) {
            store.put(alloc, &call.name, bytes.copy(alloc)?)?;
        }
    }
    Ok(())
}

// Runs the command before the case, where it has one, over the given files, and puts what it has written into a store.
fn put_first(alloc: Global, case: Case, store: &mut MemStore) -> Result<(), Stop<Mistake>> {
    let Some(words) = first_words(case) else {
        return Ok(());
    };
    let mut given = MemStore::new(alloc);
    put_files(alloc, case.given.files.as_slice(), &[], &mut given)?;
    let mut first = Watched::new(alloc, given);
    let mut log = MemSink::new(alloc);
    let _ = ds2_alone(alloc, words, &mut first, &mut log);
    put_written(
        alloc,
        first.calls.as_slice(),
        &first.store,
        case.own.without.as_slice(),
        store,
    )?;
    Ok(())
}

// Damages the file of a case that is damaged, where it is.
fn put_damaged(alloc: Global, case: Case, store: &mut MemStore) -> Result<(), OutOfMemory> {
    let (Some(damaged), Some(place)) = (damaged_of(case), case.place) else {
        return Ok(());
    };
    let Some(whole) = store.file(&damaged.name) else {
        return Ok(());
    };
    let bytes = damaged.damage.at(alloc, whole.as_slice(), place)?;
    store.put(alloc, &damaged.name, bytes)
}

// The store of a case.
fn store_of(alloc: Global, case: Case) -> Result<MemStore, Stop<Mistake>> {
    let mut store = MemStore::new(alloc);
    put_files(
        alloc,
        case.given.files.as_slice(),
        case.own.without.as_slice(),
        &mut store,
    )?;
    put_first(alloc, case, &mut store)?;
    put_files(alloc, case.own.files.as_slice(), &[], &mut store)?;
    put_damaged(alloc, case, &mut store)?;
    store.tear_at(tears_of(alloc, case)?);
    store.fail_at(own_or_given(
        alloc,
        case.own.failing.as_slice(),
        case.given.failing.as_slice(),
    )?);
    Ok(store)
}

fn log_of(alloc: Global, case: Case) -> Result<MemSink, OutOfMemory> {
    let mut log = MemSink::new(alloc);
    log.fail_at(own_or_given(
        alloc,
        case.own.failing_logs.as_slice(),
        case.given.failing_logs.as_slice(),
    )?);
    Ok(log)
}

// A store before a command and after it.
#[derive(Clone, Copy)]
struct Change<'s> {
    before: &'s MemStore,
    after: &'s MemStore,
    // Whether the bytes of objects are told.
    tells_objects: bool,
}

// Whether both stores have the same file of a name, or both none.
fn is_unchanged(change: Change<'_>, name: &Text) -> bool {
    match (change.before.file(name), change.after.file(name)) {
        (None, None) => true,
        (Some(before), Some(after)) => before.as_slice() == after.as_slice(),
        _ => false,
    }
}

// Whether one of these calls is a write of this file.
fn is_written(calls: &[Call], name: &Text) -> bool {
    calls
        .iter()
        .any(|call| call.asked == Asked::Write && call.name == *name)
}

// Adds a file that the command has made or changed. Of an object the name says enough where its bytes are not told.
fn add_file(
    alloc: Global,
    name: &Text,
    change: Change<'_>,
    out: &mut String,
) -> Result<(), AllocError> {
    if is_unchanged(change, name) {
        return Ok(());
    }
    add_named(alloc, "file", name.as_str(), out)?;
    match change.after.file(name) {
        Some(_) if name.as_str().ends_with(".dso") && !change.tells_objects => Ok(()),
        Some(bytes) => add_contents(alloc, bytes.as_slice(), out),
        None => out.push_str("is gone\n"),
    }
}

// Adds the files that writes have made or changed, in the order of their first writes.
fn add_written(
    alloc: Global,
    calls: &[Call],
    change: Change<'_>,
    out: &mut String,
) -> Result<(), AllocError> {
    for (index, call) in calls.iter().enumerate() {
        if call.asked == Asked::Write && !is_written(&calls[..index], &call.name) {
            add_file(alloc, &call.name, change, out)?;
        }
    }
    Ok(())
}

// Adds those of these files that were changed without a write.
fn add_others(
    alloc: Global,
    files: &[CaseFile],
    calls: &[Call],
    change: Change<'_>,
    out: &mut String,
) -> Result<(), AllocError> {
    for file in files {
        if !is_written(calls, &file.name) {
            add_file(alloc, &file.name, change, out)?;
        }
    }
    Ok(())
}

fn asked_text(asked: Asked) -> &'static str {
    match asked {
        Asked::Read => "read",
        Asked::Has => "has",
        Asked::Write => "write",
    }
}

// Adds the calls of the store, each on a line.
fn add_calls(alloc: Global, calls: &[Call], out: &mut String) -> Result<(), AllocError> {
    for call in calls {
        out.push_str("call ")?;
        add_named(alloc, asked_text(call.asked), call.name.as_str(), out)?;
    }
    Ok(())
}

// What a command has left.
#[derive(Drop)]
struct Left {
    status: Status,
    store: Watched<MemStore>,
    log: MemSink,
}

// Adds a log, with a letter for each count where these are not told.
fn add_log(alloc: Global, log: &[u8], tells: bool, out: &mut String) -> Result<(), AllocError> {
    if log.is_empty() {
        return Ok(());
    }
    out.push_str("log\n")?;
    match str::from_utf8(log) {
        Ok(text) if !tells => {
            let told = without_counts(alloc, text)?;
            add_contents(alloc, told.as_bytes(), out)
        }
        _ => add_contents(alloc, log, out),
    }
}

// The text of what a command has left of a case.
fn told(alloc: Global, case: Case, left: &Left) -> Result<String, Stop<Mistake>> {
    let mut out = String::new(alloc);
    let code = left.status.code();
    writeln!(out, "status {code}")?;
    let calls = left.store.calls.as_slice();
    if case.own.shows_calls || case.given.shows_calls {
        add_calls(alloc, calls, &mut out)?;
    }
    add_log(
        alloc,
        left.log.written().as_slice(),
        shows_counts(case),
        &mut out,
    )?;
    let before = store_of(alloc, case)?;
    let change = Change {
        before: &before,
        after: &left.store.store,
        tells_objects: shows_objects(case),
    };
    add_written(alloc, calls, change, &mut out)?;
    add_others(alloc, case.given.files.as_slice(), calls, change, &mut out)?;
    add_others(alloc, case.own.files.as_slice(), calls, change, &mut out)?;
    Ok(out)
}

fn run_alone(alloc: Global, case: Case) -> Result<Left, Stop<Mistake>> {
    let mut store = Watched::new(alloc, store_of(alloc, case)?);
    let mut log = log_of(alloc, case)?;
    let status = ds2_alone(alloc, words_of(case), &mut store, &mut log);
    Ok(Left { status, store, log })
}

fn run_threaded<G: Gate + Sync>(
    rt: &(impl Threads + Wait + Sync),
    alloc: Global,
    case: Case,
    gate: &G,
) -> Result<Left, Stop<Mistake>> {
    let mut store = Watched::new(alloc, store_of(alloc, case)?);
    let mut log = log_of(alloc, case)?;
    let status = ds2(rt, alloc, words_of(case), &mut store, &mut log, gate);
    Ok(Left { status, store, log })
}

// The text of what a command has left, where all its calls were noted.
fn answer_of(alloc: Global, case: Case, left: Left) -> Result<String, Stop<Mistake>> {
    if left.store.lacks_calls {
        return Err(Stop::OutOfMemory);
    }
    told(alloc, case, &left)
}

// The case's own meeting, or the given one where it has none.
fn meeting_of(case: Case) -> Option<Meeting> {
    match case.own.meeting {
        Some(meeting) => Some(meeting),
        None => case.given.meeting,
    }
}

// Adds the answer by the call with threads, where it is another one.
fn add_other(other: &str, answer: &mut String) -> Result<(), AllocError> {
    if answer.as_str() == other {
        return Ok(());
    }
    answer.push_str("and by the call with threads\n")?;
    answer.push_str(other)
}

// Adds whether one group waited for the other.
fn add_meeting(meeting: Meeting, has_waited: bool, answer: &mut String) -> Result<(), AllocError> {
    let Meeting { held, awaited, .. } = meeting;
    let way = if has_waited { "waited" } else { "did not wait" };
    writeln!(answer, "gate: group {held} {way} for group {awaited}")
}

// Adds the answer by the call with threads at a gate, where it is another one, and what was seen there.
fn add_at_gate(
    rt: &(impl Threads + Wait + Sync),
    alloc: Global,
    case: Case,
    meeting: Meeting,
    answer: &mut String,
) -> Result<(), Stop<Mistake>> {
    let gate = WaitingGate::new(meeting.held, meeting.awaited);
    let left = run_threaded(rt, alloc, case, &gate)?;
    let has_waited = gate.has_waited(meeting.workers);
    let other = answer_of(alloc, case, left)?;
    add_other(other.as_str(), answer)?;
    add_meeting(meeting, has_waited, answer)?;
    Ok(())
}

// The answer by the call without threads, and the other one where it differs.
fn both_answers(
    rt: &(impl Threads + Wait + Sync),
    alloc: Global,
    case: Case,
) -> Result<String, Stop<Mistake>> {
    let mut answer = answer_of(alloc, case, run_alone(alloc, case)?)?;
    if case.own.is_alone || case.given.is_alone {
        return Ok(answer);
    }
    if let Some(meeting) = meeting_of(case) {
        add_at_gate(rt, alloc, case, meeting, &mut answer)?;
        return Ok(answer);
    }
    let other = answer_of(alloc, case, run_threaded(rt, alloc, case, &NoGate)?)?;
    add_other(other.as_str(), &mut answer)?;
    Ok(answer)
}

// Adds an answer that is alike for the bytes from the first one up to the end, where there are such.
fn add_places(first: usize, end: usize, answer: &str, out: &mut String) -> Result<(), AllocError> {
    if first >= end {
        return Ok(());
    }
    let last = end - 1;
    write!(out, "from {first} to {last}: {answer}")
}

// How many bytes a file of a case's store has.
fn length_of(alloc: Global, case: Case, name: &Text) -> Result<usize, Stop<Mistake>> {
    let store = store_of(alloc, case)?;
    match store.file(name) {
        Some(bytes) => Ok(bytes.len()),
        None => Err(Stop::Refused(Mistake::NoDamaged)),
    }
}

// The answers with the damage at each byte of a file in turn; what is alike for bytes behind each other is told once.
fn answers_at_bytes(
    rt: &(impl Threads + Wait + Sync),
    alloc: Global,
    case: Case,
    name: &Text,
) -> Result<String, Stop<Mistake>> {
    let end = length_of(alloc, case, name)?;
    let mut out = String::new(alloc);
    let mut alike = String::new(alloc);
    let mut first = 0usize;
    for place in 0..end {
        let place_of_case = Case {
            given: case.given,
            own: case.own,
            place: Some(place),
        };
        let answer = both_answers(rt, alloc, place_of_case)?;
        if answer.as_str() != alike.as_str() {
            add_places(first, place, alike.as_str(), &mut out)?;
            first = place;
            alike = answer;
        }
    }
    add_places(first, end, alike.as_str(), &mut out)?;
    Ok(out)
}

// The answer to a case, once or for each byte of its damaged file.
fn answers(
    rt: &(impl Threads + Wait + Sync),
    alloc: Global,
    case: Case,
) -> Result<String, Stop<Mistake>> {
    match damaged_of(case) {
        None => both_answers(rt, alloc, case),
        Some(damaged) => answers_at_bytes(rt, alloc, case, &damaged.name),
    }
}

/// The answer to a case: status, calls where they are to be shown, log, the files that were made or changed, and what was seen at a gate;
/// where a file is damaged, the answers for bytes behind each other that are alike, with the first and the last of these bytes.
pub(crate) fn answer(
    rt: &(impl Threads + Wait + Sync),
    alloc: Global,
    given: &Setting,
    own: &Setting,
) -> Result<String, CaseError> {
    let case = Case {
        given,
        own,
        place: None,
    };
    match answers(rt, alloc, case) {
        Ok(answer) => Ok(answer),
        Err(Stop::Refused(mistake)) => Err(CaseError::Case(mistake)),
        Err(Stop::OutOfMemory) => Err(CaseError::OutOfMemory),
    }
}
