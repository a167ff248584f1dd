//! Operand types along the list of instructions.
ghost use Rattle.std.specs.Prelude.{◌≡◌, ◌<◌, ◌^◌, [], length, false, Some, None, List as Items, Option, OnOk, IfOk, MatchOption, slice_get, slice_set, if◌then◌else◌};
ghost use Rattle.ds2_code.specs.ValidCode.{stage_parameters, unit_entries};
ghost use Rattle.ds2_valid_code.specs.declared.owner.CodeOwner.{CodeOwner as Owner};
ghost use Rattle.ds2_valid_code.specs.declared.owner.CodeOwner.TheVariants.{Unit as UnitCode};
ghost use Rattle.ds2_valid_code.specs.CodeScan.{arriving, standing, entry_found, types_onward, scan_code, is_clear_for, lands_clear, jumps_land, entry_point, unit_points, method_points, points_clear, entry_table, is_entered_clear, with_entries, HasEntries, types_suffice};

use crate::marks::CodeMark;
use crate::owner::{CodeOwner, EntryPoint, method_points, same_owner};
use crate::rows::types_behind;
use crate::stack::TypeStack;
use ds2_base::OutOfMemory;
use ds2_code::{Instr, ProgramParts};
use std::alloc::Global;
use std::collections::BTreeMap;

fn write(entries: &mut BTreeMap<usize, CodeOwner>, point: EntryPoint) -> Result<(), OutOfMemory>
    ensures { OnOk result ((table : Items (Option Owner)) → HasEntries entries.old table → HasEntries entries.new (slice_set table point.at (Some point.owner))) }
{
    entries.insert(point.at as usize, point.owner)?;
    Ok(())
}

fn write_points(
    entries: &mut BTreeMap<usize, CodeOwner>,
    points: &[EntryPoint],
) -> Result<(), OutOfMemory>
    ensures { OnOk result ((table : Items (Option Owner)) → HasEntries entries.old table → HasEntries entries.new (with_entries table points.now)) }
{
    'points: for point in points {
        write(entries, *point)?;
    }
    Ok(())
}

fn unit_point(at: u32) -> EntryPoint
    ensures { result ≡ entry_point at UnitCode }
{
    EntryPoint {
        at,
        owner: CodeOwner::Unit,
    }
}

// Where the units begin.
fn unit_points(code: &ProgramParts) -> [EntryPoint; 3]
    ensures { result ≡ unit_points (unit_entries code.now) }
{
    [
        unit_point(code.init),
        unit_point(code.run),
        unit_point(code.term),
    ]
}

// Whose entry each instruction is that is one.
fn entries(
    alloc: Global,
    code: &ProgramParts,
    methods: &[EntryPoint],
) -> Result<BTreeMap<usize, CodeOwner>, OutOfMemory>
    requires { methods.now ≡ method_points code.now.methods code.now.methods }
    ensures { IfOk result (λ entries. HasEntries entries (entry_table code.now)) }
{
    let mut entries: BTreeMap<usize, CodeOwner> = BTreeMap::new(alloc);
    write_points(&mut entries, &unit_points(code))?;
    write_points(&mut entries, methods)?;
    Ok(entries)
}

fn entry_at(
    code: &ProgramParts,
    entries: &BTreeMap<usize, CodeOwner>,
    at: usize,
) -> Option<CodeOwner>
    requires { HasEntries entries.now (entry_table code.now) }
    ensures { result ≡ entry_found (slice_get (entry_table code.now) at) }
{
    if at >= code.instrs.len() {
        return None;
    }
    entries.get(&at).copied()
}

// Whether an instruction's entry fits what stands before it; the owner is then the entry's.
fn arrives(
    entry: Option<CodeOwner>,
    came: bool,
    owner: &mut CodeOwner,
    types: &mut TypeStack,
) -> bool
    ensures { arriving entry came (standing owner.old types.old) ≡ (if result then Some (standing owner.new types.new) else None) }
{
    let Some(begun) = entry else {
        return true;
    };
    if came {
        if !same_owner(begun, *owner) {
            return false;
        }
        if !types.is_empty() {
            return false;
        }
    }
    *owner = begun;
    types.clear();
    true
}

// Behind an instruction that the run does not fall through no operand stands.
fn go_on(types: &mut TypeStack, falls: bool)
    ensures { types.new ≡ types_onward falls types.old }
{
    if !falls {
        types.clear();
    }
}

// The marks of the instructions; none where one does not find what it needs.
fn scan(
    alloc: Global,
    code: &ProgramParts,
    stages: &[ProgramParts],
    entries: &BTreeMap<usize, CodeOwner>,
) -> Result<Option<Vec<CodeMark>>, OutOfMemory>
    requires { HasEntries entries.now (entry_table code.now) }
    ensures { IfOk result (λ found. MatchOption found (scan_code code.now (stage_parameters (slice_get stages.now 0)) (entry_table code.now) 0 false (standing UnitCode []) code.now.instrs ≡ None) (λ marks. scan_code code.now (stage_parameters (slice_get stages.now 0)) (entry_table code.now) 0 false (standing UnitCode []) code.now.instrs ≡ Some marks.items)) }
{
    let instrs = code.instrs.as_slice();
    let mut marks: Vec<CodeMark> = Vec::with_capacity(alloc, instrs.len())?;
    let mut types = TypeStack::new(alloc);
    let mut owner = CodeOwner::Unit;
    let mut came = false;
    let mut at: usize = 0;
    'scan: for instr in instrs {
        if !arrives(entry_at(code, entries, at), came, &mut owner, &mut types) {
            return Ok(None);
        }
        marks.push(CodeMark::new(owner, types.is_empty()))?;
        if !types_behind(&mut types, owner, *instr, code, stages)? {
            return Ok(None);
        }
        came = instr.falls_through();
        go_on(&mut types, came);
        at += 1;
    }
    if came {
        return Ok(None);
    }
    Ok(Some(marks))
}

fn is_clear_for(marks: &[CodeMark], at: usize, owner: CodeOwner) -> bool
    ensures { result ≡ is_clear_for (slice_get marks.now at) owner }
{
    match marks.get(at) {
        None => false,
        Some(mark) => same_owner(mark.owner(), owner) && mark.is_empty(),
    }
}

fn lands_clear(marks: &[CodeMark], at: usize, target: Option<u32>) -> bool
    ensures { result ≡ lands_clear marks.now (slice_get marks.now at) target }
{
    let Some(to) = target else {
        return true;
    };
    match marks.get(at) {
        None => false,
        Some(mark) => is_clear_for(marks, to as usize, mark.owner()),
    }
}

fn jumps_land(marks: &[CodeMark], instrs: &[Instr]) -> bool
    ensures { result ≡ jumps_land marks.now instrs.now 0 }
{
    let mut at: usize = 0;
    'jumps: for instr in instrs {
        if !lands_clear(marks, at, instr.jump_target()) {
            return false;
        }
        at += 1;
    }
    true
}

fn points_clear(marks: &[CodeMark], points: &[EntryPoint]) -> bool
    ensures { result ≡ points_clear marks.now points.now }
{
    'points: for point in points {
        if !is_clear_for(marks, point.at as usize, point.owner) {
            return false;
        }
    }
    true
}

fn is_entered_clear(marks: &[CodeMark], methods: &[EntryPoint], code: &ProgramParts) -> bool
    requires { methods.now ≡ method_points code.now.methods code.now.methods }
    ensures { result ≡ is_entered_clear code.now (Some marks.now) }
{
    jumps_land(marks, code.instrs.as_slice())
        && points_clear(marks, &unit_points(code))
        && points_clear(marks, methods)
}

/// Whether operand types are determined along the list and suffice. The thread program that the program reads from is the first of
/// `stages`.
pub(crate) fn types_suffice(
    alloc: Global,
    code: &ProgramParts,
    stages: &[ProgramParts],
) -> Result<bool, OutOfMemory>
    requires { length code.now.methods < 2 ^ 32 }
    ensures { IfOk result (λ suffice. suffice ≡ types_suffice code.now (stage_parameters (slice_get stages.now 0))) }
{
    let methods = method_points(alloc, code.methods.as_slice())?;
    let entries = entries(alloc, code, &methods)?;
    match scan(alloc, code, stages, &entries)? {
        None => Ok(false),
        Some(marks) => Ok(is_entered_clear(&marks, &methods, code)),
    }
}
