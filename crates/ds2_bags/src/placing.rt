//! Each answer at its group's number.
ghost use Rattle.std.specs.Prelude.{◌≡◌, ◌==◌, ℕ, ◌<◌, length, Some, None, IfOk, slice_index_or, slice_set, if◌then◌else◌};
ghost use Rattle.std.specs.List.{All, list_any};

use crate::done::Done;
use crate::group_end::GroupEnd;
use crate::job::Answers;
use ds2_base::{List, OutOfMemory};
use std::alloc::Global;

// One answer.
fn put<'j, J: Answers>(out: &mut [Option<GroupEnd>], job: &'j J, done: Done<'j, J>)
    requires room { length out.old ≡ J.count job.now }
    requires job { done.job.now ≡ job.now }
    ensures { out.new ≡ slice_set out.old done.entry.group (Some (J.answer job.now done.entry.group)) }
{
    let g = done.group() as usize;
    out[g] = Some(done.into_end());
}

// The answers of one bag.
fn place_bag<'j, J: Answers>(out: &mut [Option<GroupEnd>], job: &'j J, bag: List<Done<'j, J>>)
    requires room { length out.old ≡ J.count job.now }
    requires job { All (λ d. d.job.now ≡ job.now) bag }
    ensures { (g : ℕ) → g < J.count job.now → slice_index_or out.new g None ≡ (if list_any (λ d. d.group == g) bag.entry then Some (J.answer job.now g) else slice_index_or out.old g None) }
{
    let mut dones = bag.into_vec();
    while let Some(done) = dones.pop() {
        put(out, job, done);
    }
}

/// Each group's answer at its number, and None exactly where no bag names the group. Each bag has to be of the job.
pub fn place<'j, J: Answers>(
    alloc: Global,
    job: &'j J,
    bags: List<List<Done<'j, J>>>,
) -> Result<List<Option<GroupEnd>>, OutOfMemory>
    requires { All (λ bag. All (λ d. d.job.now ≡ job.now) bag) bags }
    ensures len { IfOk result (λ out. length out ≡ J.count job.now) }
    ensures each { IfOk result (λ out. (g : ℕ) → g < J.count job.now → slice_index_or out g None ≡ (if list_any (λ bag. list_any (λ d. d.group == g) bag) bags.entry then Some (J.answer job.now g) else None)) }
{
    let mut out = nothing(alloc, job.groups() as usize)?;
    let all = out.as_mut_slice();
    let mut left = bags.into_vec();
    while let Some(bag) = left.pop() {
        place_bag(all, job, bag);
    }
    Ok(List::of(out))
}

// No answer for any group.
fn nothing(alloc: Global, groups: usize) -> Result<Vec<Option<GroupEnd>>, OutOfMemory>
    ensures len { IfOk result (λ out. length out.items ≡ groups) }
    ensures each { IfOk result (λ out. (g : ℕ) → slice_index_or out.items g None ≡ None) }
{
    let mut out = Vec::with_capacity(alloc, groups)?;
    for _i in 0..groups {
        out.push_reserved(None);
    }
    Ok(out)
}
