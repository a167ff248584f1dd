//! Thread programs that are judged, one after the other.
ghost use Rattle.std.specs.Prelude.{◌≡◌, ◌∷◌, ◌++◌, IfOk, List as Items, map};
ghost use Rattle.std.specs.List.{AllByRecursion};
ghost use Rattle.ds2_tree.specs.Units.{SourcePart as PartTree, AThread};
ghost use Rattle.ds2_tree.specs.UnitViews.{part_tree, source_tree, thread_tree};
ghost use Rattle.ds2_names.specs.SourceUnit.{unit_of_thread};
ghost use Rattle.ds2_scope.specs.CodeUnits.{instances_in_source};
ghost use Rattle.ds2_verdicts.specs.ThreadVerdicts.{IsTyped, declaration_name, declaration_names, verdict_on_typed, verdicts_on};

use ds2_base::{List, Name, OutOfMemory};
use ds2_declared_types::names::name;
use ds2_local::judge;
use ds2_locality::Verdict;
use ds2_meaning::{Shared, TypedThread};
use ds2_scope::{Instance, instances_of};
use ds2_tree::{Source, SourcePart, Thread};
use std::alloc::Global;

/// The verdict on a thread program.
#[derive(Drop)]
pub struct ThreadVerdict {
    /// The name of the thread program.
    pub name: Name,
    pub verdict: Verdict,
}

// The names of instances.
fn names_of(alloc: Global, instances: &[Instance<'_>]) -> Result<List<Name>, OutOfMemory>
    ensures { IfOk result (λ names. names ≡ map declaration_name (instances_in_source instances.now)) }
{
    let mut names = List::new(alloc);
    'instances: for instance in instances {
        names.push(name(alloc, instance.name)?)?;
    }
    Ok(names)
}

// The names of the hash objects, iterators and instances that a thread program declares, in order.
fn declaration_names(alloc: Global, unit: &Thread) -> Result<List<Name>, OutOfMemory>
    ensures { IfOk result (λ names. names ≡ declaration_names (unit_of_thread (thread_tree unit.now))) }
{
    let instances = instances_of(alloc, unit.globals.as_slice())?;
    names_of(alloc, instances.as_slice())
}

/// The verdict on a thread program that stands so in a source, under its name.
pub fn verdict_on(
    alloc: Global,
    unit: &Thread,
    thread: &TypedThread,
) -> Result<ThreadVerdict, OutOfMemory>
    requires { IsTyped thread.now }
    ensures { IfOk result (λ verdict. verdict ≡ verdict_on_typed (thread_tree unit.now) thread.now) }
{
    let names = declaration_names(alloc, unit)?;
    let verdict = judge(alloc, thread, names.as_slice())?;
    Ok(ThreadVerdict {
        name: thread.name.copy(alloc)?,
        verdict,
    })
}

// Adds the verdict on the first of typed thread programs, which stands so in a source. Gives those behind it.
fn judge_next<'t>(
    alloc: Global,
    verdicts: &mut List<ThreadVerdict>,
    unit: &Thread,
    threads: &'t [Shared<TypedThread>],
) -> Result<&'t [Shared<TypedThread>], OutOfMemory>
    requires { AllByRecursion IsTyped threads.now }
    ensures tells { IfOk result (λ left. (parts : Items PartTree) → verdicts.new ++ verdicts_on parts left.now ≡ verdicts.old ++ verdicts_on (AThread (thread_tree unit.now) ∷ parts) threads.now) }
    ensures typed { IfOk result (λ left. AllByRecursion IsTyped left.now) }
{
    if let [thread, others @ ..] = threads {
        verdicts.push(verdict_on(alloc, unit, thread.get())?)?;
        Ok(others)
    } else {
        Ok(threads)
    }
}

// Adds the verdict on the thread program that a part of a source is, where it is one. Gives the typed thread programs behind it.
fn judge_part<'t>(
    alloc: Global,
    verdicts: &mut List<ThreadVerdict>,
    part: &SourcePart,
    threads: &'t [Shared<TypedThread>],
) -> Result<&'t [Shared<TypedThread>], OutOfMemory>
    requires { AllByRecursion IsTyped threads.now }
    ensures tells { IfOk result (λ left. (parts : Items PartTree) → verdicts.new ++ verdicts_on parts left.now ≡ verdicts.old ++ verdicts_on (part_tree part.now ∷ parts) threads.now) }
    ensures typed { IfOk result (λ left. AllByRecursion IsTyped left.now) }
{
    match part {
        SourcePart::Thread(unit) => judge_next(alloc, verdicts, unit, threads),
        SourcePart::Package(_) => Ok(threads),
        SourcePart::Data(_) => Ok(threads),
        SourcePart::Proc { .. } => Ok(threads),
        SourcePart::Run { .. } => Ok(threads),
        SourcePart::Quit { .. } => Ok(threads),
    }
}

/// The verdicts on the typed thread programs of a source, in order.
pub fn judge_threads(
    alloc: Global,
    source: &Source,
    threads: &[Shared<TypedThread>],
) -> Result<List<ThreadVerdict>, OutOfMemory>
    requires { AllByRecursion IsTyped threads.now }
    ensures { IfOk result (λ verdicts. verdicts ≡ verdicts_on (source_tree source.now) threads.now) }
{
    let mut verdicts = List::new(alloc);
    let mut left = threads;
    let mut rest = source.parts.as_slice();
    'parts: while let [part, after @ ..] = rest {
        left = judge_part(alloc, &mut verdicts, part, left)?;
        rest = after;
    }
    Ok(verdicts)
}
