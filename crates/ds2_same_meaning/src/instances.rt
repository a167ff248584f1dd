//! The instances of thread programs that programs declare have names.
ghost use Rattle.std.specs.Prelude.{◌≡◌, [], None};
ghost use Rattle.std.specs.List.{AllByRecursion};
ghost use Rattle.ds2_meaning.specs.IsTyped.{thread_parameters};
ghost use Rattle.ds2_meaning.specs.View.{typed_data_program, typed_thread_program};
ghost use Rattle.ds2_same_meaning.specs.SameAnswer.{HasNamedInstances};

use ds2_meaning::{ThreadInstance, TypedData, TypedThread};

// Reads the name of each instance: it is not empty.
#[tactic(auto, using(crate::proofs::NamedInstances::named_first))]
fn read_names(instances: &[ThreadInstance])
    ensures { thread_parameters instances.now [] ≡ None }
{
    let mut rest = instances;
    'instances: while let [first, after @ ..] = rest {
        let _name = first.name.as_str();
        rest = after;
    }
}

// Reads those of a thread program, and of the thread programs that it reads from.
fn read_thread(thread: &TypedThread)
    ensures { HasNamedInstances (typed_thread_program thread.now) }
{
    read_names(thread.program.threads.as_slice());
    match &thread.stage {
        None => {}
        Some(next) => read_thread(next),
    }
}

// Reads those of a data program, and of the thread programs that it reads from.
fn read_program(program: &TypedData)
    ensures { HasNamedInstances (typed_data_program program.now) }
{
    read_names(program.program.threads.as_slice());
    match &program.stage {
        None => {}
        Some(thread) => read_thread(thread.get()),
    }
}

/// Reads the names of the instances of thread programs that data programs declare, and that the thread programs declare from which they read.
///
/// A name is never empty, so that a typed program that stands in code can be translated.
pub fn read_instances(programs: &[TypedData])
    ensures { AllByRecursion (λ p. HasNamedInstances (typed_data_program p)) programs.now }
{
    let mut rest = programs;
    'programs: while let [first, after @ ..] = rest {
        read_program(first);
        rest = after;
    }
}
