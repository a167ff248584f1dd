//! What is done with the object of a source: it is stored.
ghost use Rattle.std.specs.Prelude.{◌≡◌, IfOk, IsTrue, OnOk};
ghost use Rattle.ds2_answer.specs.Plan.{Plan};
ghost use Rattle.ds2_answer.specs.SourcePlans.{compile_programs_of, object_bytes, object_file, store_object};
ghost use Rattle.ds2_answer.specs.Words.{is_source};
ghost use Rattle.ds2_store_steps.specs.Halts.{CausedByStore, Follows, FollowsAll, InSession};
ghost use Rattle.ds2_commands.specs.SourceLoads.{IsReadBack, StoresNew, StoresReadable};

use ds2_answer::lines::say_object;
use ds2_base::{Bytes, OutOfMemory, Text};
use ds2_object::laws::spelling_is_read;
use ds2_object::{ObjectCode, encode};
use ds2_outside::Store;
use ds2_store_steps::{Halt, Session, ask_outputs, write_file};
use std::alloc::Global;

// The name of the object's file: that of the source, with another ending.
fn object_name(alloc: Global, source: &Text) -> Result<Text, OutOfMemory>
    requires { IsTrue (is_source source.now) }
    ensures { IfOk result (λ name. name ≡ object_file source.now) }
{
    match source.as_str().strip_suffix(".ds2") {
        Some(stem) => Text::from_string(alloc, format!(in alloc; "{stem}.dso")?),
        None => unreachable!(),
    }
}

// The bytes of an object, which are read as its programs.
fn object_bytes(alloc: Global, object: &ObjectCode) -> Result<Bytes, OutOfMemory>
    ensures bytes { IfOk result (λ bytes. bytes ≡ object_bytes object.now) }
    ensures readable { OnOk result (IsReadBack object.now) }
{
    spelling_is_read();
    encode(alloc, object)
}

// Writes the object of a source, over what stood under its name.
fn store_object<S: Store>(
    session: &mut Session<S>,
    source: &Text,
    object: &ObjectCode,
) -> Result<(), Halt>
    requires { IsTrue (is_source source.now) }
    ensures does { (rest : Plan) → InSession S.files (Follows (store_object source.now object.now rest) (λ _. rest)) session.old result session.new }
    ensures readable { StoresReadable object.now result (S.files session.old.store.now) (S.files session.new.store.now) }
    ensures cause { CausedByStore S.read_faults S.write_faults session.old result session.new }
{
    let file = object_name(session.alloc, source)?;
    let bytes = object_bytes(session.alloc, object)?;
    write_file(session, &file, &bytes)
}

/// Unless an output is there already, writes the object of a source.
pub(crate) fn store_new<S: Store>(
    session: &mut Session<S>,
    source: &Text,
    object: &ObjectCode,
) -> Result<(), Halt>
    requires named { IsTrue (is_source source.now) }
    ensures does { InSession S.files (StoresNew source.now object.now) session.old result session.new }
    ensures readable { StoresReadable object.now result (S.files session.old.store.now) (S.files session.new.store.now) }
    ensures cause { CausedByStore S.read_faults S.write_faults session.old result session.new }
{
    let codes = object.programs().as_slice();
    ask_outputs(session, codes)?;
    store_object(session, source, object)
}

/// Stores the object of a source, and counts its bytes in the log.
pub(crate) fn store_loaded<S: Store>(
    session: &mut Session<S>,
    source: &Text,
    object: &ObjectCode,
) -> Result<(), Halt>
    requires { IsTrue (is_source source.now) }
    ensures does { InSession S.files (FollowsAll (compile_programs_of source.now object.now)) session.old result session.new }
    ensures readable { StoresReadable object.now result (S.files session.old.store.now) (S.files session.new.store.now) }
    ensures cause { CausedByStore S.read_faults S.write_faults session.old result session.new }
{
    let file = object_name(session.alloc, source)?;
    let bytes = object_bytes(session.alloc, object)?;
    write_file(session, &file, &bytes)?;
    say_object(session.alloc, &file, bytes.len() as u64, &mut session.log)?;
    Ok(())
}
