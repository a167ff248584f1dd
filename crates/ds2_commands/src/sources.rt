//! From the file of a source to its object.
ghost use Rattle.std.specs.Prelude.{◌<◌, ◌≤◌, ◌+◌, ◌^◌, IsTrue, length};
ghost use Rattle.ds2_base.specs.Text.{text_of};
ghost use Rattle.ds2_compile.specs.AnswersOfTexts.{SourcesRead};
ghost use Rattle.ds2_compile.specs.InputTables.{names_or_refusal, source_inputs};
ghost use Rattle.ds2_compile.specs.SourceTexts.{StandsInText};
ghost use Rattle.ds2_compile.specs.UnitViews.{source_tree};
ghost use Rattle.ds2_answer.specs.SourcePlans.{source_plan, with_inputs, with_text, with_tree};
ghost use Rattle.ds2_answer.specs.Words.{is_source};
ghost use Rattle.ds2_answer.specs.declared.kinds.TheConstants.{SOURCE_LIMIT};
ghost use Rattle.ds2_store_steps.specs.Halts.{CausedByStore, InSession};
ghost use Rattle.ds2_commands.specs.SourceLoads.{LoadsSource, ReadsInputs};

use crate::compiling::compile_over;
use crate::loaded::Loaded;
use crate::refusals::refuse_source;
use ds2_answer::{FileKind, SOURCE_LIMIT};
use ds2_base::{Bytes, List, Stop, Text};
use ds2_compile::{Source, input_names, one_source_answer, read_source};
use ds2_outside::Store;
use ds2_store_steps::{Halt, KeptTable, Session, read_file, read_tables, refuse_file};

// Reads the tables of the store that a source mentions, or refuses it where they are too many.
fn read_inputs<S: Store>(session: &mut Session<S>, tree: &Source) -> Result<List<KeptTable>, Halt>
    ensures reads { InSession S.files (ReadsInputs (source_tree tree.now)) session.old result session.new }
    ensures cause { CausedByStore S.read_faults S.write_faults session.old result session.new }
{
    match input_names(session.alloc, tree) {
        Ok(names) => read_tables(session, &[], names.as_slice()),
        Err(Stop::Refused(refusal)) => {
            Err(refuse_source(session.alloc, refusal, &mut session.log))
        }
        Err(Stop::OutOfMemory) => Err(Halt::OutOfMemory),
    }
}

// Reads the tables of a source, and compiles it.
fn load_tree<S: Store>(session: &mut Session<S>, tree: &Source) -> Result<Loaded, Halt>
    requires { StandsInText (source_tree tree.now) }
    ensures loads { InSession S.files (LoadsSource (λ files go. with_inputs (names_or_refusal (source_inputs (source_tree tree.now))) (source_tree tree.now) files go)) session.old result session.new }
    ensures cause { CausedByStore S.read_faults S.write_faults session.old result session.new }
{
    let stored = read_inputs(session, tree)?;
    compile_over(session.alloc, tree, stored, &mut session.log)
}

// Loads the source of a text, or refuses it.
fn load_text<S: Store>(session: &mut Session<S>, text: &Text) -> Result<Loaded, Halt>
    requires { length text.now + 1 < 2 ^ 32 }
    ensures loads { (sources : SourcesRead) → InSession S.files (LoadsSource (λ files go. with_tree (sources.answer_for text.now) files go)) session.old result session.new }
    ensures cause { CausedByStore S.read_faults S.write_faults session.old result session.new }
{
    one_source_answer();
    match read_source(session.alloc, text) {
        Ok(tree) => load_tree(session, &tree),
        Err(Stop::Refused(refusal)) => {
            Err(refuse_source(session.alloc, refusal, &mut session.log))
        }
        Err(Stop::OutOfMemory) => Err(Halt::OutOfMemory),
    }
}

// Loads the source of a file's bytes, or refuses the file where they are no text.
fn load_bytes<S: Store>(session: &mut Session<S>, name: &Text, bytes: Bytes) -> Result<Loaded, Halt>
    requires { length bytes ≤ SOURCE_LIMIT }
    ensures loads { (sources : SourcesRead) → InSession S.files (LoadsSource (λ files go. with_text sources name.now (text_of bytes) files go)) session.old result session.new }
    ensures cause { CausedByStore S.read_faults S.write_faults session.old result session.new }
{
    match Text::from_bytes(session.alloc, bytes)? {
        Some(text) => load_text(session, &text),
        None => Err(refuse_file(session.alloc, name, FileKind::NotUtf8, &mut session.log)),
    }
}

/// Reads a source and the tables of the store that it mentions, and compiles it; or refuses it.
pub(crate) fn load_source<S: Store>(session: &mut Session<S>, name: &Text) -> Result<Loaded, Halt>
    requires { IsTrue (is_source name.now) }
    ensures loads { (sources : SourcesRead) → InSession S.files (LoadsSource (source_plan sources name.now)) session.old result session.new }
    ensures cause { CausedByStore S.read_faults S.write_faults session.old result session.new }
{
    let bytes = read_file(session, name, SOURCE_LIMIT)?;
    load_bytes(session, name, bytes)
}
