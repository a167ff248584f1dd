//! The thread programs of a program: the verdicts on them, the grains of their groups, and what the log tells of them behind their end.
ghost use Rattle.std.specs.Prelude.{◌≡◌, ◌++◌, ◌∷◌, None, [], option_map, slice_get, IfOk, OnOk};
ghost use Rattle.std.specs.Option.{option_copied};
ghost use Rattle.ds2_answer.specs.Lines.{count_line, thread_line, verdict_text};
ghost use Rattle.ds2_answer.specs.StagesLeft.{grain_told, name_of_stage};
ghost use Rattle.ds2_same_meaning.specs.SameMeaning.{number_of_bys};
ghost use Rattle.ds2_verdicts.specs.ThreadVerdicts.{verdict_named};
ghost use Rattle.ds2_exec.specs.StageEnds.{grain_of, grains_told, judged_stage, judged_stages, last_verdict, noted, stage_noted, stages_counted, stages_noted};

use ds2_answer::lines::{say_count, say_thread, verdict_text};
use ds2_base::{Bytes, List, OutOfMemory, Text};
use ds2_code::{ProgramParts, ReadingPart};
use ds2_unit::StageNote;
use ds2_verdicts::{ThreadVerdict, Verdict};
use std::alloc::Global;
use std::marker::Model;

/// A thread program, and the verdict that is told on it, where one is.
#[derive(Drop)]
pub(crate) struct StageVerdict<'a> {
    stage: &'a ProgramParts,
    verdict: Option<&'a Verdict>,
}

impl<'a> Model for StageVerdict<'a> {
    ghost use Rattle.std.specs.Option.{option_copied};
    ghost use Rattle.ds2_exec.specs.StageEnds.{JudgedStage};

    ghost Value = { JudgedStage };

    ghost view = { λ s. record { stage = s.stage.now; verdict = option_copied s.verdict } };
}

/// What is told of a thread program behind its end.
#[derive(Drop)]
pub(crate) struct StageEnd {
    /// Its name.
    pub(crate) name: Text,
    /// The text of its verdict, where one is told.
    pub(crate) verdict: Option<Text>,
    /// How many groups its loads made.
    pub(crate) groups: u64,
    /// How many instructions its units executed.
    pub(crate) executed: u128,
}

// The name of a thread program.
fn name_of(stage: &ProgramParts) -> &str
    ensures { result.now ≡ name_of_stage stage.now.name }
{
    match &stage.name {
        None => "",
        Some(name) => name.as_str(),
    }
}

// ---- verdicts

// The verdict on the thread program of a name, where one is told.
fn verdict_named<'v>(verdicts: &'v [ThreadVerdict], name: &str) -> Option<&'v Verdict>
    ensures { option_copied result ≡ verdict_named verdicts.now name.now }
{
    'verdicts: for verdict in verdicts {
        if verdict.name.as_str() == name {
            return Some(&verdict.verdict);
        }
    }
    None
}

// A thread program with the verdict of these on it.
fn stage_judged<'a>(stage: &'a ProgramParts, verdicts: &'a [ThreadVerdict]) -> StageVerdict<'a>
    ensures { result ≡ judged_stage (verdict_named verdicts.now) stage.now }
{
    let verdict = verdict_named(verdicts, name_of(stage));
    StageVerdict { stage, verdict }
}

/// Thread programs, each with the verdict of these on it.
pub(crate) fn stages_judged<'a>(
    alloc: Global,
    stages: &'a [ProgramParts],
    verdicts: &'a [ThreadVerdict],
) -> Result<List<StageVerdict<'a>>, OutOfMemory>
    ensures { IfOk result (λ judged. judged ≡ judged_stages (verdict_named verdicts.now) stages.now) }
{
    let mut judged = List::new(alloc);
    'stages: for stage in stages {
        judged.push(stage_judged(stage, verdicts))?;
    }
    Ok(judged)
}

/// The verdict on the thread program of these that reads tables, which is the last one, where there is one and a verdict is told.
pub(crate) fn last_verdict<'v>(stages: &[StageVerdict<'v>]) -> Option<&'v Verdict>
    ensures { option_copied result ≡ last_verdict None stages.now }
{
    let mut verdict = None;
    'stages: for stage in stages {
        verdict = stage.verdict();
    }
    verdict
}

// ---- grains

// How many BY variables a reading has.
fn number_of_bys(reading: &ReadingPart) -> usize
    ensures { result ≡ number_of_bys reading.now }
{
    match reading {
        ReadingPart::Set { bys, .. } => bys.len(),
        ReadingPart::Merge { bys, .. } => bys.len(),
        ReadingPart::Stage { .. } => 0,
        ReadingPart::Once => 0,
        ReadingPart::Nothing => 0,
    }
}

// The coarsest grain over so many BY variables.
fn coarsest(bys: usize) -> u32
    ensures { result ≡ grain_told None bys }
{
    if bys == 0 { 0 } else { 1 }
}

// The grain of a thread program on which this verdict is told, or none.
fn grain_told(verdict: Option<&Verdict>, bys: usize) -> u32
    ensures { result ≡ grain_told (option_copied verdict.entry) bys }
{
    match verdict {
        None => coarsest(bys),
        Some(Verdict::Local { grain }) => *grain,
        Some(Verdict::NotLocal { .. }) => coarsest(bys),
    }
}

// Adds the grains of thread programs, the innermost first.
#[tactic(auto, using(crate::proofs::StageSteps::grain_behind))]
fn add_grains(stages: &[StageVerdict], grains: &mut List<u32>) -> Result<(), OutOfMemory>
    ensures { OnOk result (grains.new ≡ grains.old ++ grains_told stages.now) }
{
    match stages {
        [] => Ok(()),
        [stage, after @ ..] => {
            add_grains(after, grains)?;
            grains.push(stage.grain())?;
            Ok(())
        }
    }
}

/// The grains of thread programs, the innermost first.
pub(crate) fn grains_of(alloc: Global, stages: &[StageVerdict]) -> Result<List<u32>, OutOfMemory>
    ensures { IfOk result (λ grains. grains ≡ grains_told stages.now) }
{
    let mut grains = List::new(alloc);
    add_grains(stages, &mut grains)?;
    Ok(grains)
}

// ---- the end of a thread program

// The text of a verdict, where one is told.
fn text_told(alloc: Global, verdict: Option<&Verdict>) -> Result<Option<Text>, OutOfMemory>
    ensures { IfOk result (λ text. text ≡ option_map verdict_text (option_copied verdict.entry)) }
{
    match verdict {
        None => Ok(None),
        Some(verdict) => Ok(Some(verdict_text(alloc, verdict)?)),
    }
}

impl<'a> StageVerdict<'a> {
    // The verdict, where one is told.
    fn verdict(&self) -> Option<&'a Verdict>
        ensures { option_copied result ≡ self.now.verdict }
    {
        self.verdict
    }

    // The grain of the thread program.
    fn grain(&self) -> u32
        ensures { result ≡ grain_of self.now }
    {
        grain_told(self.verdict, number_of_bys(&self.stage.reading))
    }

    // What is told of the thread program with this note.
    fn end(&self, alloc: Global, note: &StageNote) -> Result<StageEnd, OutOfMemory>
        ensures { IfOk result (λ end. end ≡ stage_noted self.now note.now) }
    {
        let text = text_told(alloc, self.verdict)?;
        Ok(StageEnd {
            name: Text::of(alloc, name_of(self.stage))?,
            verdict: text,
            groups: note.groups,
            executed: note.executed,
        })
    }
}

// Adds what is told of the thread program of this number with this note, where there is one.
fn add_noted(
    alloc: Global,
    stages: &List<StageVerdict>,
    number: usize,
    note: &StageNote,
    ends: &mut List<StageEnd>,
) -> Result<(), OutOfMemory>
    ensures { OnOk result (ends.new ≡ ends.old ++ noted (slice_get stages.now number) note.now) }
{
    match stages.get(number) {
        None => Ok(()),
        Some(stage) => ends.push(stage.end(alloc, note)?),
    }
}

/// What is told of the thread programs that were begun, of which there are notes: the innermost first, each with the verdict that is told on it.
pub(crate) fn stage_ends(
    alloc: Global,
    stages: &List<StageVerdict>,
    notes: &[StageNote],
) -> Result<List<StageEnd>, OutOfMemory>
    ensures { IfOk result (λ ends. ends ≡ stages_noted stages.now notes.now) }
{
    let mut ends = List::new(alloc);
    let mut left = notes;
    'notes: while let [note, after @ ..] = left {
        add_noted(alloc, stages, after.len(), note, &mut ends)?;
        left = after;
    }
    Ok(ends)
}

// Counts the groups and the instructions of a thread program in the log.
fn count_stage(alloc: Global, stage: &StageEnd, log: &mut Bytes) -> Result<(), OutOfMemory>
    ensures { OnOk result (log.new ≡ log.old ++ (thread_line stage.now.name stage.now.verdict stage.now.groups ++ count_line stage.now.executed)) }
{
    say_thread(alloc, &stage.name, &stage.verdict, stage.groups, log)?;
    say_count(alloc, stage.executed, log)
}

/// Counts the groups and the instructions of thread programs in the log.
pub(crate) fn count_stages(
    alloc: Global,
    stages: &[StageEnd],
    log: &mut Bytes,
) -> Result<(), OutOfMemory>
    ensures { OnOk result (log.new ≡ log.old ++ stages_counted stages.now) }
{
    let mut left = stages;
    'stages: while let [stage, after @ ..] = left {
        count_stage(alloc, stage, log)?;
        left = after;
    }
    Ok(())
}
