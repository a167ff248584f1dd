//! The object of a source.
ghost use Rattle.std.specs.Prelude.{◌≡◌, [], IfOk, IsTrue};
ghost use Rattle.std.specs.List.{AllByRecursion};
ghost use Rattle.ds2_tree.specs.UnitViews.{source_tree};
ghost use Rattle.ds2_meaning.specs.View.{typed_data_program};
ghost use Rattle.ds2_names.specs.SourceUnit.{columns_stored};
ghost use Rattle.ds2_code.specs.ValidCode.{IsValidStaged};
ghost use Rattle.ds2_object.specs.ObjectSpelling.{linked_behind, object_linked};
ghost use Rattle.ds2_same_meaning.specs.SameAnswer.{staged_code};
ghost use Rattle.ds2_source.specs.SourceTexts.{StandsInText};
ghost use Rattle.ds2_compile.specs.CodesOfPrograms.{AreCodesOf};
ghost use Rattle.ds2_compile.specs.CompiledSources.{IsCompiled};

use crate::local_laws::local_stages_are_independent;
use crate::schemas::read_schemas;
use crate::typed_source;
use ds2_base::{List, OutOfMemory, Stop};
use ds2_elaboration::laws::{every_text_is_typed, every_thread_is_typed, tokens_stand_in_order};
use ds2_generate::generate;
use ds2_meaning::TypedData;
use ds2_names::Schemas;
use ds2_object::ObjectCode;
use ds2_same_meaning::instances::read_instances;
use ds2_same_meaning::laws::{outputs_have_slots, typed_programs_mean_same};
use ds2_source::SourceRefusal;
use ds2_tree::Source;
use ds2_valid_code::ProgramCode;
use ds2_verdicts::laws::typed_threads_are_judged;
use ds2_verdicts::{ThreadVerdict, judge_threads};
use std::alloc::Global;

/// What a source is compiled to.
#[derive(Drop)]
pub struct Compiled {
    /// The code of each data program, in order.
    pub object: ObjectCode,
    /// The verdict on each thread program, in order, whether a program reads from it or not.
    pub verdicts: List<ThreadVerdict>,
}

// The code of a program. Code that passes a limit of code, such as numbers of 32 bits, is want of memory.
fn program_code(alloc: Global, program: &TypedData) -> Result<ProgramCode, OutOfMemory>
    ensures code { IfOk result (λ code. code ≡ staged_code (typed_data_program program.now)) }
    ensures valid { IfOk result IsValidStaged }
{
    match generate(alloc, program)? {
        Some(code) => Ok(code),
        None => Err(OutOfMemory),
    }
}

// The codes of programs.
fn program_codes(alloc: Global, programs: &[TypedData]) -> Result<List<ProgramCode>, OutOfMemory>
    ensures codes { IfOk result (λ codes. AreCodesOf programs.now codes) }
    ensures valid { IfOk result (λ codes. AllByRecursion IsValidStaged codes) }
{
    let mut codes = List::new(alloc);
    'programs: for program in programs {
        codes.push(program_code(alloc, program)?)?;
    }
    Ok(codes)
}

// The object of codes. More of them than an object may have are want of memory.
fn object_of(codes: List<ProgramCode>) -> Result<ObjectCode, OutOfMemory>
    requires { IsTrue (linked_behind [] codes) }
    ensures object { IfOk result (λ object. object ≡ codes) }
    ensures linked { IfOk result (λ object. IsTrue (object_linked object)) }
{
    if codes.len() >= 0x1_0000_0000 {
        return Err(OutOfMemory);
    }
    match ObjectCode::new(codes) {
        Some(object) => Ok(object),
        None => unreachable!(),
    }
}

/// The object of a source, over the columns of tables of the store, or its first refusal: of the first unit that breaks a rule, that of the
/// rules of names where it breaks one, else that of the rules of types.
///
/// The code of each data program, with that of the thread program that it reads from, means the same as the program: over any tables and with
/// every budget both leave the same tables and lines and end alike. Each table that it reads, also by a hash object of one of its instances,
/// is one of the store, or an earlier program makes it, with its columns. Each thread program has its verdict; where it is local, the groups of its
/// code at that grain give the same over any tables, whatever groups ran before them. Wants memory too where a program passes a limit of code, such
/// as numbers of 32 bits, or a second thread program behind the one that it reads from.
pub fn compile(
    alloc: Global,
    source: &Source,
    schemas: &Schemas,
) -> Result<Compiled, Stop<SourceRefusal>>
    requires text { StandsInText (source_tree source.now) }
    ensures { IsCompiled (columns_stored schemas.now.tables) (source_tree source.now) result }
{
    read_schemas(schemas.tables.as_slice());
    tokens_stand_in_order();
    every_text_is_typed();
    every_thread_is_typed();
    typed_threads_are_judged();
    local_stages_are_independent();
    typed_programs_mean_same();
    outputs_have_slots();
    match typed_source(alloc, source, schemas) {
        Ok(typed) => {
            let all = typed.programs.as_slice();
            read_instances(all);
            let codes = program_codes(alloc, all)?;
            let object = object_of(codes)?;
            let verdicts = judge_threads(alloc, source, typed.threads.as_slice())?;
            Ok(Compiled { object, verdicts })
        }
        Err(stop) => Err(stop),
    }
}
