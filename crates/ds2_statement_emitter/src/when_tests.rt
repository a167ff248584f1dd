//! The instructions of the tests of a `when`.
ghost use Rattle.std.specs.Prelude.{◌≡◌, ◌+◌, map, OnOk, IfOk};
ghost use Rattle.ds2_meaning.specs.View.{all_expressions, typed_expression};
ghost use Rattle.ds2_emitter.specs.Emit.{with_instruction};
ghost use Rattle.ds2_statement_emitter.specs.Marks.{body_mark};
ghost use Rattle.ds2_statement_emitter.specs.Appending.{subject_of, off_instr, has_no_test, with_when_test, with_further_tests, with_open_tests, open_tests_end};

use crate::aims::{Aims, BODY, CONTINUE, END, LEAVE, RETURN};
use crate::parts::emit_condition;
use crate::redirect::{off_jump, plus, position, redirect};
use crate::subject::Tested;
use ds2_base::{List, OutOfMemory};
use ds2_code::Instr;
use ds2_emitter::{Numbering, comparison_instr, emit, emit_expression};
use ds2_meaning::Expression;
use ds2_value::Comparison;

// Adds the code of a test of a `when`.
#[tactic(auto, using(crate::proofs::PartRuns::condition_tested, crate::proofs::PartRuns::equality_tested))]
fn emit_test<N: Numbering>(
    names: &N,
    code: &mut List<Instr>,
    tested: Tested,
    test: &Expression,
) -> Result<(), OutOfMemory>
    ensures { OnOk result (code.new ≡ with_when_test (N.numbers names.now) (subject_of tested) (typed_expression test.now) code.old) }
{
    match tested {
        Tested::Conditions => emit_condition(names, code, test),
        Tested::EqualTo { kept, ty } => {
            emit(code, names.load_kept(kept, ty)?)?;
            emit_expression(names, code, test)?;
            emit(code, comparison_instr(ty, Comparison::Equal))
        }
    }
}

// Adds the further tests of a `when`, each behind a jump to its statement, which is a mark yet.
fn emit_further_tests<N: Numbering>(
    names: &N,
    code: &mut List<Instr>,
    tested: Tested,
    tests: &[Expression],
) -> Result<(), OutOfMemory>
    ensures { OnOk result (code.new ≡ with_further_tests (N.numbers names.now) (subject_of tested) body_mark (all_expressions (map typed_expression tests.now)) code.old) }
{
    'tests: for test in tests {
        emit(code, Instr::JTrue(BODY))?;
        emit_test(names, code, tested, test)?;
    }
    Ok(())
}

// Adds the tests of a `when` without the jump behind them; those between them lead to a mark.
#[tactic(auto, using(crate::proofs::PartRuns::no_test_added, crate::proofs::PartRuns::first_test_added))]
fn emit_open_tests<N: Numbering>(
    names: &N,
    code: &mut List<Instr>,
    tested: Tested,
    tests: &[Expression],
) -> Result<(), OutOfMemory>
    ensures { OnOk result (code.new ≡ with_open_tests (N.numbers names.now) (subject_of tested) body_mark (all_expressions (map typed_expression tests.now)) code.old) }
{
    match tests {
        [] => Ok(()),
        [first, others @ ..] => {
            emit_test(names, code, tested, first)?;
            emit_further_tests(names, code, tested, others)
        }
    }
}

/// Whether a `when` has no test.
#[tactic(auto, using(crate::proofs::SelectEnds::empty_tests))]
pub fn is_unconditional(tests: &[Expression]) -> bool
    ensures { result ≡ has_no_test (all_expressions (map typed_expression tests.now)) }
{
    tests.is_empty()
}

/// Adds the tests of a `when`, and the jump past its statement, which it leaves open. Tells the jump's number.
pub fn emit_when_tests<N: Numbering>(
    names: &N,
    code: &mut List<Instr>,
    tested: Tested,
    tests: &[Expression],
) -> Result<usize, OutOfMemory>
    ensures code { let all = all_expressions (map typed_expression tests.now) in let end = open_tests_end (N.numbers names.now) (subject_of tested) all code.old in OnOk result (code.new ≡ with_instruction (off_instr (has_no_test all) 0) (with_open_tests (N.numbers names.now) (subject_of tested) (end + 1) all code.old)) }
    ensures jump { IfOk result (λ hole. hole ≡ open_tests_end (N.numbers names.now) (subject_of tested) (all_expressions (map typed_expression tests.now)) code.old) }
{
    let start = code.len();
    emit_open_tests(names, code, tested, tests)?;
    let hole = code.len();
    let body = plus(position(code)?, 1)?;
    let aims = Aims {
        leave: LEAVE,
        continue_to: CONTINUE,
        return_to: RETURN,
        end: END,
        body,
    };
    redirect(code, start, aims);
    emit(code, off_jump(is_unconditional(tests), 0))?;
    Ok(hole)
}
