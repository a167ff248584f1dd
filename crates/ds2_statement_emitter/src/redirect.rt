//! Gives jumps their targets.
ghost use Rattle.std.specs.Prelude.{◌≡◌, ◌+◌, ◌<◌, length, OnOk, IfOk};
ghost use Rattle.ds2_statement_emitter.specs.Marks.{body_mark, aim as target_of, moved, redirected, end_aims, loop_aims};
ghost use Rattle.ds2_statement_emitter.specs.Appending.{off_instr, with_off};

use crate::aims::{Aims, BODY, CONTINUE, END, LEAVE, RETURN};
use ds2_base::{List, OutOfMemory};
use ds2_code::Instr;

// The target that a mark gets; a number that is no mark stays.
fn aim(aims: Aims, to: u32) -> u32
    ensures { result ≡ target_of aims to }
{
    if to == LEAVE {
        aims.leave
    } else if to == CONTINUE {
        aims.continue_to
    } else if to == RETURN {
        aims.return_to
    } else if to == END {
        aims.end
    } else if to == BODY {
        aims.body
    } else {
        to
    }
}

// An instruction whose mark gets its target, where it jumps to one.
fn redirect_instr(aims: Aims, instr: Instr) -> Instr
    ensures { result ≡ moved (target_of aims) instr }
{
    match instr {
        Instr::Jump(to) => Instr::Jump(aim(aims, to)),
        Instr::JFalse(to) => Instr::JFalse(aim(aims, to)),
        Instr::JTrue(to) => Instr::JTrue(aim(aims, to)),
        _ => instr,
    }
}

// Gives the mark of one instruction its target.
#[tactic(auto, using(crate::proofs::Redirected::redirect_twice, crate::proofs::Redirected::set_length))]
fn redirect_one(code: &mut List<Instr>, at: usize, aims: Aims)
    requires { at < length code.old }
    ensures same { redirected (at + 1) aims code.new ≡ redirected at aims code.old }
    ensures size { length code.new ≡ length code.old }
{
    let instr = code.replace(at, Instr::End);
    code.replace(at, redirect_instr(aims, instr));
}

/// Gives the marks in code their targets, from an instruction on.
#[tactic(auto, using(crate::proofs::Redirected::redirect_end))]
pub fn redirect(code: &mut List<Instr>, from: usize, aims: Aims)
    ensures { code.new ≡ redirected from aims code.old }
{
    let end = code.len();
    let mut at = from;
    'instrs: while at < end {
        redirect_one(code, at, aims);
        at += 1;
    }
}

/// The number of the next instruction; want of memory where it is no target.
pub fn position(code: &List<Instr>) -> Result<u32, OutOfMemory>
    ensures same { IfOk result (λ n. n ≡ length code.now) }
    ensures small { OnOk result (length code.now < body_mark) }
{
    let Ok(n) = u32::try_from(code.len()) else {
        return Err(OutOfMemory);
    };
    if n < BODY { Ok(n) } else { Err(OutOfMemory) }
}

/// A sum; want of memory where it has more than 32 bits.
pub fn plus(a: u32, b: u32) -> Result<u32, OutOfMemory>
    ensures { IfOk result (λ n. n ≡ a + b) }
{
    match a.checked_add(b) {
        None => Err(OutOfMemory),
        Some(n) => Ok(n),
    }
}

/// A jump where a condition does not hold, or, where there is none, in any case.
pub fn off_jump(always: bool, to: u32) -> Instr
    ensures { result ≡ off_instr always to }
{
    if always {
        Instr::Jump(to)
    } else {
        Instr::JFalse(to)
    }
}

/// Lets a jump that was left open lead behind the code.
#[tactic(auto, using(crate::proofs::Redirected::set_past), unfolding(crate::specs::Appending::with_off))]
pub fn lead_here(code: &mut List<Instr>, hole: usize, always: bool) -> Result<(), OutOfMemory>
    ensures code { OnOk result (code.new ≡ with_off always hole code.old) }
    ensures small { OnOk result (length code.old < body_mark) }
{
    let to = position(code)?;
    if hole < code.len() {
        code.replace(hole, off_jump(always, to));
    }
    Ok(())
}

/// Gives the jumps to the end of a chain of parts, from an instruction on, their target behind the code.
pub fn end_chain(code: &mut List<Instr>, from: usize) -> Result<(), OutOfMemory>
    ensures code { OnOk result (code.new ≡ redirected from (end_aims (length code.old)) code.old) }
    ensures small { OnOk result (length code.old < body_mark) }
{
    let end = position(code)?;
    let aims = Aims {
        leave: LEAVE,
        continue_to: CONTINUE,
        return_to: RETURN,
        end,
        body: BODY,
    };
    redirect(code, from, aims);
    Ok(())
}

/// Gives the jumps out of a loop, from an instruction on, their target behind the code, and those to its next round theirs.
pub fn end_loop(code: &mut List<Instr>, from: usize, next: u32) -> Result<(), OutOfMemory>
    ensures code { OnOk result (code.new ≡ redirected from (loop_aims (length code.old) next) code.old) }
    ensures small { OnOk result (length code.old < body_mark) }
{
    let behind = position(code)?;
    let aims = Aims {
        leave: behind,
        continue_to: next,
        return_to: RETURN,
        end: END,
        body: BODY,
    };
    redirect(code, from, aims);
    Ok(())
}
