//! Whether each jump goes forward, or to where a step of the budget begins.
ghost use Rattle.std.specs.Prelude.{◌≡◌, IsTrue, slice_get};
ghost use Rattle.ds2_code.specs.CodeBound.{begins_step, starts_step};
ghost use Rattle.ds2_code.specs.InstructionTable.{kind_of};
ghost use Rattle.ds2_valid_code.specs.BoundedJumps.{is_bounded_jump, jumps_bounded};

use ds2_code::Instr;

fn starts_step(instrs: &[Instr], at: usize) -> bool
    ensures { result ≡ starts_step (slice_get instrs.now at) }
{
    match instrs.get(at) {
        None => false,
        Some(instr) => is_tick(*instr),
    }
}

fn is_tick(instr: Instr) -> bool
    ensures { result ≡ begins_step (kind_of instr) }
{
    match instr {
        Instr::Tick(_) => true,
        _ => false,
    }
}

fn is_bounded_jump(instrs: &[Instr], at: usize, target: Option<u32>) -> bool
    ensures { result ≡ is_bounded_jump instrs.now at target }
{
    match target {
        None => true,
        Some(to) => at < to as usize || starts_step(instrs, to as usize),
    }
}

/// Whether each jump goes forward, or to where a step of the budget begins.
pub fn jumps_are_bounded(instrs: &[Instr]) -> bool
    ensures { result ≡ jumps_bounded instrs.now instrs.now 0 }
{
    let mut at: usize = 0;
    'jumps: for instr in instrs {
        if !is_bounded_jump(instrs, at, instr.jump_target()) {
            return false;
        }
        at += 1;
    }
    true
}
