//! The machine between two instructions.
ghost use Rattle.std.specs.Prelude.{◌≡◌, ◌∷◌, ◌<◌, ◌^◌, [], IsTrue, Some, IfOk, OnOk, false, slice_get};
ghost use Rattle.std.specs.Option.{is_some};
ghost use Rattle.ds2_code.specs.Scales.{IsDataScaled};
ghost use Rattle.ds2_machine.specs.declared.state.Halt.TheVariants.{Normal as HaltNormal};
ghost use Rattle.ds2_value.specs.Operations.{is_true};
ghost use Rattle.ds2_value.specs.Row.{Row};
ghost use Rattle.ds2_code.specs.CodeBound.{work_left};
ghost use Rattle.ds2_code.specs.CodeUnit.{unit_begun};
ghost use Rattle.ds2_code.specs.CodeRun.{perform, goes_to, on_desk, on_texts, on_step, on_condition, place_tested, on_method, on_return, with_in_outs};
ghost use Rattle.ds2_code.specs.Desk.{OfConstant, OfSlot, OfLocal, IntoSlot, IntoLocal, IntoParameter, constant_value, top_into, without_top, take_off};
ghost use Rattle.ds2_code.specs.HashCalls.{hash_called, iterator_moved};
ghost use Rattle.ds2_code.specs.InstructionTable.{kind_of, Loads, Writes, Enters, GoesBack, CallsHash, CallsIterator};
ghost use Rattle.ds2_frames.specs.OperationKinds.{goes_by_list, has_type_in_bounds, operation_operands};
ghost use Rattle.ds2_machine.specs.MachineView.{UnitTold, nothing_told, machine_of_state, desk_of_state, data_of_state, progress_of_state, IsStateScaled, HasRunTo, IsQuietStep, IsSunkStep, AreTaken, with_operands};
ghost use Rattle.ds2_frames.specs.Results.{as_list};
ghost use Rattle.ds2_machine.specs.Executable.{IsExecutable, HasScalesFor, is_writing};

use crate::UnitSink;
use ds2_base::{List, OutOfMemory, Place, Stop};
use ds2_code::laws::instructions_leave_less;
use ds2_code::scale_laws::{instructions_keep_scales, products_have_scales, units_end_scaled};
use ds2_code::{Constant, HashPart, Instr, MethodPart, ParameterPart, ProgramParts};
use ds2_frames::{
    Arguments, Frames, Pile, Waiting, computed, computed_from_pair, operands_of, write_line,
};
use ds2_slots::{HashObjects, NumberedPart, set};
use ds2_value::{CALL_DEPTH, Fault, HashFunction, IteratorFunction, Truth, Value};
use std::alloc::Global;

/// How a run ends. A run of valid code is never stuck.
#[derive(Clone, Copy)]
pub enum Halt {
    Normal,
    Faulted(Fault),
    Stuck,
}

/// How a run ended, and how many instructions it executed, the one that ended it too.
#[derive(Clone, Copy)]
pub struct Ran {
    pub halt: Halt,
    pub executed: u64,
}

/// A machine between two instructions.
#[derive(Drop)]
pub struct State {
    /// The number of the next instruction.
    pub at: usize,
    /// The operands of all methods that are under way.
    pub operands: Pile,
    /// The locals of all methods that are under way.
    pub locals: Pile,
    /// The callers that wait.
    pub frames: Frames,
    /// The arguments of a call, while they are taken off the operands.
    pub arguments: Arguments,
    /// The global slots.
    pub slots: List<Value>,
    /// The hash objects and their iterators.
    pub objects: HashObjects,
    /// The parameters of the thread program that the program reads from.
    pub parameters: List<Value>,
    /// Where the step that is under way stands.
    pub place: Place,
    /// How many steps and calls may still begin.
    pub left: u64,
    /// The line that is being made; its place is kept for the next one.
    pub line: String,
}

impl State {
    /// A machine with this data that has executed nothing.
    pub fn new(
        alloc: Global,
        slots: List<Value>,
        objects: HashObjects,
        parameters: List<Value>,
    ) -> State
        ensures { data_of_state result ≡ record { slots = slots; hashes = objects.hashes; iterators = objects.iterators; parameters = parameters } }
    {
        State {
            at: 0,
            operands: Pile::new(alloc),
            locals: Pile::new(alloc),
            frames: Frames::new(alloc),
            arguments: Arguments::new(alloc),
            slots,
            objects,
            parameters,
            place: Place { line: 0, column: 0 },
            left: 0,
            line: String::new(alloc),
        }
    }

    /// Goes to the entry of a unit, with a budget.
    pub fn begin(&mut self, entry: u32, budget: u64)
        ensures { machine_of_state self.new nothing_told ≡ unit_begun entry budget (data_of_state self.old) }
    {
        self.at = entry as usize;
        self.operands.clear();
        self.locals.clear();
        self.frames.clear();
        self.place = Place { line: 0, column: 0 };
        self.left = budget;
    }

    /// Runs to the end of the unit.
    pub fn run<S: UnitSink>(
        &mut self,
        alloc: Global,
        code: &ProgramParts,
        sink: &mut S,
    ) -> Result<Ran, OutOfMemory>
        requires executable { IsExecutable code.now }
        requires small { work_left code.now.instrs (machine_of_state self.old nothing_told) < 2 ^ 63 }
        requires scaled { IsStateScaled code.now self.old }
        ensures scaled { IfOk result (λ ran. ran.halt ≡ HaltNormal → IsDataScaled code.now (data_of_state self.new)) }
        ensures ran { IfOk result (λ ran. HasRunTo S.has_taken sink.old sink.new code.now (machine_of_state self.old nothing_told) ran.executed ran.halt self.new) }
    {
        instructions_leave_less();
        instructions_keep_scales();
        products_have_scales();
        units_end_scaled();
        let mut executed: u64 = 0;
        'steps: loop {
            let next = code.instrs.get(self.at);
            executed += 1;
            let Some(instr) = next else {
                return Ok(Ran {
                    halt: Halt::Stuck,
                    executed,
                });
            };
            if let Some(halt) = self.act(alloc, code, *instr, sink)? {
                return Ok(Ran { halt, executed });
            }
        }
    }

    /// Executes one instruction, and tells how it ends the unit: None where the machine goes on.
    #[inline(always)]
    pub fn act<S: UnitSink>(
        &mut self,
        alloc: Global,
        code: &ProgramParts,
        instr: Instr,
        sink: &mut S,
    ) -> Result<Option<Halt>, OutOfMemory>
        requires at { self.old.at < 2 ^ 32 }
        requires bounds { IsTrue (has_type_in_bounds instr) }
        requires scales { HasScalesFor instr self.old.operands.stack }
        ensures { IfOk result (λ halt. IsSunkStep S.has_taken sink.old sink.new (λ told. perform code.now (kind_of instr) (machine_of_state self.old told)) self.new halt) }
    {
        match instr {
            Instr::Output(number) => self.write(alloc, code, number, sink),
            Instr::Put(n) => self.put(alloc, n as usize, sink),
            _ => self.act_quietly(alloc, code, instr),
        }
    }

    // Executes one instruction that writes nothing.
    #[inline(always)]
    fn act_quietly(
        &mut self,
        alloc: Global,
        code: &ProgramParts,
        instr: Instr,
    ) -> Result<Option<Halt>, OutOfMemory>
        requires at { self.old.at < 2 ^ 32 }
        requires bounds { IsTrue (has_type_in_bounds instr) }
        requires scales { HasScalesFor instr self.old.operands.stack }
        requires quiet { is_writing instr ≡ false }
        ensures { IfOk result (λ halt. (told : UnitTold) → IsQuietStep (perform code.now (kind_of instr) (machine_of_state self.old told)) told self.new halt) }
    {
        match instr {
            Instr::Const(k) => self.load_constant(alloc, code, k),
            Instr::GLoad(n) => self.load_slot(alloc, code, n),
            Instr::LLoad(n) => self.load_local(alloc, code, n),
            Instr::GStore(n) => Ok(self.store_slot(n)),
            Instr::LStore(n) => Ok(self.store_local(n)),
            Instr::SetParm(j) => Ok(self.store_parameter(j)),
            Instr::DropTop => Ok(self.discard()),
            Instr::Tick(place) => Ok(self.tick(place)),
            Instr::Jump(to) => Ok(self.jump(to)),
            Instr::JFalse(to) => Ok(self.test(false, to)),
            Instr::JTrue(to) => Ok(self.test(true, to)),
            Instr::Call(number) => self.call(code, number),
            Instr::Ret => self.go_back(alloc, code, false),
            Instr::RetV => self.go_back(alloc, code, true),
            Instr::HCall(number, function) => self.call_hash(alloc, code, function, number),
            Instr::ICall(number, function) => self.call_iterator(alloc, code, function, number),
            Instr::NoWhen => Ok(Some(Halt::Faulted(Fault::NoWhen))),
            Instr::End => Ok(Some(Halt::Normal)),
            _ => self.operate(alloc, code, instr),
        }
    }

    // Puts the result of an operation in the place of its operands; the usual ones on numbers by a way of their own.
    #[inline(always)]
    fn operate(
        &mut self,
        alloc: Global,
        code: &ProgramParts,
        instr: Instr,
    ) -> Result<Option<Halt>, OutOfMemory>
        requires at { self.old.at < 2 ^ 32 }
        requires bounds { IsTrue (has_type_in_bounds instr) }
        requires scales { HasScalesFor instr self.old.operands.stack }
        requires operation { IsTrue (is_some (operation_operands (kind_of instr))) }
        ensures { IfOk result (λ halt. (told : UnitTold) → IsQuietStep (perform code.now (kind_of instr) (machine_of_state self.old told)) told self.new halt) }
    {
        match instr {
            Instr::IAdd => Ok(self.operate_on_pair(code, Instr::IAdd)),
            Instr::ISub => Ok(self.operate_on_pair(code, Instr::ISub)),
            Instr::IMul => Ok(self.operate_on_pair(code, Instr::IMul)),
            Instr::ICmp(comparison) => Ok(self.operate_on_pair(code, Instr::ICmp(comparison))),
            Instr::DAdd => Ok(self.operate_on_pair(code, Instr::DAdd)),
            Instr::DSub => Ok(self.operate_on_pair(code, Instr::DSub)),
            Instr::DMul => Ok(self.operate_on_pair(code, Instr::DMul)),
            Instr::DDiv => Ok(self.operate_on_pair(code, Instr::DDiv)),
            Instr::DCmp(comparison) => Ok(self.operate_on_pair(code, Instr::DCmp(comparison))),
            Instr::IToD => self.operate_on_last(alloc, code, Instr::IToD, 1),
            Instr::Rescale(p, s) => self.operate_on_last(alloc, code, Instr::Rescale(p, s), 1),
            _ => self.operate_on_many(alloc, code, instr, operands_of(instr)),
        }
    }

    // Puts the result of an operation that goes by each of two values in their place.
    #[inline(always)]
    fn operate_on_pair(&mut self, code: &ProgramParts, instr: Instr) -> Option<Halt>
        requires at { self.old.at < 2 ^ 32 }
        requires few { goes_by_list instr ≡ false }
        requires scales { HasScalesFor instr self.old.operands.stack }
        requires operands { operation_operands (kind_of instr) ≡ Some 2 }
        ensures { (told : UnitTold) → IsQuietStep (perform code.now (kind_of instr) (machine_of_state self.old told)) told self.new result }
    {
        let Some(operands) = self.operands.last(2) else {
            return Some(Halt::Stuck);
        };
        match computed_from_pair(instr, operands) {
            Err(fault) => Some(Halt::Faulted(fault)),
            Ok(value) => {
                self.operands.replace_two(value);
                self.at += 1;
                None
            }
        }
    }

    // Puts the result of an operation in the place of its operands; a call of its own, so that the loop stays short.
    #[inline(never)]
    fn operate_on_many(
        &mut self,
        alloc: Global,
        code: &ProgramParts,
        instr: Instr,
        n: usize,
    ) -> Result<Option<Halt>, OutOfMemory>
        requires at { self.old.at < 2 ^ 32 }
        requires bounds { IsTrue (has_type_in_bounds instr) }
        requires scales { HasScalesFor instr self.old.operands.stack }
        requires operands { operation_operands (kind_of instr) ≡ Some n }
        ensures { IfOk result (λ halt. (told : UnitTold) → IsQuietStep (perform code.now (kind_of instr) (machine_of_state self.old told)) told self.new halt) }
    {
        self.operate_on_last(alloc, code, instr, n)
    }

    // Puts the result of an operation in the place of its operands.
    #[inline(always)]
    fn operate_on_last(
        &mut self,
        alloc: Global,
        code: &ProgramParts,
        instr: Instr,
        n: usize,
    ) -> Result<Option<Halt>, OutOfMemory>
        requires at { self.old.at < 2 ^ 32 }
        requires bounds { IsTrue (has_type_in_bounds instr) }
        requires scales { HasScalesFor instr self.old.operands.stack }
        requires operands { operation_operands (kind_of instr) ≡ Some n }
        ensures { IfOk result (λ halt. (told : UnitTold) → IsQuietStep (perform code.now (kind_of instr) (machine_of_state self.old told)) told self.new halt) }
    {
        let Some(operands) = self.operands.last(n) else {
            return Ok(Some(Halt::Stuck));
        };
        match computed(alloc, instr, operands) {
            Err(Stop::Refused(fault)) => Ok(Some(Halt::Faulted(fault))),
            Err(Stop::OutOfMemory) => Err(OutOfMemory),
            Ok(value) => {
                self.operands.replace_last(n, value)?;
                self.at += 1;
                Ok(None)
            }
        }
    }

    // Puts the value of a constant on top of the operands, null where there is none.
    #[inline]
    fn load_constant(
        &mut self,
        alloc: Global,
        code: &ProgramParts,
        number: u32,
    ) -> Result<Option<Halt>, OutOfMemory>
        requires { self.old.at < 2 ^ 32 }
        ensures { IfOk result (λ halt. (told : UnitTold) → IsQuietStep (perform code.now (Loads (OfConstant number)) (machine_of_state self.old told)) told self.new halt) }
    {
        push_constant(
            alloc,
            &mut self.operands,
            code.constants.as_slice(),
            number as usize,
        )?;
        self.at += 1;
        Ok(None)
    }

    // Puts the value of a slot on top of the operands, null where there is none.
    #[inline]
    fn load_slot(
        &mut self,
        alloc: Global,
        code: &ProgramParts,
        number: u32,
    ) -> Result<Option<Halt>, OutOfMemory>
        requires { self.old.at < 2 ^ 32 }
        ensures { IfOk result (λ halt. (told : UnitTold) → IsQuietStep (perform code.now (Loads (OfSlot number)) (machine_of_state self.old told)) told self.new halt) }
    {
        self.operands
            .push_at(alloc, self.slots.as_slice(), number as usize)?;
        self.at += 1;
        Ok(None)
    }

    // Puts the value of a local on top of the operands, null where there is none.
    #[inline]
    fn load_local(
        &mut self,
        alloc: Global,
        code: &ProgramParts,
        number: u32,
    ) -> Result<Option<Halt>, OutOfMemory>
        requires { self.old.at < 2 ^ 32 }
        ensures { IfOk result (λ halt. (told : UnitTold) → IsQuietStep (perform code.now (Loads (OfLocal number)) (machine_of_state self.old told)) told self.new halt) }
    {
        self.operands
            .push_at(alloc, self.locals.own(), number as usize)?;
        self.at += 1;
        Ok(None)
    }

    // Pops the topmost operand into a slot.
    #[inline]
    fn store_slot(&mut self, number: u32) -> Option<Halt>
        requires { self.old.at < 2 ^ 32 }
        ensures { (told : UnitTold) → IsQuietStep (on_desk (top_into (IntoSlot number) self.old.operands.stack (desk_of_state self.old)) (machine_of_state self.old told)) told self.new result }
    {
        let Some(value) = self.operands.pop() else {
            return Some(Halt::Stuck);
        };
        set(&mut self.slots, number as usize, value);
        self.at += 1;
        None
    }

    // Pops the topmost operand into a local.
    #[inline]
    fn store_local(&mut self, number: u32) -> Option<Halt>
        requires { self.old.at < 2 ^ 32 }
        ensures { (told : UnitTold) → IsQuietStep (on_desk (top_into (IntoLocal number) self.old.operands.stack (desk_of_state self.old)) (machine_of_state self.old told)) told self.new result }
    {
        let Some(value) = self.operands.pop() else {
            return Some(Halt::Stuck);
        };
        self.locals.set(number as usize, value);
        self.at += 1;
        None
    }

    // Pops the topmost operand into a parameter.
    #[inline]
    fn store_parameter(&mut self, number: u32) -> Option<Halt>
        requires { self.old.at < 2 ^ 32 }
        ensures { (told : UnitTold) → IsQuietStep (on_desk (top_into (IntoParameter number) self.old.operands.stack (desk_of_state self.old)) (machine_of_state self.old told)) told self.new result }
    {
        let Some(value) = self.operands.pop() else {
            return Some(Halt::Stuck);
        };
        set(&mut self.parameters, number as usize, value);
        self.at += 1;
        None
    }

    // Drops the topmost operand.
    #[inline]
    fn discard(&mut self) -> Option<Halt>
        requires { self.old.at < 2 ^ 32 }
        ensures { (told : UnitTold) → IsQuietStep (on_desk (without_top self.old.operands.stack (desk_of_state self.old)) (machine_of_state self.old told)) told self.new result }
    {
        let Some(_value) = self.operands.pop() else {
            return Some(Halt::Stuck);
        };
        self.at += 1;
        None
    }

    // Begins a step of the budget.
    #[inline]
    fn tick(&mut self, place: Place) -> Option<Halt>
        requires { self.old.at < 2 ^ 32 }
        ensures { (told : UnitTold) → IsQuietStep (on_step self.old.left place (machine_of_state self.old told)) told self.new result }
    {
        self.place = place;
        if self.left == 0 {
            return Some(Halt::Faulted(Fault::BudgetSpent));
        }
        self.left -= 1;
        self.at += 1;
        None
    }

    // Goes on at the target.
    #[inline]
    fn jump(&mut self, target: u32) -> Option<Halt>
        ensures { (told : UnitTold) → IsQuietStep (goes_to target (desk_of_state self.old) (progress_of_state self.old told) (machine_of_state self.old told)) told self.new result }
    {
        self.at = target as usize;
        None
    }

    // Pops a condition, and goes on at the target where it comes out so.
    #[inline]
    fn test(&mut self, wanted: bool, target: u32) -> Option<Halt>
        requires { self.old.at < 2 ^ 32 }
        ensures { (told : UnitTold) → IsQuietStep (on_condition wanted target self.old.operands.stack (machine_of_state self.old told)) told self.new result }
    {
        let Some(value) = self.operands.pop() else {
            return Some(Halt::Stuck);
        };
        self.at = place_tested(wanted, is_true(&value), target as usize, self.at + 1);
        None
    }

    // Takes the arguments of a call off the operands, the first one on top, and tells whether there are so many.
    #[tactic(auto, using(crate::proofs::CallLemmas::take_next, crate::proofs::CallLemmas::take_short))]
    fn take(&mut self, number: usize) -> Result<bool, OutOfMemory>
        ensures taken { IfOk result (λ enough. AreTaken enough (take_off number [] self.old.operands.stack) self.new.arguments self.new.operands.stack) }
        ensures below { self.new.operands.below ≡ self.old.operands.below }
        ensures rest { self.new ≡ record self.old { operands = self.new.operands; arguments = self.new.arguments } }
    {
        self.arguments.clear();
        let mut left = number;
        while left > 0 {
            let Some(value) = self.operands.pop() else {
                return Ok(false);
            };
            self.arguments.push(value)?;
            left -= 1;
        }
        Ok(true)
    }

    // Calls a method.
    #[inline(never)]
    fn call(&mut self, code: &ProgramParts, number: u32) -> Result<Option<Halt>, OutOfMemory>
        requires { self.old.at < 2 ^ 32 }
        ensures { IfOk result (λ halt. (told : UnitTold) → IsQuietStep (perform code.now (Enters number) (machine_of_state self.old told)) told self.new halt) }
    {
        let Some(method) = code.methods.get(number as usize) else {
            return Ok(Some(Halt::Stuck));
        };
        self.call_method(method, number)
    }

    // Calls this method.
    #[tactic(auto, using(crate::proofs::CallLemmas::frames_number))]
    fn call_method(&mut self, method: &MethodPart, number: u32) -> Result<Option<Halt>, OutOfMemory>
        requires { self.old.at < 2 ^ 32 }
        ensures { IfOk result (λ halt. (told : UnitTold) → IsQuietStep (on_method number (Some method.now) (machine_of_state self.old told)) told self.new halt) }
    {
        if !self.take(method.parameters.len())? {
            return Ok(Some(Halt::Stuck));
        }
        if self.left == 0 {
            return Ok(Some(Halt::Faulted(Fault::BudgetSpent)));
        }
        self.left -= 1;
        if self.frames.len() >= CALL_DEPTH {
            return Ok(Some(Halt::Faulted(Fault::DepthReached)));
        }
        let caller = Waiting {
            operands: self.operands.enter(),
            locals: self.locals.enter(),
            place: self.place,
            to: self.at + 1,
            callee: number,
        };
        self.frames.push(caller)?;
        self.locals.fill(&mut self.arguments, method.locals.len())?;
        self.at = method.entry as usize;
        Ok(None)
    }

    // Goes back to the last caller.
    #[inline(never)]
    fn go_back(
        &mut self,
        alloc: Global,
        code: &ProgramParts,
        has_result: bool,
    ) -> Result<Option<Halt>, OutOfMemory>
        ensures { IfOk result (λ halt. (told : UnitTold) → IsQuietStep (perform code.now (GoesBack has_result) (machine_of_state self.old told)) told self.new halt) }
    {
        if !has_result {
            return self.resume(alloc, code, None);
        }
        let Some(value) = self.operands.pop() else {
            return Ok(Some(Halt::Stuck));
        };
        self.resume(alloc, code, Some(value))
    }

    // Goes back to the last caller with this result, or with none.
    fn resume(
        &mut self,
        alloc: Global,
        code: &ProgramParts,
        returned: Option<Value>,
    ) -> Result<Option<Halt>, OutOfMemory>
        ensures { IfOk result (λ halt. (told : UnitTold) (stack : Row) → IsQuietStep (on_return code.now (Some (as_list returned)) (machine_of_state self.old told).frames (with_operands stack (machine_of_state self.old told))) told self.new halt) }
    {
        let Some(caller) = self.frames.pop() else {
            return Ok(Some(Halt::Stuck));
        };
        let Some(method) = code.methods.get(caller.callee as usize) else {
            return Ok(Some(Halt::Stuck));
        };
        self.operands.leave(caller.operands);
        self.operands.push_some(returned)?;
        self.pass_back(alloc, method.parameters.as_slice())?;
        self.locals.leave(caller.locals);
        self.place = caller.place;
        self.at = caller.to;
        Ok(None)
    }

    // Puts the last values of in_out parameters on top of the caller's operands, in order.
    #[tactic(auto, using(crate::proofs::CallLemmas::passing))]
    fn pass_back(&mut self, alloc: Global, parameters: &[ParameterPart]) -> Result<(), OutOfMemory>
        ensures stack { OnOk result (self.new.operands.stack ≡ with_in_outs parameters.now self.old.locals.own self.old.operands.stack) }
        ensures below { OnOk result (self.new.operands.below ≡ self.old.operands.below) }
        ensures rest { self.new ≡ record self.old { operands = self.new.operands } }
    {
        for (number, parameter) in parameters.iter().enumerate() {
            let Some(value) = self.locals.own().get(number) else {
                return Ok(());
            };
            self.operands.push_where(alloc, parameter.is_in_out, value)?;
        }
        Ok(())
    }

    // Calls a hash object.
    #[inline(never)]
    fn call_hash(
        &mut self,
        alloc: Global,
        code: &ProgramParts,
        function: HashFunction,
        number: u32,
    ) -> Result<Option<Halt>, OutOfMemory>
        requires { self.old.at < 2 ^ 32 }
        ensures { IfOk result (λ halt. (told : UnitTold) → IsQuietStep (perform code.now (CallsHash function number) (machine_of_state self.old told)) told self.new halt) }
    {
        let Some(part) = code.hashes.get(number as usize) else {
            return Ok(Some(Halt::Stuck));
        };
        self.call_object(alloc, code, function, number, part)
    }

    // Calls this hash object.
    fn call_object(
        &mut self,
        alloc: Global,
        code: &ProgramParts,
        function: HashFunction,
        number: u32,
        part: &HashPart,
    ) -> Result<Option<Halt>, OutOfMemory>
        requires { self.old.at < 2 ^ 32 }
        ensures { IfOk result (λ halt. (told : UnitTold) → IsQuietStep (on_desk (hash_called code.now function number (Some part.now) (desk_of_state self.old)) (machine_of_state self.old told)) told self.new halt) }
    {
        let object = NumberedPart {
            number: number as usize,
            part,
        };
        let walked = code.iterators.as_slice();
        let given = self
            .objects
            .call(alloc, function, object, walked, &mut self.slots)?;
        self.operands.push(given)?;
        self.at += 1;
        Ok(None)
    }

    // Calls an iterator.
    #[inline(never)]
    fn call_iterator(
        &mut self,
        alloc: Global,
        code: &ProgramParts,
        function: IteratorFunction,
        number: u32,
    ) -> Result<Option<Halt>, OutOfMemory>
        requires { self.old.at < 2 ^ 32 }
        ensures { IfOk result (λ halt. (told : UnitTold) → IsQuietStep (perform code.now (CallsIterator function number) (machine_of_state self.old told)) told self.new halt) }
    {
        let Some(object) = code.iterators.get(number as usize) else {
            return Ok(Some(Halt::Stuck));
        };
        self.move_iterator(alloc, code, function, number, *object)
    }

    // Calls an iterator of this hash object.
    fn move_iterator(
        &mut self,
        alloc: Global,
        code: &ProgramParts,
        function: IteratorFunction,
        number: u32,
        object: u32,
    ) -> Result<Option<Halt>, OutOfMemory>
        requires { self.old.at < 2 ^ 32 }
        ensures { IfOk result (λ halt. (told : UnitTold) → IsQuietStep (on_desk (iterator_moved function number object (slice_get code.now.hashes object) (desk_of_state self.old)) (machine_of_state self.old told)) told self.new halt) }
    {
        let Some(part) = code.hashes.get(object as usize) else {
            return Ok(Some(Halt::Stuck));
        };
        self.walk(alloc, function, number, object, part)
    }

    // Calls an iterator of a hash object that has this part.
    fn walk(
        &mut self,
        alloc: Global,
        function: IteratorFunction,
        number: u32,
        object: u32,
        part: &HashPart,
    ) -> Result<Option<Halt>, OutOfMemory>
        requires { self.old.at < 2 ^ 32 }
        ensures { IfOk result (λ halt. (told : UnitTold) → IsQuietStep (on_desk (iterator_moved function number object (Some part.now) (desk_of_state self.old)) (machine_of_state self.old told)) told self.new halt) }
    {
        let object = NumberedPart {
            number: object as usize,
            part,
        };
        let given = self
            .objects
            .iterate(alloc, function, number as usize, object, &mut self.slots)?;
        self.operands.push(given)?;
        self.at += 1;
        Ok(None)
    }

    // Gives a row of an output to the sink.
    #[inline(never)]
    fn write<S: UnitSink>(
        &mut self,
        alloc: Global,
        code: &ProgramParts,
        number: u32,
        sink: &mut S,
    ) -> Result<Option<Halt>, OutOfMemory>
        requires { self.old.at < 2 ^ 32 }
        ensures { IfOk result (λ halt. IsSunkStep S.has_taken sink.old sink.new (λ told. perform code.now (Writes number) (machine_of_state self.old told)) self.new halt) }
    {
        let Some(output) = code.outputs.get(number as usize) else {
            return Ok(Some(Halt::Stuck));
        };
        sink.take_row(alloc, number, output, self.slots.as_slice())?;
        self.at += 1;
        Ok(None)
    }

    // Gives a line of the topmost operands to the sink.
    #[inline(never)]
    fn put<S: UnitSink>(
        &mut self,
        alloc: Global,
        n: usize,
        sink: &mut S,
    ) -> Result<Option<Halt>, OutOfMemory>
        requires { self.old.at < 2 ^ 32 }
        ensures { IfOk result (λ halt. IsSunkStep S.has_taken sink.old sink.new (λ told. on_texts (take_off n [] self.old.operands.stack) (machine_of_state self.old told)) self.new halt) }
    {
        let Some(operands) = self.operands.last(n) else {
            return Ok(Some(Halt::Stuck));
        };
        write_line(alloc, operands, &mut self.line)?;
        sink.take_line(alloc, self.line.as_str())?;
        self.operands.drop_last(n);
        self.at += 1;
        Ok(None)
    }
}

// Puts the value of a constant on top of operands, null where there is none.
#[inline]
fn push_constant(
    alloc: Global,
    operands: &mut Pile,
    constants: &[Constant],
    number: usize,
) -> Result<(), OutOfMemory>
    ensures stack { OnOk result (operands.new.stack ≡ constant_value number constants.now ∷ operands.old.stack) }
    ensures below { OnOk result (operands.new.below ≡ operands.old.below) }
{
    match constants.get(number) {
        None => operands.push(Value::Null),
        Some(constant) => operands.push_copy(alloc, &constant.value),
    }
}

// Where a test that came out so goes.
#[inline]
fn place_tested(wanted: bool, holds: bool, target: usize, next: usize) -> usize
    ensures { result ≡ place_tested wanted holds target next }
{
    if wanted == holds { target } else { next }
}

// Whether a condition holds.
#[inline]
fn is_true(value: &Value) -> bool
    ensures { result ≡ is_true value.now }
{
    match value.truth() {
        Truth::Yes => true,
        Truth::No | Truth::Unknown => false,
    }
}
