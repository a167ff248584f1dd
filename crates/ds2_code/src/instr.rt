//! The instructions of the machine.
ghost use Rattle.std.specs.Prelude.{◌≡◌};
ghost use Rattle.ds2_code.specs.CodeBound.{jump_target, falls_through};
ghost use Rattle.ds2_code.specs.InstructionTable.{kind_of};

use ds2_base::Place;
use ds2_value::{Comparison, HashFunction, IteratorFunction, Ty, ValueFunction};

/// One instruction. What it takes from the operand list and what it leaves there is said as `a b -> c`, the last one on top; `Overflow`
/// and the like are the faults that it may give. A null operand makes the result null, unless it is said otherwise.
#[derive(Clone, Copy, PartialEq, Eq)]
pub enum Instr {
    /// `-> value` of constant k.
    Const(u32),
    /// `-> null`, of a type.
    Null(Ty),
    /// `-> value` of a global slot.
    GLoad(u32),
    /// `value ->`, into a global slot of its type.
    GStore(u32),
    /// `-> value` of a local.
    LLoad(u32),
    /// `value ->`, into a local of its type.
    LStore(u32),
    /// `value ->`.
    DropTop,
    /// BIGINT `->` DECIMAL(19,0).
    IToD,
    /// DECIMAL `->` DECIMAL(p,s), rounded; `Overflow`.
    Rescale(u8, u8),
    /// text `->` CHAR(n), cut or filled with blanks.
    Pad(u16),
    /// text `->` VARCHAR(n), cut.
    Cut(u16),
    /// BIGINT BIGINT `->` their sum; `Overflow`.
    IAdd,
    /// BIGINT BIGINT `->` the first less the second; `Overflow`.
    ISub,
    /// BIGINT BIGINT `->` their product; `Overflow`.
    IMul,
    /// BIGINT `->` it with the other sign; `Overflow`.
    INeg,
    /// DECIMAL DECIMAL `->` their sum; `Overflow`.
    DAdd,
    /// DECIMAL DECIMAL `->` the first less the second; `Overflow`.
    DSub,
    /// DECIMAL DECIMAL `->` their product; `Overflow`.
    DMul,
    /// DECIMAL DECIMAL `->` the first by the second, rounded; `Overflow`, `DivideByZero`.
    DDiv,
    /// DECIMAL `->` it with the other sign.
    DNeg,
    /// BIGINT BIGINT `->` 1, 0 or null.
    ICmp(Comparison),
    /// DECIMAL DECIMAL `->` 1, 0 or null, of any two DECIMAL types.
    DCmp(Comparison),
    /// text text `->` 1, 0 or null.
    TCmp(Comparison),
    /// BIGINT BIGINT `->` both hold: 1, 0 or null; 0 where one is 0, also beside null.
    And,
    /// BIGINT BIGINT `->` one of them holds: 1, 0 or null; 1 where one holds, also beside null.
    Or,
    /// BIGINT `->` it does not hold: 1, 0 or null.
    Not,
    /// BIGINT `->` it is not 0: 1, 0 or null.
    ITruth,
    /// DECIMAL `->` it is not 0: 1, 0 or null.
    DTruth,
    /// n values of one type `->` the first that is not null; null where all are.
    Choose(u32),
    /// n numbers of one type `->` the least without the nulls; null where all are.
    Least(u32),
    /// n numbers of one type `->` the greatest without the nulls; null where all are.
    Greatest(u32),
    /// operands `->` a function of them; its fault.
    Apply(ValueFunction),
    /// text text `->` one behind the other, at most 1,024 characters of them.
    Cat,
    /// A step of the budget begins at a place; `BudgetSpent`.
    Tick(Place),
    /// On to the target.
    Jump(u32),
    /// BIGINT `->`, and on to the target where it does not hold.
    JFalse(u32),
    /// BIGINT `->`, and on to the target where it holds.
    JTrue(u32),
    /// arguments `->` what the method leaves; `BudgetSpent`, `DepthReached`.
    Call(u32),
    /// Ends a method without a result: each in_out parameter goes to the caller's operands, in order.
    Ret,
    /// result `->`, and ends a method: the result and each in_out parameter go to the caller's operands, in order.
    RetV,
    /// The fault `NoWhen`.
    NoWhen,
    /// A row of the values of an output's slots.
    Output(u32),
    /// value `->` its text in a line of the log, `null` for null.
    Show,
    /// n texts `->`, a line of the log with them, `null` for a null one.
    Put(u32),
    /// `-> code` of a call of a hash object.
    HCall(u32, HashFunction),
    /// `-> code` of a call of a hash iterator.
    ICall(u32, IteratorFunction),
    /// `value ->`, into a parameter of the thread program that the program reads from.
    SetParm(u32),
    /// The end of a unit.
    End,
}

impl Instr {
    /// Where the run may jump to behind the instruction.
    pub fn jump_target(&self) -> Option<u32>
        ensures { result ≡ jump_target (kind_of self.now) }
    {
        match self {
            Instr::Jump(to) | Instr::JFalse(to) | Instr::JTrue(to) => Some(*to),
            _ => None,
        }
    }

    /// Whether the run may go on with the instruction behind it in the list.
    pub fn falls_through(&self) -> bool
        ensures { result ≡ falls_through (kind_of self.now) }
    {
        match self {
            Instr::Jump(_) | Instr::Ret | Instr::RetV | Instr::NoWhen | Instr::End => false,
            _ => true,
        }
    }
}
