//! The book of a stage: the sums over its hand-ins, and the least group that faulted.
ghost use Rattle.std.specs.Prelude.{◌≡◌, ℕ, ◌+◌, ◌*◌, ◌^◌, ◌<◌, ◌≤◌, List, [], ◌∷◌, ◌++◌, None, IfSome, nat_eq};
ghost use Rattle.std.proofs.Props.{props};
ghost use Rattle.ds2_schedule.specs.Stage.{HandIn};
ghost use Rattle.ds2_schedule.specs.Sums.{lesser_fault, handed, AreSums};

/// The sums over the hand-ins.
#[derive(Clone, Copy, PartialEq, Eq)]
pub struct Totals {
    /// How many groups were handed in.
    pub groups: u64,
    /// How many rows these have.
    pub rows: u64,
}

/// How much was handed in of a stage with so many groups, and the least group that faulted.
#[derive(Drop)]
pub struct Book {
    groups: u64,
    hand_ins: u64,
    rows: u64,
    fault: Option<u64>,
    ghost few: { (groups ≤ 2 ^ 32) × (hand_ins ≤ 2 ^ 32) },
    ghost bounded: { rows ≤ hand_ins * 2 ^ 31 },
    ghost inside: { IfSome fault (λ f. f < groups) } by { Prim.hlevel props },
}

impl Book {
    /// The book of a stage of at most 2^32 groups, before any hand-in. Takes no memory.
    pub fn open(groups: u64) -> Book
        requires { groups ≤ 2 ^ 32 }
        ensures none { (result.groups ≡ groups) × (result.hand_ins ≡ 0) × (result.rows ≡ 0) × (result.fault ≡ None) }
        ensures sums { AreSums [] result.hand_ins result.rows result.fault }
    {
        Book {
            groups,
            hand_ins: 0,
            rows: 0,
            fault: None,
        }
    }

    /// The number of groups of the stage.
    pub fn groups(&self) -> u64
        ensures { result ≡ self.now.groups }
    {
        self.groups
    }

    /// Whether 2^32 hand-ins were made, after which there may be no other.
    pub fn full(&self) -> bool
        ensures { result ≡ nat_eq self.now.hand_ins (2 ^ 32) }
    {
        self.hand_ins == 1 << 32
    }

    /// Adds a group that was handed in, with the number of its rows and whether it ended in a fault. Answers the least group that faulted so far; none, where no group did. Takes no memory.
    pub fn hand_in(&mut self, g: u64, rows: u64, faulted: bool) -> Option<u64>
        requires { (self.old.hand_ins < 2 ^ 32) × (rows < 2 ^ 31) × (g < self.old.groups) }
        ensures sums { (self.new.groups ≡ self.old.groups) × (self.new.hand_ins ≡ self.old.hand_ins + 1) × (self.new.rows ≡ self.old.rows + rows) }
        ensures fault { self.new.fault ≡ lesser_fault self.old.fault g faulted }
        ensures all { (before : List HandIn) (party : ℕ) → AreSums before self.old.hand_ins self.old.rows self.old.fault → AreSums (before ++ handed party g rows faulted ∷ []) self.new.hand_ins self.new.rows self.new.fault }
        ensures answer { result ≡ lesser_fault self.old.fault g faulted }
    {
        self.hand_ins += 1;
        self.rows += rows;
        self.fault = lesser(self.fault, g, faulted);
        self.fault
    }

    /// The sums over the hand-ins.
    pub fn totals(&self) -> Totals
        ensures { (result.groups ≡ self.now.hand_ins) × (result.rows ≡ self.now.rows) }
    {
        Totals {
            groups: self.hand_ins,
            rows: self.rows,
        }
    }
}

fn lesser(fault: Option<u64>, g: u64, faulted: bool) -> Option<u64>
    ensures { result ≡ lesser_fault fault g faulted }
{
    match fault {
        None => { if faulted { Some(g) } else { None } }
        Some(f) => { if faulted && g < f { Some(g) } else { Some(f) } }
    }
}
