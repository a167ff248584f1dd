//! What a command ends with.
ghost use Rattle.std.specs.Prelude.{◌≡◌};

/// How a command ends. Kinds and places stand in the log. A new one touches the files that docs/ARCHITECTURE.md lists under 'To
/// add a status'.
#[derive(Clone, Copy, PartialEq, Eq)]
pub enum Status {
    /// All was done.
    Done,
    /// The words are no command.
    Usage,
    /// The source is refused.
    Source,
    /// A file is refused.
    File,
    /// An output stands in the store already.
    Exists,
    /// A program has ended in a fault of its own.
    Fault,
    /// A read, or the question for a file, has failed.
    Read,
    /// A write has failed.
    Write,
    /// The log was refused after all else was done.
    Log,
    /// An object is refused.
    Object,
    /// There was no memory.
    Memory,
}

impl Status {
    ghost use Rattle.ds2_answer.specs.Status.{code_of};

    /// The number with which the process ends.
    pub fn code(&self) -> u8
        ensures { result ≡ code_of self.now }
    {
        match self {
            Status::Done => 0,
            Status::Usage => 2,
            Status::Source => 3,
            Status::File => 4,
            Status::Exists => 5,
            Status::Fault => 6,
            Status::Read => 7,
            Status::Write => 8,
            Status::Log => 9,
            Status::Object => 10,
            Status::Memory => 11,
        }
    }
}
