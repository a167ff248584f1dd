//! What can be wrong with a file of cases.

use ds2_base::Stop;
use thiserror::Error;

/// Why a line of cases can't be read.
#[derive(Clone, Copy, Debug, PartialEq, Eq, Error)]
pub enum Mistake {
    #[error("a line begins with case, given, words, first, file, without, fail, tear, spoil, cut, show, alone, gate, |, +, repeat or #")]
    UnknownWord,
    #[error("a title, a name or a word is missing")]
    Missing,
    #[error("one blank stands between words, and `\\e` for a word without a character")]
    EmptyWord,
    #[error("text belongs to a file: a line `file NAME` stands before it")]
    NoFile,
    #[error("behind `\\` stands one of `\\ n r t s e i`, or `x` and two hexadecimal digits")]
    BadEscape,
    #[error("`repeat` is followed by how often, in digits, and the text")]
    BadRepeat,
    #[error("`fail` is followed by `store` or `log` and the numbers of the calls that fail, from 1")]
    BadFail,
    #[error("`tear` is followed by `store`, the number of a call, from 1, and how many bytes stand")]
    BadTear,
    #[error("`spoil` is followed by a file and a byte, 0 to 255")]
    BadSpoil,
    #[error("the file that is spoiled or cut is not there")]
    NoDamaged,
    #[error("`calls`, `counts` and `objects` are all that can be shown beside the answer")]
    BadShow,
    #[error("`gate` is followed by two groups and a number of workers")]
    BadGate,
    #[error("a title, a name and a word are UTF-8")]
    NotUtf8,
}

/// Why cases can't be read or run.
#[derive(Debug, Drop, Error)]
pub enum CaseError {
    #[error("line {line} of the cases: {mistake}")]
    Line { line: usize, mistake: Mistake },
    #[error("a case: {0}")]
    Case(Mistake),
    #[error("there was no memory")]
    OutOfMemory,
}

impl CaseError {
    /// The error of a line.
    pub fn of_line(line: usize, stop: Stop<Mistake>) -> CaseError {
        match stop {
            Stop::Refused(mistake) => CaseError::Line { line, mistake },
            Stop::OutOfMemory => CaseError::OutOfMemory,
        }
    }
}
