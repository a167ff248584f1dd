//! Marks of the values that are null. Values behind the last mark are not.
ghost use Rattle.std.specs.Prelude.{◌≡◌, ◌+◌, ◌≤◌, length, get_or, OnOk, OnErr, false};
ghost use Rattle.ds2_columns.specs.Marks.{MarkNext, SayTheSame};

use ds2_base::{List, OutOfMemory};

/// Whether the value in a row is marked.
#[inline]
pub(crate) fn is_marked(marks: &[bool], row: usize) -> bool
    ensures { result ≡ get_or marks.now row false }
{
    match marks.get(row) {
        None => false,
        Some(mark) => *mark,
    }
}

/// Marks the value in `row`, which is behind all that are marked. After a refusal the same ones are marked as before.
#[tactic(auto, using(crate::proofs::NullMarks::none_yet, crate::proofs::NullMarks::one_more, crate::proofs::NullMarks::next_marked))]
pub(crate) fn mark(marks: &mut List<bool>, row: usize) -> Result<(), OutOfMemory>
    requires { length marks.old ≤ row }
    ensures count { length marks.new ≤ row + 1 }
    ensures ok { OnOk result (MarkNext row marks.old marks.new) }
    ensures err_count { OnErr result (length marks.new ≤ row) }
    ensures err { OnErr result (SayTheSame row marks.old marks.new) }
{
    'rows: while marks.len() < row {
        marks.push(false)?;
    }
    marks.push(true)
}
