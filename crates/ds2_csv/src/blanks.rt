//! Blanks of a header cell.
ghost use Rattle.std.specs.Prelude.{◌≡◌, ◌<◌, ◌≤◌, length, take, slice_index, IfSome};
ghost use Rattle.ds2_csv_cells.specs.Spelling.{is_blank};
ghost use Rattle.ds2_csv.specs.Header.{last_place, without_last_blanks, trimmed_cell};

use ds2_csv_records::without_front;

fn is_blank(c: u8) -> bool
    ensures { result ≡ is_blank c }
{
    c == b' ' || c == b'\t'
}

/// Where the last blank stands.
pub fn last_blank(bytes: &[u8]) -> Option<usize>
    ensures place { result ≡ last_place is_blank bytes.now }
    ensures within { IfSome result (λ i. i < length bytes.now) }
    ensures blank { IfSome result (λ i. slice_index bytes.now i < 128) }
{
    let mut last = None;
    'bytes: for (i, c) in bytes.iter().enumerate() {
        if is_blank(*c) {
            last = Some(i);
        }
    }
    last
}

// How many bytes stand up to the last that is no blank.
fn text_end(bytes: &[u8]) -> usize
    ensures text { take result bytes.now ≡ without_last_blanks bytes.now }
    ensures within { result ≤ length bytes.now }
    ensures blank { result < length bytes.now → slice_index bytes.now result < 128 }
{
    let mut end = bytes.len();
    'bytes: while end > 0 {
        if !is_blank(bytes[end - 1]) {
            return end;
        }
        end -= 1;
    }
    0
}

/// The cell without the blanks at its ends.
pub fn without_blanks(cell: &str) -> &str
    ensures { result.now ≡ trimmed_cell cell.now }
{
    let front = cell.split_at(text_end(cell.as_bytes())).0;
    without_front(front, b' ', b'\t')
}
