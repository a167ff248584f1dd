//! Parts of a text.
ghost use Rattle.std.specs.Prelude.{◌≡◌, ◌==◌, ◌||◌, ◌-◌, ◌<◌, ◌≤◌, drop, length, slice_index};
ghost use Rattle.std.specs.List.{before_first, after_first, position_or_len, prefix_len};

/// How many bytes stand before the first `mark`, or in all where there is none.
pub fn end_of(text: &[u8], mark: u8) -> usize
    ensures end { result ≡ position_or_len (λ c. c == mark) text.now }
    ensures within { result ≤ length text.now }
{
    for (i, c) in text.iter().enumerate() {
        if *c == mark {
            return i;
        }
    }
    text.len()
}

/// What stands before the first `mark` and what stands after it: the whole text and nothing where there is none.
pub fn cut(text: &[u8], mark: u8) -> (&[u8], &[u8])
    ensures part { result.0.now ≡ before_first (λ c. c == mark) text.now }
    ensures rest { result.1.now ≡ after_first (λ c. c == mark) text.now }
    ensures shorter { 0 < length text.now → length result.1.now < length text.now }
{
    let (part, after) = text.split_at(end_of(text, mark));
    match after {
        [] => (part, after),
        [_, rest @ ..] => (part, rest),
    }
}

fn is_either(c: u8, mark: u8, other: u8) -> bool
    ensures { result ≡ ((c == mark) || (c == other)) }
{
    c == mark || c == other
}

// How many bytes at the start are one of two marks.
#[inline(always)]
fn front_len(text: &[u8], mark: u8, other: u8) -> usize
    requires { (mark < 128) × (other < 128) }
    ensures len { result ≡ prefix_len (λ c. (c == mark) || (c == other)) text.now }
    ensures within { result ≤ length text.now }
    ensures ascii { 0 < result → slice_index text.now (result - 1) < 128 }
{
    'bytes: for (i, c) in text.iter().enumerate() {
        if !is_either(*c, mark, other) {
            return i;
        }
    }
    text.len()
}

/// The text without the marks at its start, each of which is one of two ASCII characters.
#[inline(always)]
pub fn without_front(text: &str, mark: u8, other: u8) -> &str
    requires { (mark < 128) × (other < 128) }
    ensures { result.now ≡ drop (prefix_len (λ c. (c == mark) || (c == other)) text.now) text.now }
{
    text.split_at(front_len(text.as_bytes(), mark, other)).1
}
