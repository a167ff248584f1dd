//! Words: names of files, and numbers.
ghost use Rattle.std.specs.Prelude.{◌≡◌, ◌≤◌, IfSome};
ghost use Rattle.std.specs.Char.{is_ascii_digit};
ghost use Rattle.std.specs.List.{list_all};
ghost use Rattle.ds2_answer.specs.Words.{has_name_form, is_file_char, is_file_name, is_number, is_source, number_within};

/// The budget of a line without `--budget`.
pub const DEFAULT_BUDGET: u64 = 10_000_000;

/// The most steps that a budget may have.
pub const MOST_BUDGET: u64 = 1_000_000_000;

fn is_file_char(c: u8) -> bool
    ensures { result ≡ is_file_char c }
{
    c.is_ascii_alphanumeric() || c == b'_' || c == b'-' || c == b'.'
}

fn has_file_chars(word: &[u8]) -> bool
    ensures { result ≡ list_all is_file_char word.now }
{
    word.iter().all(|c| is_file_char(*c))
}

pub(crate) fn has_digits(word: &[u8]) -> bool
    ensures { result ≡ list_all is_ascii_digit word.now }
{
    word.iter().all(|c| c.is_ascii_digit())
}

fn has_name_form(word: &[u8]) -> bool
    ensures { result ≡ has_name_form word.now }
{
    word.len() >= 5 && word.len() <= 100 && has_file_chars(word)
}

// Whether a word may name a file; its ending is not looked at.
pub(crate) fn is_file_name(word: &str) -> bool
    ensures { result ≡ is_file_name word.now }
{
    let bytes = word.as_bytes();
    match bytes {
        [first, ..] => *first != b'-' && *first != b'.' && has_name_form(bytes),
        [] => false,
    }
}

pub(crate) fn is_source(word: &str) -> bool
    ensures { result ≡ is_source word.now }
{
    is_file_name(word) && word.as_bytes().ends_with(b".ds2")
}

fn is_number(word: &str) -> bool
    ensures { result ≡ is_number word.now }
{
    let bytes = word.as_bytes();
    match bytes {
        [first, ..] => *first != b'0' && has_digits(bytes),
        [] => false,
    }
}

pub(crate) fn number_within(word: &str, most: u64) -> Option<u64>
    ensures number { result ≡ number_within most word.now }
    ensures within { IfSome result (λ number. number ≤ most) }
{
    if !is_number(word) {
        return None;
    }
    match word.parse::<u64>() {
        Ok(number) if number <= most => Some(number),
        Ok(_) => None,
        Err(_) => None,
    }
}
