//! The text of an answer.
//!
//! Contents are told as lines `| TEXT`, with `+ TEXT` for what no line feed ends. Ten or more equal lines, and eighty or more
//! equal characters, are told as `repeat N TEXT`. A control character, a byte order mark, a backslash and a blank at the end
//! of a text are told by an escape; of bytes that are no UTF-8, each that is no ASCII.
//! Where a case does not show counts, its log has a letter for each; where it does not show objects, each has its name alone.

use std::alloc::{AllocError, Global};

// From here on equal lines are told once.
const MANY_LINES: u64 = 10;

// From here on equal characters are told once.
const MANY_CHARACTERS: u64 = 80;

// Adds a byte as its escape of two hexadecimal digits.
fn add_hex(byte: u8, out: &mut String) -> Result<(), AllocError> {
    write!(out, "\\x{byte:02x}")
}

/// Adds a character, or its escape.
fn add_char(c: char, out: &mut String) -> Result<(), AllocError> {
    match c {
        '\\' => out.push_str("\\\\"),
        '\n' => out.push_str("\\n"),
        '\r' => out.push_str("\\r"),
        '\t' => out.push_str("\\t"),
        '\u{feff}' => out.push_str("\\xef\\xbb\\xbf"),
        '\0'..='\u{1f}' | '\u{7f}' => add_hex(c as u8, out),
        _ => out.push(c),
    }
}

/// Adds a text with its escapes.
fn add_text(text: &str, out: &mut String) -> Result<(), AllocError> {
    for c in text.chars() {
        add_char(c, out)?;
    }
    Ok(())
}

// Adds a line of the answer: its first word and a text that has its escapes.
fn add_line(word: &str, text: &str, out: &mut String) -> Result<(), AllocError> {
    out.push_str(word)?;
    if text.is_empty() {
        return out.push('\n');
    }
    match text.strip_suffix(' ') {
        Some(text) => writeln!(out, " {text}\\s"),
        None => writeln!(out, " {text}"),
    }
}

// Equal characters that stand one behind the other in a line, and the text with escapes before them.
#[derive(Drop)]
struct Run {
    before: String,
    character: char,
    count: u64,
}

impl Run {
    // Adds the characters to the text before them, or tells how many they are.
    fn close(&mut self, alloc: Global, out: &mut String) -> Result<(), AllocError> {
        if self.count < MANY_CHARACTERS {
            for _ in 0..self.count {
                add_char(self.character, &mut self.before)?;
            }
            return Ok(());
        }
        if !self.before.is_empty() {
            add_line("+", self.before.as_str(), out)?;
        }
        self.before = String::new(alloc);
        let count = self.count;
        let mut told = format!(in alloc; "{count} ")?;
        add_char(self.character, &mut told)?;
        add_line("repeat", told.as_str(), out)
    }

    fn add(&mut self, alloc: Global, c: char, out: &mut String) -> Result<(), AllocError> {
        if c == self.character {
            self.count = self.count.saturating_add(1);
            return Ok(());
        }
        self.close(alloc, out)?;
        self.character = c;
        self.count = 1;
        Ok(())
    }
}

// Adds the lines that tell a text without a line feed: all but the rest, which is given back.
fn add_runs(alloc: Global, text: &str, out: &mut String) -> Result<String, AllocError> {
    let mut run = Run {
        before: String::new(alloc),
        character: ' ',
        count: 0,
    };
    for c in text.chars() {
        run.add(alloc, c, out)?;
    }
    run.close(alloc, out)?;
    Ok(run.before)
}

// Adds a line of contents so many times.
fn add_lines(alloc: Global, line: &str, times: u64, out: &mut String) -> Result<(), AllocError> {
    if times >= MANY_LINES {
        let mut told = format!(in alloc; "{times} ")?;
        add_text(line, &mut told)?;
        told.push_str("\\n")?;
        return add_line("repeat", told.as_str(), out);
    }
    for _ in 0..times {
        let rest = add_runs(alloc, line, out)?;
        add_line("|", rest.as_str(), out)?;
    }
    Ok(())
}

// Adds lines of contents, each ended by a line feed, which stands between two of them here.
fn add_body(alloc: Global, body: &str, out: &mut String) -> Result<(), AllocError> {
    let mut last = "";
    let mut times = 0u64;
    for line in body.split('\n') {
        if line == last {
            times = times.saturating_add(1);
        } else {
            add_lines(alloc, last, times, out)?;
            last = line;
            times = 1;
        }
    }
    add_lines(alloc, last, times, out)
}

// Adds what stands behind the last line feed.
fn add_tail(alloc: Global, tail: &str, out: &mut String) -> Result<(), AllocError> {
    let rest = add_runs(alloc, tail, out)?;
    if rest.is_empty() {
        return Ok(());
    }
    add_line("+", rest.as_str(), out)
}

// Adds bytes that are no UTF-8 as one text.
fn add_bytes(alloc: Global, bytes: &[u8], out: &mut String) -> Result<(), AllocError> {
    let mut text = String::new(alloc);
    for byte in bytes {
        if byte.is_ascii() {
            add_char(*byte as char, &mut text)?;
        } else {
            add_hex(*byte, &mut text)?;
        }
    }
    add_line("+", text.as_str(), out)
}

/// Adds the lines that tell contents.
pub(crate) fn add_contents(
    alloc: Global,
    bytes: &[u8],
    out: &mut String,
) -> Result<(), AllocError> {
    let Ok(text) = str::from_utf8(bytes) else {
        return add_bytes(alloc, bytes, out);
    };
    match text.rsplit_once('\n') {
        Some((body, tail)) => {
            add_body(alloc, body, out)?;
            add_tail(alloc, tail, out)
        }
        None => add_tail(alloc, text, out),
    }
}

// Whether a line tells how many instructions were executed.
fn is_count(line: &str) -> bool {
    let Some(rest) = line.strip_prefix("NOTE: ") else {
        return false;
    };
    match rest.strip_suffix(" instructions.\n") {
        Some(digits) => digits.bytes().all(|byte| byte.is_ascii_digit()),
        None => false,
    }
}

// A line that tells the length of an object, up to the length.
fn before_length(line: &str) -> Option<&str> {
    let rest = line.strip_suffix(" bytes.\n")?;
    rest.strip_prefix("NOTE: Object ")?;
    let (before, _) = rest.rsplit_once(' ')?;
    Some(before)
}

/// The text of a log with the letter K for each number of instructions and the letter B for the length of an object.
pub(crate) fn without_counts(alloc: Global, log: &str) -> Result<String, AllocError> {
    let mut out = String::new(alloc);
    for line in log.split_inclusive('\n') {
        if is_count(line) {
            out.push_str("NOTE: K instructions.\n")?;
        } else if let Some(before) = before_length(line) {
            writeln!(out, "{before} B bytes.")?;
        } else {
            out.push_str(line)?;
        }
    }
    Ok(out)
}

/// Adds a line with a name or a title.
pub(crate) fn add_named(
    alloc: Global,
    word: &str,
    name: &str,
    out: &mut String,
) -> Result<(), AllocError> {
    let mut text = String::new(alloc);
    add_text(name, &mut text)?;
    add_line(word, text.as_str(), out)
}
