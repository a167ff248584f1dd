//! A block of a file of cases: a case, or what is given for the cases that follow.

use crate::contents::{CaseFile, Piece};
use crate::damage::{Damage, Damaged, spoiled_by};
use crate::escape::unescape_text;
use crate::meeting::Meeting;
use crate::mistake::Mistake;
use ds2_base::{Stop, Text};
use ds2_outside::Tear;
use std::alloc::Global;

/// The command, the files and the calls that fail.
#[derive(Drop)]
pub(crate) struct Setting {
    /// The words after the program's name, where a line tells them.
    pub(crate) words: Option<Vec<Text>>,
    /// The words of a command that runs over the given files before the case.
    pub(crate) first_words: Option<Vec<Text>>,
    pub(crate) files: Vec<CaseFile>,
    /// The names of files that are not there, of those that are given or left by the command before.
    pub(crate) without: Vec<Text>,
    /// The calls of the store and of the log that fail, counted from 1.
    pub(crate) failing: Vec<u64>,
    pub(crate) failing_logs: Vec<u64>,
    /// The calls of the store that are torn.
    pub(crate) tears: Vec<Tear>,
    /// The file for each of whose bytes the case is run, where there is one.
    pub(crate) damaged: Option<Damaged>,
    /// Whether the answer tells the calls of the store.
    pub(crate) shows_calls: bool,
    /// Whether the answer tells the numbers of instructions and the lengths of objects.
    pub(crate) shows_counts: bool,
    /// Whether the answer tells the bytes of objects.
    pub(crate) shows_objects: bool,
    /// Whether the command runs by the call without threads alone.
    pub(crate) is_alone: bool,
    /// Which group waits for which at the gate of the call with threads, where one does.
    pub(crate) meeting: Option<Meeting>,
}

/// A case with its title, or what is given for the cases that follow, where there is no title.
#[derive(Drop)]
pub(crate) struct Block {
    pub(crate) title: Option<Text>,
    pub(crate) setting: Setting,
}

// The words of a line, one blank between them.
fn words_of(alloc: Global, line: &str) -> Result<Vec<Text>, Stop<Mistake>> {
    let mut words = Vec::new(alloc);
    if line.is_empty() {
        return Ok(words);
    }
    for word in line.split(' ') {
        if word.is_empty() {
            return Err(Stop::Refused(Mistake::EmptyWord));
        }
        words.push(unescape_text(alloc, word)?)?;
    }
    Ok(words)
}

// The name that a line tells.
fn name_of(alloc: Global, line: &str) -> Result<Text, Stop<Mistake>> {
    if line.is_empty() {
        return Err(Stop::Refused(Mistake::Missing));
    }
    unescape_text(alloc, line)
}

// The numbers of calls that a line tells.
fn calls_of(alloc: Global, line: &str) -> Result<Vec<u64>, Stop<Mistake>> {
    let mut calls = Vec::new(alloc);
    for word in line.split(' ') {
        match word.parse::<u64>() {
            Ok(call) if call > 0 => calls.push(call)?,
            Ok(_) => return Err(Stop::Refused(Mistake::BadFail)),
            Err(_) => return Err(Stop::Refused(Mistake::BadFail)),
        }
    }
    Ok(calls)
}

// The tear that a line `store CALL BYTES` tells.
fn tear_of(line: &str) -> Result<Tear, Mistake> {
    let Some(numbers) = line.strip_prefix("store ") else {
        return Err(Mistake::BadTear);
    };
    let Some((call, keep)) = numbers.split_once(' ') else {
        return Err(Mistake::BadTear);
    };
    match (call.parse::<u64>(), keep.parse::<u64>()) {
        (Ok(call), Ok(keep)) if call > 0 => Ok(Tear { call, keep }),
        _ => Err(Mistake::BadTear),
    }
}

// A text and how often it is repeated.
fn repeat_of(alloc: Global, line: &str) -> Result<Piece, Stop<Mistake>> {
    let Some((times, text)) = line.split_once(' ') else {
        return Err(Stop::Refused(Mistake::BadRepeat));
    };
    match times.parse::<u64>() {
        Ok(times) => Piece::repeated(alloc, times, text),
        Err(_) => Err(Stop::Refused(Mistake::BadRepeat)),
    }
}

impl Setting {
    fn new(alloc: Global) -> Setting {
        Setting {
            words: None,
            first_words: None,
            files: Vec::new(alloc),
            without: Vec::new(alloc),
            failing: Vec::new(alloc),
            failing_logs: Vec::new(alloc),
            tears: Vec::new(alloc),
            damaged: None,
            shows_calls: false,
            shows_counts: false,
            shows_objects: false,
            is_alone: false,
            meeting: None,
        }
    }

    fn add_file(&mut self, alloc: Global, line: &str) -> Result<(), Stop<Mistake>> {
        let name = name_of(alloc, line)?;
        let pieces = Vec::new(alloc);
        self.files.push(CaseFile { name, pieces })?;
        Ok(())
    }

    // Adds a piece to the file that was named last.
    fn add_piece(&mut self, piece: Piece) -> Result<(), Stop<Mistake>> {
        match self.files.last_mut() {
            Some(file) => {
                file.pieces.push(piece)?;
                Ok(())
            }
            None => Err(Stop::Refused(Mistake::NoFile)),
        }
    }

    fn set_failing(&mut self, alloc: Global, line: &str) -> Result<(), Stop<Mistake>> {
        let Some((which, numbers)) = line.split_once(' ') else {
            return Err(Stop::Refused(Mistake::BadFail));
        };
        let calls = calls_of(alloc, numbers)?;
        match which {
            "store" => self.failing = calls,
            "log" => self.failing_logs = calls,
            _ => return Err(Stop::Refused(Mistake::BadFail)),
        }
        Ok(())
    }

    fn add_tear(&mut self, line: &str) -> Result<(), Stop<Mistake>> {
        match tear_of(line) {
            Ok(tear) => self.tears.push(tear)?,
            Err(mistake) => return Err(Stop::Refused(mistake)),
        }
        Ok(())
    }

    fn set_spoiled(&mut self, alloc: Global, line: &str) -> Result<(), Stop<Mistake>> {
        match spoiled_by(line) {
            Ok((name, byte)) => self.set_damaged(alloc, name, Damage::Spoiled(byte)),
            Err(mistake) => Err(Stop::Refused(mistake)),
        }
    }

    fn set_damaged(
        &mut self,
        alloc: Global,
        name: &str,
        damage: Damage,
    ) -> Result<(), Stop<Mistake>> {
        let name = name_of(alloc, name)?;
        self.damaged = Some(Damaged { name, damage });
        Ok(())
    }

    fn set_shown(&mut self, line: &str) -> Result<(), Stop<Mistake>> {
        match line {
            "calls" => self.shows_calls = true,
            "counts" => self.shows_counts = true,
            "objects" => self.shows_objects = true,
            _ => return Err(Stop::Refused(Mistake::BadShow)),
        }
        Ok(())
    }

    fn set_meeting(&mut self, line: &str) -> Result<(), Stop<Mistake>> {
        match Meeting::of(line) {
            Some(meeting) => self.meeting = Some(meeting),
            None => return Err(Stop::Refused(Mistake::BadGate)),
        }
        Ok(())
    }

    // Adds a line on a file's contents.
    fn add_contents(&mut self, alloc: Global, word: &str, rest: &str) -> Result<(), Stop<Mistake>> {
        let piece = match word {
            "|" => Piece::line(alloc, rest)?,
            "+" => Piece::repeated(alloc, 1, rest)?,
            "repeat" => repeat_of(alloc, rest)?,
            _ => return Err(Stop::Refused(Mistake::UnknownWord)),
        };
        self.add_piece(piece)
    }

    /// Takes a line: its first word, and what stands behind the blank after it.
    pub(crate) fn add_line(
        &mut self,
        alloc: Global,
        word: &str,
        rest: &str,
    ) -> Result<(), Stop<Mistake>> {
        match word {
            "words" => self.words = Some(words_of(alloc, rest)?),
            "first" => self.first_words = Some(words_of(alloc, rest)?),
            "file" => self.add_file(alloc, rest)?,
            "without" => self.without.push(name_of(alloc, rest)?)?,
            "fail" => self.set_failing(alloc, rest)?,
            "tear" => self.add_tear(rest)?,
            "spoil" => self.set_spoiled(alloc, rest)?,
            "cut" => self.set_damaged(alloc, rest, Damage::Cut)?,
            "show" => self.set_shown(rest)?,
            "alone" => self.is_alone = true,
            "gate" => self.set_meeting(rest)?,
            _ => self.add_contents(alloc, word, rest)?,
        }
        Ok(())
    }
}

impl Block {
    /// What is given, so far nothing.
    pub(crate) fn given(alloc: Global) -> Block {
        Block {
            title: None,
            setting: Setting::new(alloc),
        }
    }

    /// A case with this title.
    pub(crate) fn case(alloc: Global, title: &str) -> Result<Block, Stop<Mistake>> {
        Ok(Block {
            title: Some(name_of(alloc, title)?),
            setting: Setting::new(alloc),
        })
    }
}
