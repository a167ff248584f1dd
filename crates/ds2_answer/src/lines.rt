//! The lines of the log. Each ends with a line feed. A new line touches the files that docs/ARCHITECTURE.md lists under 'To add a
//! log line'.
ghost use Rattle.std.specs.Prelude.{◌≡◌, ◌++◌, IfOk, OnOk, Some, None, string_bytes};
ghost use Rattle.ds2_decimal.specs.Text.{decimal_text};
ghost use Rattle.ds2_answer.specs.Lines.{checked_thread_line, count_line, demo_line, error_line, exists_line, fault_line, fault_text, file_line, lex_kind_text, parse_kind_text, line_put, lines_put, local_text, not_local_text, object_line, object_refused_line, scope_kind_text, source_kind_text, source_line, table_kind_text, table_line, thread_line, type_kind_text, usage_line, verdict_text};

use crate::FileKind;
use ds2_base::{Bytes, Name, OutOfMemory, Place, Text};
use ds2_csv::{CsvKind, CsvRefusal};
use ds2_decimal::Dec;
use ds2_locality::{Reason, Verdict};
use ds2_object::ObjectRefusal;
use ds2_source::{LexKind, ParseKind, ScopeKind, SourceKind, SourceRefusal, TypeKind};
use ds2_value::{Fault, write_dec};
use std::alloc::{AllocError, Global};

// `ERROR: KIND fault on NAME.`
fn fault_line(alloc: Global, kind: &str, name: &str) -> Result<String, AllocError>
    ensures { IfOk result (λ line. string_bytes line ≡ fault_line kind.now name.now) }
{
    format!(in alloc; "ERROR: {kind} fault on {name}.\n")
}

fn table_kind_text(kind: CsvKind) -> &'static str
    ensures { result.now ≡ table_kind_text kind }
{
    match kind {
        CsvKind::TooLarge => "TooLarge",
        CsvKind::NotUtf8 => "NotUtf8",
        CsvKind::NoHeader => "NoHeader",
        CsvKind::BadHeader => "BadHeader",
        CsvKind::BadType => "BadType",
        CsvKind::DuplicateColumn => "DuplicateColumn",
        CsvKind::BadRecord => "BadRecord",
        CsvKind::BadCell => "BadCell",
    }
}

// `ERROR: File NAME refused: KIND.`, with the place in the table.
fn refused_table_line(alloc: Global, name: &str, refusal: CsvRefusal) -> Result<String, AllocError>
    ensures { IfOk result (λ line. string_bytes line ≡ file_line name.now (FileKind.Table refusal)) }
{
    let CsvRefusal { kind, row, column } = refusal;
    let text = table_kind_text(kind);
    match kind {
        CsvKind::TooLarge | CsvKind::NotUtf8 | CsvKind::NoHeader => {
            format!(in alloc; "ERROR: File {name} refused: {text}.\n")
        }
        CsvKind::BadHeader | CsvKind::BadType | CsvKind::DuplicateColumn => {
            format!(in alloc; "ERROR: File {name} refused: {text} at column {column}.\n")
        }
        CsvKind::BadRecord => {
            format!(in alloc; "ERROR: File {name} refused: {text} at row {row}.\n")
        }
        CsvKind::BadCell => {
            format!(in alloc; "ERROR: File {name} refused: {text} at row {row}, column {column}.\n")
        }
    }
}

// `ERROR: File NAME refused: OtherSchema.`
fn other_schema_line(alloc: Global, name: &str) -> Result<String, AllocError>
    ensures { IfOk result (λ line. string_bytes line ≡ file_line name.now FileKind.OtherSchema) }
{
    format!(in alloc; "ERROR: File {name} refused: OtherSchema.\n")
}

// `ERROR: File NAME refused: KIND.`
fn file_line(alloc: Global, name: &str, kind: FileKind) -> Result<String, AllocError>
    ensures { IfOk result (λ line. string_bytes line ≡ file_line name.now kind) }
{
    match kind {
        FileKind::Absent => format!(in alloc; "ERROR: File {name} refused: Absent.\n"),
        FileKind::TooLarge => format!(in alloc; "ERROR: File {name} refused: TooLarge.\n"),
        FileKind::NotUtf8 => format!(in alloc; "ERROR: File {name} refused: NotUtf8.\n"),
        FileKind::Table(refusal) => refused_table_line(alloc, name, refusal),
        FileKind::OtherSchema => other_schema_line(alloc, name),
    }
}

fn lex_kind_text(kind: LexKind) -> &'static str
    ensures { result.now ≡ lex_kind_text kind }
{
    match kind {
        LexKind::BadCharacter => "BadCharacter",
        LexKind::OpenText => "OpenText",
        LexKind::OpenComment => "OpenComment",
        LexKind::NumberTooLong => "NumberTooLong",
        LexKind::DoubleConstant => "DoubleConstant",
        LexKind::BadName => "BadName",
        LexKind::TextTooLong => "TextTooLong",
    }
}

fn parse_kind_text(kind: ParseKind) -> &'static str
    ensures { result.now ≡ parse_kind_text kind }
{
    match kind {
        ParseKind::Unexpected => "Unexpected",
        ParseKind::TooDeep => "TooDeep",
    }
}

fn scope_kind_text(kind: ScopeKind) -> &'static str
    ensures { result.now ≡ scope_kind_text kind }
{
    match kind {
        ScopeKind::UnknownName => "UnknownName",
        ScopeKind::DuplicateName => "DuplicateName",
        ScopeKind::UnknownMethod => "UnknownMethod",
        ScopeKind::WrongCount => "WrongCount",
        ScopeKind::NotVariable => "NotVariable",
        ScopeKind::AliasedArgument => "AliasedArgument",
        ScopeKind::TooManyNames => "TooManyNames",
        ScopeKind::BadNumber => "BadNumber",
        ScopeKind::Misplaced => "Misplaced",
        ScopeKind::NoColumns => "NoColumns",
    }
}

fn type_kind_text(kind: TypeKind) -> &'static str
    ensures { result.now ≡ type_kind_text kind }
{
    match kind {
        TypeKind::TypeClash => "TypeClash",
        TypeKind::ScaleTooLarge => "ScaleTooLarge",
        TypeKind::NotTruth => "NotTruth",
        TypeKind::NoReturn => "NoReturn",
    }
}

fn source_kind_text(kind: SourceKind) -> &'static str
    ensures { result.now ≡ source_kind_text kind }
{
    match kind {
        SourceKind::Lex(kind) => lex_kind_text(kind),
        SourceKind::Parse(kind) => parse_kind_text(kind),
        SourceKind::Scope(kind) => scope_kind_text(kind),
        SourceKind::Types(kind) => type_kind_text(kind),
    }
}

// `ERROR: Source refused: KIND at L:C.`
fn source_line(alloc: Global, refusal: SourceRefusal) -> Result<String, AllocError>
    ensures { IfOk result (λ line. string_bytes line ≡ source_line refusal) }
{
    let SourceRefusal { kind, place } = refusal;
    let Place { line, column } = place;
    let kind = source_kind_text(kind);
    format!(in alloc; "ERROR: Source refused: {kind} at {line}:{column}.\n")
}

// `ERROR: KIND at L:C.`
fn error_line(alloc: Global, kind: &str, place: Place) -> Result<String, AllocError>
    ensures { IfOk result (λ text. string_bytes text ≡ error_line kind.now place) }
{
    let Place { line, column } = place;
    format!(in alloc; "ERROR: {kind} at {line}:{column}.\n")
}

fn fault_text(fault: Fault) -> &'static str
    ensures { result.now ≡ fault_text fault }
{
    match fault {
        Fault::Overflow => "Overflow",
        Fault::DivideByZero => "DivideByZero",
        Fault::Range => "Range",
        Fault::NoWhen => "NoWhen",
        Fault::BudgetSpent => "BudgetSpent",
        Fault::DepthReached => "DepthReached",
    }
}

// `NOTE: Table NAME, R rows.`
fn table_line(alloc: Global, name: &str, rows: u64) -> Result<String, AllocError>
    ensures { IfOk result (λ line. string_bytes line ≡ table_line name.now rows) }
{
    format!(in alloc; "NOTE: Table {name}, {rows} rows.\n")
}

/// Adds the line on a file that is refused.
pub fn say_refused(
    alloc: Global,
    name: &Text,
    kind: FileKind,
    log: &mut Bytes,
) -> Result<(), OutOfMemory>
    ensures { OnOk result (log.new ≡ log.old ++ file_line name.now kind) }
{
    let line = file_line(alloc, name.as_str(), kind)?;
    log.append(line.as_str().as_bytes())
}

/// Adds the line on a source that is refused.
pub fn say_source_refused(
    alloc: Global,
    refusal: SourceRefusal,
    log: &mut Bytes,
) -> Result<(), OutOfMemory>
    ensures { OnOk result (log.new ≡ log.old ++ source_line refusal) }
{
    let line = source_line(alloc, refusal)?;
    log.append(line.as_str().as_bytes())
}

/// Adds the line on a fault of a program.
pub fn say_error(
    alloc: Global,
    fault: Fault,
    place: Place,
    log: &mut Bytes,
) -> Result<(), OutOfMemory>
    ensures { OnOk result (log.new ≡ log.old ++ error_line (fault_text fault) place) }
{
    let line = error_line(alloc, fault_text(fault), place)?;
    log.append(line.as_str().as_bytes())
}

/// Adds the line on words that are no command.
pub fn say_usage(log: &mut Bytes) -> Result<(), OutOfMemory>
    ensures { OnOk result (log.new ≡ log.old ++ usage_line) }
{
    log.append(b"ERROR: Usage.\n")
}

/// Adds the line on a call of this kind, `Read` or `Write`, that has failed on a file.
pub fn say_fault(alloc: Global, kind: &str, name: &Text, log: &mut Bytes) -> Result<(), OutOfMemory>
    ensures { OnOk result (log.new ≡ log.old ++ fault_line kind.now name.now) }
{
    let line = fault_line(alloc, kind, name.as_str())?;
    log.append(line.as_str().as_bytes())
}

/// Adds the line that counts the rows of a table that was written.
pub fn say_table(alloc: Global, name: &Name, rows: u64, log: &mut Bytes) -> Result<(), OutOfMemory>
    ensures { OnOk result (log.new ≡ log.old ++ table_line name.now rows) }
{
    let line = table_line(alloc, name.as_str(), rows)?;
    log.append(line.as_str().as_bytes())
}

// `NOTE: K instructions.`
fn count_line(alloc: Global, instructions: u128) -> Result<String, AllocError>
    ensures { IfOk result (λ line. string_bytes line ≡ count_line instructions) }
{
    format!(in alloc; "NOTE: {instructions} instructions.\n")
}

// `NOTE: Object NAME, B bytes.`
fn object_line(alloc: Global, name: &str, bytes: u64) -> Result<String, AllocError>
    ensures { IfOk result (λ line. string_bytes line ≡ object_line name.now bytes) }
{
    format!(in alloc; "NOTE: Object {name}, {bytes} bytes.\n")
}

// `ERROR: Output NAME exists.`
fn exists_line(alloc: Global, name: &str) -> Result<String, AllocError>
    ensures { IfOk result (λ line. string_bytes line ≡ exists_line name.now) }
{
    format!(in alloc; "ERROR: Output {name} exists.\n")
}

// `ERROR: Object refused: KIND.`, with the place of a field.
fn object_refused_line(alloc: Global, refusal: &ObjectRefusal) -> Result<String, AllocError>
    ensures { IfOk result (λ line. string_bytes line ≡ object_refused_line refusal.now) }
{
    match refusal {
        ObjectRefusal::BadMagic => format!(in alloc; "ERROR: Object refused: BadMagic.\n"),
        ObjectRefusal::BadVersion => format!(in alloc; "ERROR: Object refused: BadVersion.\n"),
        ObjectRefusal::Truncated => format!(in alloc; "ERROR: Object refused: Truncated.\n"),
        ObjectRefusal::TrailingBytes => {
            format!(in alloc; "ERROR: Object refused: TrailingBytes.\n")
        }
        ObjectRefusal::BadField { offset } => {
            let offset = *offset;
            format!(in alloc; "ERROR: Object refused: BadField at byte {offset}.\n")
        }
        ObjectRefusal::NotValid => format!(in alloc; "ERROR: Object refused: NotValid.\n"),
    }
}

// `local`, with a grain above 1.
fn local_text(alloc: Global, grain: u32) -> Result<String, AllocError>
    ensures { IfOk result (λ text. string_bytes text ≡ local_text grain) }
{
    if grain <= 1 {
        format!(in alloc; "local")
    } else {
        format!(in alloc; "local by {grain}")
    }
}

// `not local: WHY`.
fn not_local_text(alloc: Global, reason: &Reason, place: Place) -> Result<String, AllocError>
    ensures { IfOk result (λ text. string_bytes text ≡ not_local_text reason.now place) }
{
    match reason {
        Reason::TermHasStatements => format!(in alloc; "not local: term has statements"),
        Reason::InitWrites => format!(in alloc; "not local: init writes"),
        Reason::Reads(name) => {
            let name = name.as_str();
            let Place { line, column } = place;
            format!(in alloc; "not local: {name} read at {line}:{column}")
        }
    }
}

/// What a verdict says, as `local by 2` or `not local: term has statements`.
pub fn verdict_text(alloc: Global, verdict: &Verdict) -> Result<Text, OutOfMemory>
    ensures { IfOk result (λ text. text ≡ verdict_text verdict.now) }
{
    match verdict {
        Verdict::Local { grain } => Text::from_string(alloc, local_text(alloc, *grain)?),
        Verdict::NotLocal { reason, place } => {
            Text::from_string(alloc, not_local_text(alloc, reason, *place)?)
        }
    }
}

// `NOTE: Thread NAME, VERDICT.`
fn checked_thread_line(alloc: Global, name: &str, verdict: &str) -> Result<String, AllocError>
    ensures { IfOk result (λ line. string_bytes line ≡ checked_thread_line name.now verdict.now) }
{
    format!(in alloc; "NOTE: Thread {name}, {verdict}.\n")
}

// `NOTE: Thread NAME, VERDICT, G groups.`
fn thread_line(alloc: Global, name: &str, verdict: &str, groups: u64) -> Result<String, AllocError>
    ensures { IfOk result (λ line. string_bytes line ≡ thread_line name.now (Some verdict.now) groups) }
{
    format!(in alloc; "NOTE: Thread {name}, {verdict}, {groups} groups.\n")
}

// `NOTE: Thread NAME, G groups.`
fn groups_line(alloc: Global, name: &str, groups: u64) -> Result<String, AllocError>
    ensures { IfOk result (λ line. string_bytes line ≡ thread_line name.now None groups) }
{
    format!(in alloc; "NOTE: Thread {name}, {groups} groups.\n")
}

// The line on a thread program, with its verdict where one is told.
fn told_thread_line(
    alloc: Global,
    name: &str,
    verdict: &Option<Text>,
    groups: u64,
) -> Result<String, AllocError>
    ensures { IfOk result (λ line. string_bytes line ≡ thread_line name.now verdict.now groups) }
{
    match verdict {
        None => groups_line(alloc, name, groups),
        Some(verdict) => thread_line(alloc, name, verdict.as_str(), groups),
    }
}

/// Adds the line that counts the instructions that a program's stored code has executed.
pub fn say_count(alloc: Global, instructions: u128, log: &mut Bytes) -> Result<(), OutOfMemory>
    ensures { OnOk result (log.new ≡ log.old ++ count_line instructions) }
{
    let line = count_line(alloc, instructions)?;
    log.append(line.as_str().as_bytes())
}

/// Adds the line on an object that was stored, whose file has this name and so many bytes.
pub fn say_object(
    alloc: Global,
    name: &Text,
    bytes: u64,
    log: &mut Bytes,
) -> Result<(), OutOfMemory>
    ensures { OnOk result (log.new ≡ log.old ++ object_line name.now bytes) }
{
    let line = object_line(alloc, name.as_str(), bytes)?;
    log.append(line.as_str().as_bytes())
}

/// Adds the line on the file of an output that is there already.
pub fn say_exists(alloc: Global, name: &Text, log: &mut Bytes) -> Result<(), OutOfMemory>
    ensures { OnOk result (log.new ≡ log.old ++ exists_line name.now) }
{
    let line = exists_line(alloc, name.as_str())?;
    log.append(line.as_str().as_bytes())
}

/// Adds the line on an object that is refused.
pub fn say_object_refused(
    alloc: Global,
    refusal: &ObjectRefusal,
    log: &mut Bytes,
) -> Result<(), OutOfMemory>
    ensures { OnOk result (log.new ≡ log.old ++ object_refused_line refusal.now) }
{
    let line = object_refused_line(alloc, refusal)?;
    log.append(line.as_str().as_bytes())
}

/// Adds the line of `check` on a thread program: its verdict.
pub fn say_checked_thread(
    alloc: Global,
    name: &Name,
    verdict: &Verdict,
    log: &mut Bytes,
) -> Result<(), OutOfMemory>
    ensures { OnOk result (log.new ≡ log.old ++ checked_thread_line name.now (verdict_text verdict.now)) }
{
    let verdict = verdict_text(alloc, verdict)?;
    let line = checked_thread_line(alloc, name.as_str(), verdict.as_str())?;
    log.append(line.as_str().as_bytes())
}

/// Adds the line on a thread program that has run: its verdict, where one is told, and how many groups its loads made.
pub fn say_thread(
    alloc: Global,
    name: &Text,
    verdict: &Option<Text>,
    groups: u64,
    log: &mut Bytes,
) -> Result<(), OutOfMemory>
    ensures { OnOk result (log.new ≡ log.old ++ thread_line name.now verdict.now groups) }
{
    let line = told_thread_line(alloc, name.as_str(), verdict, groups)?;
    log.append(line.as_str().as_bytes())
}

// Adds a line that a program has put.
fn say_line(line: &Text, log: &mut Bytes) -> Result<(), OutOfMemory>
    ensures { OnOk result (log.new ≡ log.old ++ line_put line.now) }
{
    log.append(line.as_str().as_bytes())?;
    log.push(b'\n')
}

/// Adds the lines that a program has put.
pub fn say_lines(lines: &[Text], log: &mut Bytes) -> Result<(), OutOfMemory>
    ensures { OnOk result (log.new ≡ log.old ++ lines_put lines.now) }
{
    'lines: for line in lines {
        say_line(line, log)?;
    }
    Ok(())
}

// `NOTE: Demo, N rows, total T.`
fn demo_line(alloc: Global, rows: u32, total: &str) -> Result<String, AllocError>
    ensures { IfOk result (λ line. string_bytes line ≡ demo_line rows total.now) }
{
    format!(in alloc; "NOTE: Demo, {rows} rows, total {total}.\n")
}

/// Adds the last line of `demo`: the number of rows, and the total of their amounts.
pub fn say_demo(alloc: Global, rows: u32, total: Dec, log: &mut Bytes) -> Result<(), OutOfMemory>
    ensures { OnOk result (log.new ≡ log.old ++ demo_line rows (decimal_text total)) }
{
    let text = write_dec(alloc, total)?;
    let line = demo_line(alloc, rows, text.as_str())?;
    log.append(line.as_str().as_bytes())
}
