//! The parts of a source: `(data dcl (method set (x := e)))`.
use crate::trees::statements::say_statements;
use crate::trees::tokens::{Said, say_token};
use ds2_tree::{GlobalItem, Method, Reading, Source, SourcePart};

fn say_reading(said: &mut String, reading: &Option<Reading>) -> Said {
    match reading {
        None => Ok(()),
        Some(Reading::Set { by: None, .. }) => said.push_str(" set"),
        Some(Reading::Set { by: Some(_), .. }) => said.push_str(" set-by"),
        Some(Reading::SetFrom { .. }) => said.push_str(" set-from"),
        Some(Reading::Merge { .. }) => said.push_str(" merge"),
    }
}

fn say_method(said: &mut String, method: &Method) -> Said {
    said.push_str("(method")?;
    for _ in method.locals.as_slice() {
        said.push_str(" dcl")?;
    }
    say_reading(said, &method.reading)?;
    say_statements(said, method.body.as_slice())?;
    said.push(')')
}

fn say_global(said: &mut String, global: &GlobalItem) -> Said {
    match global {
        GlobalItem::Declaration(_) => said.push_str("dcl"),
        GlobalItem::Listed { keyword, .. } => say_token(said, keyword),
        GlobalItem::Method(method) => say_method(said, method),
    }
}

fn say_unit(said: &mut String, word: &str, globals: &[GlobalItem]) -> Said {
    said.push('(')?;
    said.push_str(word)?;
    for global in globals {
        said.push(' ')?;
        say_global(said, global)?;
    }
    said.push(')')
}

fn say_part(said: &mut String, part: &SourcePart) -> Said {
    match part {
        SourcePart::Proc { .. } => said.push_str("proc"),
        SourcePart::Run { .. } => said.push_str("run"),
        SourcePart::Quit { .. } => said.push_str("quit"),
        SourcePart::Package(unit) => say_unit(said, "package", unit.globals.as_slice()),
        SourcePart::Thread(unit) => say_unit(said, "thread", unit.globals.as_slice()),
        SourcePart::Data(unit) => say_unit(said, "data", unit.globals.as_slice()),
    }
}

/// Says the parts of a source, each behind a blank.
pub fn say_source(said: &mut String, source: &Source) -> Said {
    for part in source.parts.as_slice() {
        said.push(' ')?;
        say_part(said, part)?;
    }
    Ok(())
}
