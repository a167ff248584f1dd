//! Tables from a name to the methods that mention it, that call it, or that use the instance of it.
ghost use Rattle.std.specs.Prelude.{◌≡◌, true, ◌||◌, ◌&&◌, ◌++◌, ◌∷◌, [], ℕ, List as Items, IfOk, OnOk, not, bytes_eq, if◌then◌else◌, nat_eq};
ghost use Rattle.std.specs.Cmp.Lexicographic.{pointwise};
ghost use Rattle.std.specs.HashSet.{contains};
ghost use Rattle.ds2_meaning.specs.ProgramTree.{is_listed};
ghost use Rattle.ds2_names.specs.NameRules.{from_each};
ghost use Rattle.ds2_aliases.specs.ReachingMethods.{unhidden_name, called_in, unhidden_object, globals_mentioned, objects_used};
ghost use Rattle.ds2_aliases.specs.MethodLinks.{linked, links_of_method, HasLinks};

use crate::{Mention, MethodParts};
use ds2_base::{Bytes, List, OutOfMemory};
use ds2_scope::{NameSet, NameTable, add_name, name_set};
use std::alloc::Global;

/// What links a method to a name.
#[derive(Clone, Copy)]
pub(crate) enum LinkKind {
    /// It mentions a global of the name.
    Mentions,
    /// It calls a method or a function of the name.
    Calls,
    /// It uses the instance of the name.
    Uses,
}

/// For each name the methods that are linked to it.
pub(crate) type LinkTable = NameTable<List<Bytes>>;

// Adds a name, where no parameter or local hides it.
fn push_unless_hidden(
    alloc: Global,
    names: &mut List<Bytes>,
    locals: &NameSet,
    name: &Bytes,
) -> Result<(), OutOfMemory>
    ensures { OnOk result (names.new ≡ names.old ++ (if contains (pointwise nat_eq) locals.now name.now then [] else name.now ∷ [])) }
{
    if locals.contains(name) {
        Ok(())
    } else {
        names.push(List::from_slice(alloc, name.as_slice())?)
    }
}

// Adds the name in a mention, where no parameter or local hides it.
fn push_unhidden(
    alloc: Global,
    names: &mut List<Bytes>,
    locals: &NameSet,
    mention: &Mention,
) -> Result<(), OutOfMemory>
    ensures { OnOk result (names.new ≡ names.old ++ unhidden_name (contains (pointwise nat_eq) locals.now) mention.now) }
{
    match mention {
        Mention::Name(name) => push_unless_hidden(alloc, names, locals, name),
        Mention::Call { .. } => Ok(()),
        Mention::Object { .. } => Ok(()),
    }
}

// The names in mentions that no parameter or local hides.
fn unhidden_names(
    alloc: Global,
    locals: &NameSet,
    mentions: &[Mention],
) -> Result<List<Bytes>, OutOfMemory>
    ensures { IfOk result (λ names. names ≡ from_each (unhidden_name (contains (pointwise nat_eq) locals.now)) mentions.now) }
{
    let mut names: List<Bytes> = List::new(alloc);
    'mentions: for mention in mentions {
        push_unhidden(alloc, &mut names, locals, mention)?;
    }
    Ok(names)
}

// The globals that a method mentions itself.
fn globals_mentioned(alloc: Global, m: &MethodParts) -> Result<List<Bytes>, OutOfMemory>
    ensures { IfOk result (λ names. names ≡ globals_mentioned m.now) }
{
    let locals = name_set(alloc, m.locals.as_slice())?;
    unhidden_names(alloc, &locals, m.mentions.as_slice())
}

// Adds what a mention calls.
fn push_called(alloc: Global, names: &mut List<Bytes>, mention: &Mention) -> Result<(), OutOfMemory>
    ensures { OnOk result (names.new ≡ names.old ++ called_in mention.now) }
{
    match mention {
        Mention::Name(_) => Ok(()),
        Mention::Call { name, .. } => names.push(List::from_slice(alloc, name.as_slice())?),
        Mention::Object { .. } => Ok(()),
    }
}

// What mentions call.
fn called_names(alloc: Global, mentions: &[Mention]) -> Result<List<Bytes>, OutOfMemory>
    ensures { IfOk result (λ names. names ≡ from_each called_in mentions.now) }
{
    let mut names: List<Bytes> = List::new(alloc);
    'mentions: for mention in mentions {
        push_called(alloc, &mut names, mention)?;
    }
    Ok(names)
}

// Adds the instance in a mention, where no parameter or local hides it.
fn push_object(
    alloc: Global,
    names: &mut List<Bytes>,
    locals: &NameSet,
    mention: &Mention,
) -> Result<(), OutOfMemory>
    ensures { OnOk result (names.new ≡ names.old ++ unhidden_object (contains (pointwise nat_eq) locals.now) mention.now) }
{
    match mention {
        Mention::Name(_) => Ok(()),
        Mention::Call { .. } => Ok(()),
        Mention::Object { name, .. } => push_unless_hidden(alloc, names, locals, name),
    }
}

// The instances in mentions that no parameter or local hides.
fn unhidden_objects(
    alloc: Global,
    locals: &NameSet,
    mentions: &[Mention],
) -> Result<List<Bytes>, OutOfMemory>
    ensures { IfOk result (λ names. names ≡ from_each (unhidden_object (contains (pointwise nat_eq) locals.now)) mentions.now) }
{
    let mut names: List<Bytes> = List::new(alloc);
    'mentions: for mention in mentions {
        push_object(alloc, &mut names, locals, mention)?;
    }
    Ok(names)
}

// The instances that a method uses.
fn objects_used(alloc: Global, m: &MethodParts) -> Result<List<Bytes>, OutOfMemory>
    ensures { IfOk result (λ names. names ≡ objects_used m.now) }
{
    let locals = name_set(alloc, m.locals.as_slice())?;
    unhidden_objects(alloc, &locals, m.mentions.as_slice())
}

// The names that a method is linked to.
fn links_of_method(
    alloc: Global,
    kind: LinkKind,
    m: &MethodParts,
) -> Result<List<Bytes>, OutOfMemory>
    ensures { IfOk result (λ names. names ≡ links_of_method kind m.now) }
{
    match kind {
        LinkKind::Mentions => globals_mentioned(alloc, m),
        LinkKind::Calls => called_names(alloc, m.mentions.as_slice()),
        LinkKind::Uses => objects_used(alloc, m),
    }
}

// Takes the methods that are linked to a name out of a table.
fn take_linked(alloc: Global, table: &mut LinkTable, name: &Bytes) -> List<Bytes>
    ensures taken { result ≡ linked table.old name.now }
    ensures others { (other : Items ℕ) → linked table.new other ≡ (if bytes_eq name.now other then [] else linked table.old other) }
{
    match table.remove(name) {
        None => List::new(alloc),
        Some(methods) => methods,
    }
}

// Whether a method is the last of a list.
#[tactic(auto, using(crate::proofs::TestLemmas::listed_at))]
fn is_last(methods: &[Bytes], method: &[u8]) -> bool
    ensures { result ≡ true → is_listed methods.now method.now ≡ true }
{
    match methods.last() {
        None => false,
        Some(last) => last.as_slice() == method,
    }
}

// Adds a method, unless it is the last already: the links of one method stand behind each other, so each method stands once.
fn push_method(alloc: Global, methods: &mut List<Bytes>, method: &[u8]) -> Result<(), OutOfMemory>
    ensures { OnOk result ((m : Items ℕ) → is_listed methods.new m ≡ (is_listed methods.old m || bytes_eq method.now m)) }
{
    if is_last(methods.as_slice(), method) {
        Ok(())
    } else {
        methods.push(List::from_slice(alloc, method)?)
    }
}

// Links a method to a name.
fn link(
    alloc: Global,
    table: &mut LinkTable,
    name: &Bytes,
    method: &[u8],
) -> Result<(), OutOfMemory>
    ensures { OnOk result ((other m : Items ℕ) → is_listed (linked table.new other) m ≡ (is_listed (linked table.old other) m || (bytes_eq method.now m && bytes_eq name.now other))) }
{
    let mut methods = take_linked(alloc, table, name);
    push_method(alloc, &mut methods, method)?;
    let name = List::from_slice(alloc, name.as_slice())?;
    table.insert(name, methods)?;
    Ok(())
}

// Links a method to names.
fn link_all(
    alloc: Global,
    table: &mut LinkTable,
    names: &[Bytes],
    method: &[u8],
) -> Result<(), OutOfMemory>
    ensures { OnOk result ((other m : Items ℕ) → is_listed (linked table.new other) m ≡ (is_listed (linked table.old other) m || (bytes_eq method.now m && is_listed names.now other))) }
{
    'names: for name in names {
        link(alloc, table, name, method)?;
    }
    Ok(())
}

// Links a method to its names, unless its name was seen.
#[tactic(auto, using(crate::proofs::TestLemmas::or_false))]
fn note_method(
    alloc: Global,
    kind: LinkKind,
    seen: &mut NameSet,
    table: &mut LinkTable,
    m: &MethodParts,
) -> Result<(), OutOfMemory>
    ensures seen { OnOk result ((other : Items ℕ) → contains (pointwise nat_eq) seen.new other ≡ (bytes_eq m.now.name other || contains (pointwise nat_eq) seen.old other)) }
    ensures table { OnOk result ((name other : Items ℕ) → is_listed (linked table.new name) other ≡ (is_listed (linked table.old name) other || (not (contains (pointwise nat_eq) seen.old m.now.name) && (bytes_eq m.now.name other && is_listed (links_of_method kind m.now) name)))) }
{
    let is_new = add_name(alloc, seen, m.name.as_slice())?;
    if is_new {
        let names = links_of_method(alloc, kind, m)?;
        link_all(alloc, table, names.as_slice(), m.name.as_slice())?;
    }
    Ok(())
}

/// The table of the methods of a unit, of which the first of each name counts.
pub(crate) fn links_of(
    alloc: Global,
    kind: LinkKind,
    methods: &[MethodParts],
) -> Result<LinkTable, OutOfMemory>
    ensures { IfOk result (λ table. HasLinks table kind methods.now) }
{
    let mut seen = NameSet::new(alloc);
    let mut table: LinkTable = NameTable::new(alloc);
    'methods: for m in methods {
        note_method(alloc, kind, &mut seen, &mut table, m)?;
    }
    Ok(table)
}
