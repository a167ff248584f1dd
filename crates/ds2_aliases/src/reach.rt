//! Which methods reach a name: they mention it as a global or by an instance, or call a method that reaches it.
ghost use Rattle.std.specs.Prelude.{◌≡◌, ◌||◌, ◌&&◌, ◌++◌, ℕ, List as Items, IfOk, OnOk, not, length, bytes_eq, nat_eq};
ghost use Rattle.std.specs.Cmp.Lexicographic.{pointwise};
ghost use Rattle.std.specs.HashSet.{contains};
ghost use Rattle.ds2_meaning.specs.ProgramTree.{is_listed};
ghost use Rattle.ds2_names.specs.NameRules.{from_each};
ghost use Rattle.ds2_aliases.specs.declared.parts.UnitParts.{UnitParts};
ghost use Rattle.ds2_aliases.specs.ReachingMethods.{reaches};
ghost use Rattle.ds2_aliases.specs.MethodLinks.{linked};
ghost use Rattle.ds2_aliases.specs.ReachedNames.{AreLinks, HasReached};

use crate::UnitParts;
use crate::links::{LinkKind, LinkTable, links_of};
use ds2_base::{Bytes, List, OutOfMemory};
use ds2_scope::{NameSet, NameTable, add_name};
use std::alloc::Global;

/// Which methods mention a name, call one and use an instance, which instances have a variable of a name, and how many methods there are.
#[derive(Drop)]
pub(crate) struct Links {
    pub mentioners: LinkTable,
    pub callers: LinkTable,
    pub users: LinkTable,
    pub holders: LinkTable,
    pub depth: usize,
}

/// For names, the methods that reach each.
pub(crate) type Reached = NameTable<NameSet>;

/// The links of the methods and instances of a unit.
pub(crate) fn links_of_unit(alloc: Global, parts: &UnitParts) -> Result<Links, OutOfMemory>
    ensures { IfOk result (λ links. AreLinks links parts.now) }
{
    let methods = parts.methods.as_slice();
    let mentioners = links_of(alloc, LinkKind::Mentions, methods)?;
    let callers = links_of(alloc, LinkKind::Calls, methods)?;
    let users = links_of(alloc, LinkKind::Uses, methods)?;
    let holders = links_of(alloc, LinkKind::Mentions, parts.objects.as_slice())?;
    Ok(Links {
        mentioners,
        callers,
        users,
        holders,
        depth: methods.len(),
    })
}

// Adds names once more.
fn push_copies(alloc: Global, found: &mut List<Bytes>, names: &[Bytes]) -> Result<(), OutOfMemory>
    ensures { OnOk result (found.new ≡ found.old ++ names.now) }
{
    'names: for name in names {
        found.push(List::from_slice(alloc, name.as_slice())?)?;
    }
    Ok(())
}

// Adds the methods that are linked to a name.
fn push_linked(
    alloc: Global,
    found: &mut List<Bytes>,
    table: &LinkTable,
    name: &Bytes,
) -> Result<(), OutOfMemory>
    ensures { OnOk result (found.new ≡ found.old ++ linked table.now name.now) }
{
    match table.get(name) {
        None => Ok(()),
        Some(methods) => push_copies(alloc, found, methods.as_slice()),
    }
}

// The methods that are linked to names.
fn linked_to(alloc: Global, table: &LinkTable, names: &[Bytes]) -> Result<List<Bytes>, OutOfMemory>
    ensures { IfOk result (λ found. found ≡ from_each (linked table.now) names.now) }
{
    let mut found: List<Bytes> = List::new(alloc);
    'names: for name in names {
        push_linked(alloc, &mut found, table, name)?;
    }
    Ok(found)
}

// The methods that mention a name themselves.
fn mentioning(alloc: Global, links: &Links, name: &Bytes) -> Result<List<Bytes>, OutOfMemory>
    ensures { IfOk result (λ found. found ≡ linked links.now.mentioners name.now ++ from_each (linked links.now.users) (linked links.now.holders name.now)) }
{
    let mut holders: List<Bytes> = List::new(alloc);
    push_linked(alloc, &mut holders, &links.holders, name)?;
    let users = linked_to(alloc, &links.users, holders.as_slice())?;
    let mut found: List<Bytes> = List::new(alloc);
    push_linked(alloc, &mut found, &links.mentioners, name)?;
    push_copies(alloc, &mut found, users.as_slice())?;
    Ok(found)
}

// Adds a name to a set, and to a list where it was not in the set.
#[tactic(auto, using(crate::proofs::TestLemmas::or_false, crate::proofs::TestLemmas::listed_last))]
fn enter_one(
    alloc: Global,
    set: &mut NameSet,
    added: &mut List<Bytes>,
    name: &Bytes,
) -> Result<(), OutOfMemory>
    ensures set { OnOk result ((other : Items ℕ) → contains (pointwise nat_eq) set.new other ≡ (bytes_eq name.now other || contains (pointwise nat_eq) set.old other)) }
    ensures added { OnOk result ((other : Items ℕ) → is_listed added.new other ≡ (is_listed added.old other || (not (contains (pointwise nat_eq) set.old name.now) && bytes_eq name.now other))) }
{
    let is_new = add_name(alloc, set, name.as_slice())?;
    if is_new {
        added.push(List::from_slice(alloc, name.as_slice())?)?;
    }
    Ok(())
}

// Adds names to a set, and gives those that were not in it.
fn enter(alloc: Global, set: &mut NameSet, names: &[Bytes]) -> Result<List<Bytes>, OutOfMemory>
    ensures set { OnOk result ((other : Items ℕ) → contains (pointwise nat_eq) set.new other ≡ (contains (pointwise nat_eq) set.old other || is_listed names.now other)) }
    ensures added { IfOk result (λ added. (other : Items ℕ) → is_listed added other ≡ (not (contains (pointwise nat_eq) set.old other) && is_listed names.now other)) }
{
    let mut added: List<Bytes> = List::new(alloc);
    'names: for name in names {
        enter_one(alloc, set, &mut added, name)?;
    }
    Ok(added)
}

// The methods that reach a name within as many calls as there are methods; where a layer is empty, so is each further one.
fn reaching(alloc: Global, links: &Links, name: &Bytes) -> Result<NameSet, OutOfMemory>
    ensures { IfOk result (λ set. (unit : UnitParts) → AreLinks links.now unit → (method : Items ℕ) → contains (pointwise nat_eq) set method ≡ reaches unit name.now (length unit.methods) method) }
{
    let mut reached = NameSet::new(alloc);
    let begun = mentioning(alloc, links, name)?;
    let mut next: List<Bytes> = begun;
    'layers: for _layer in 0..links.depth {
        if next.is_empty() {
            return Ok(reached);
        }
        let added = enter(alloc, &mut reached, next.as_slice())?;
        next = linked_to(alloc, &links.callers, added.as_slice())?;
    }
    Ok(reached)
}

/// Whether a method reaches a name; the methods that reach it are looked for once.
pub(crate) fn is_reached(
    alloc: Global,
    links: &Links,
    reached: &mut Reached,
    name: &Bytes,
    method: &Bytes,
) -> Result<bool, OutOfMemory>
    ensures answer { IfOk result (λ answer. (unit : UnitParts) → AreLinks links.now unit → HasReached reached.old unit → answer ≡ reaches unit name.now (length unit.methods) method.now) }
    ensures table { OnOk result ((unit : UnitParts) → AreLinks links.now unit → HasReached reached.old unit → HasReached reached.new unit) }
{
    if let Some(set) = reached.get(name) {
        return Ok(set.contains(method));
    }
    let set = reaching(alloc, links, name)?;
    let answer = set.contains(method);
    reached.insert(List::from_slice(alloc, name.as_slice())?, set)?;
    Ok(answer)
}
