//! Locations in an order of their own: by home, sort and name.
ghost use Rattle.std.specs.Prelude.{◌≡◌, refl};
ghost use Rattle.std.specs.Ordering.{as_partial_cmp, eq_by_cmp};
ghost use Rattle.std.specs.Cmp.{eq_by_cmp_equiv, partial_equiv_from_equiv, partial_order_from_total};
ghost use Rattle.ds2_meaning.specs.ProgramMeaning.{global_name};
ghost use Rattle.ds2_deeds.specs.NamedLocations.{code_home, global_named};
ghost use Rattle.ds2_deeds.specs.LocationOrder.{home_number, home_text, sort_number, home_cmp, global_cmp, named_cmp, named_total};

use crate::location::{CodeHome, GlobalName, LocationName};
use ds2_base::Name;
use std::cmp::Ordering;

// The program's own home stands before those of instances.
fn home_number(home: CodeHome<'_>) -> u8
    ensures { result ≡ home_number (code_home home.entry) }
{
    match home {
        CodeHome::Program => 0,
        CodeHome::Instance(_) => 1,
    }
}

// The name of the instance.
fn home_text<'p>(home: CodeHome<'p>) -> &'p str
    ensures { result.now ≡ home_text (code_home home.entry) }
{
    match home {
        CodeHome::Program => "",
        CodeHome::Instance(name) => name.as_str(),
    }
}

// The place of a global's sort.
fn sort_number(global: GlobalName<'_>) -> u8
    ensures { result ≡ sort_number (global_named global.entry) }
{
    match global {
        GlobalName::Named(_) => 0,
        GlobalName::First(_) => 1,
        GlobalName::Last(_) => 2,
        GlobalName::Present(_) => 3,
        GlobalName::Parameter(_) => 4,
    }
}

// The name of a global.
fn name_of<'p>(global: GlobalName<'p>) -> &'p Name
    ensures { result.now ≡ global_name (global_named global.entry) }
{
    match global {
        GlobalName::Named(name) => name,
        GlobalName::First(name) => name,
        GlobalName::Last(name) => name,
        GlobalName::Present(name) => name,
        GlobalName::Parameter(name) => name,
    }
}

fn compare_homes(a: CodeHome<'_>, b: CodeHome<'_>) -> Ordering
    ensures { result ≡ home_cmp (code_home a.entry) (code_home b.entry) }
{
    let numbers = home_number(a).cmp(&home_number(b));
    let texts = home_text(a).cmp(home_text(b));
    numbers.then(texts)
}

fn compare_globals(a: GlobalName<'_>, b: GlobalName<'_>) -> Ordering
    ensures { result ≡ global_cmp (global_named a.entry) (global_named b.entry) }
{
    let sorts = sort_number(a).cmp(&sort_number(b));
    let names = name_of(a).cmp(name_of(b));
    sorts.then(names)
}

/// The order of two locations.
pub(crate) fn compare(a: &LocationName<'_>, b: &LocationName<'_>) -> Ordering
    ensures { result ≡ named_cmp a.now b.now }
{
    let homes = compare_homes(a.home, b.home);
    let globals = compare_globals(a.global, b.global);
    homes.then(globals)
}

// A digest, and a text behind what it is of.
fn with_text(digest: u64, text: &str) -> u64 {
    let mut whole = digest;
    'bytes: for byte in text.as_bytes() {
        whole = (whole ^ u64::from(*byte)).wrapping_mul(0x100000001b3);
    }
    whole
}

/// A digest of a location, alike for alike ones.
pub(crate) fn digest(at: LocationName<'_>) -> u64 {
    let homes = with_text(u64::from(sort_number(at.global)), home_text(at.home));
    with_text(
        homes.wrapping_mul(0x100000001b3),
        name_of(at.global).as_str(),
    )
}

impl<'p> PartialEq for LocationName<'p> {
    ghost eq = { eq_by_cmp named_cmp };

    ghost laws = { partial_equiv_from_equiv (eq_by_cmp_equiv named_total) };

    fn eq(&self, other: &Self) -> bool {
        compare(self, other).is_eq()
    }
}

impl<'p> Eq for LocationName<'p> {
    ghost laws = { eq_by_cmp_equiv named_total };
}

impl<'p> PartialOrd for LocationName<'p> {
    ghost partial_cmp = { as_partial_cmp named_cmp };

    ghost laws = { partial_order_from_total named_total };

    fn partial_cmp(&self, other: &Self) -> Option<Ordering> {
        Some(self.cmp(other))
    }
}

impl<'p> Ord for LocationName<'p> {
    ghost cmp = { named_cmp };

    ghost total = { named_total };

    ghost matches_partial_cmp = { λ x y. refl };

    ghost matches_eq = { λ x y. refl };

    fn cmp(&self, other: &Self) -> Ordering {
        compare(self, other)
    }
}
