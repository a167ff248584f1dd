//! Conditions that known flags decide.
ghost use Rattle.std.specs.Prelude.{◌≡◌, if◌then◌else◌, None, map};
ghost use Rattle.ds2_value.specs.declared.truth.Truth.TheVariants.{Yes, Unknown};
ghost use Rattle.ds2_meaning.specs.declared.location.Reference.TheVariants.{At};
ghost use Rattle.ds2_meaning.specs.IsTyped.{is_by as by_named};
ghost use Rattle.ds2_meaning.specs.TypedExpression.{NoLink};
ghost use Rattle.ds2_meaning.specs.View.{in_a_row, typed_expression, link_tree};
ghost use Rattle.ds2_locality.specs.Walk.{decided as decided_as, decided_by as decided_by_of, decided_flag as decided_flag_of, decided_links as decided_links_of};
ghost use Rattle.ds2_recorded_walk.specs.KnownFlags.{first_flags, prefix_decided};
ghost use Rattle.ds2_deeds.specs.NamedLocations.{code_home};

use ds2_base::Name;
use ds2_deeds::CodeHome;
use ds2_meaning::{ByVariable, Expression, Global, Link, Operation, Prefix, Reference};
use ds2_value::{Truth, and, not, or};

/// Whether a BY variable has a name.
pub fn is_by(bys: &[ByVariable], name: &Name) -> bool
    ensures { result ≡ by_named bys.now name.now }
{
    'bys: for by in bys {
        if by.name == *name {
            return true;
        }
    }
    false
}

// Whether `first.v` of a BY variable of a name is known to be 1.
fn known_first(known: &[ByVariable], name: &Name) -> Truth
    ensures { result ≡ (if by_named known.now name.now then Yes else Unknown) }
{
    if is_by(known, name) {
        Truth::Yes
    } else {
        Truth::Unknown
    }
}

// What a global of the program is decided as, where `first.v` of these BY variables is 1.
fn decided_global(known: &[ByVariable], global: &Global) -> Truth
    ensures { result ≡ decided_flag_of (first_flags known.now) None (At global.now) }
{
    match global {
        Global::Named(_) => Truth::Unknown,
        Global::First(name) => known_first(known, name),
        Global::Last(_) => Truth::Unknown,
        Global::Present(_) => Truth::Unknown,
        Global::Parameter(_) => Truth::Unknown,
    }
}

// What a variable of a home is decided as.
fn decided_variable(known: &[ByVariable], home: CodeHome<'_>, variable: &Reference) -> Truth
    ensures { result ≡ decided_flag_of (first_flags known.now) (code_home home.entry) variable.now }
{
    match variable {
        Reference::At(global) => match home {
            CodeHome::Program => decided_global(known, global),
            CodeHome::Instance(_) => Truth::Unknown,
        },
        Reference::Local(_) => Truth::Unknown,
    }
}

// What an operation of two conditions is decided as.
fn decided_by(operation: Operation, a: Truth, b: Truth) -> Truth
    ensures { result ≡ decided_by_of operation a b }
{
    match operation {
        Operation::And => and(a, b),
        Operation::Or => or(a, b),
        Operation::IntegerAdd => Truth::Unknown,
        Operation::IntegerSubtract => Truth::Unknown,
        Operation::IntegerMultiply => Truth::Unknown,
        Operation::DecimalAdd => Truth::Unknown,
        Operation::DecimalSubtract => Truth::Unknown,
        Operation::DecimalMultiply => Truth::Unknown,
        Operation::DecimalDivide => Truth::Unknown,
        Operation::Concatenate => Truth::Unknown,
    }
}

// What an operator before a condition makes of what that is decided as.
fn decided_prefix(prefix: Prefix, operand: Truth) -> Truth
    ensures { result ≡ prefix_decided prefix operand }
{
    match prefix {
        Prefix::Not => not(operand),
        Prefix::IntegerNegate => Truth::Unknown,
        Prefix::DecimalNegate => Truth::Unknown,
        Prefix::Plus => Truth::Unknown,
    }
}

// A value that is widened is not decided.
fn unless_widened(widens: bool, a: Truth) -> Truth
    ensures { result ≡ (if widens then Unknown else a) }
{
    if widens { Truth::Unknown } else { a }
}

// What a chain is decided as, from what its operands up to these are.
#[cycle(decided)]
fn decided_links(known: &[ByVariable], home: CodeHome<'_>, first: Truth, links: &[Link]) -> Truth
    ensures { result ≡ decided_links_of (first_flags known.now) (code_home home.entry) first (in_a_row (map link_tree links.now) NoLink) }
{
    let mut truth = first;
    'links: for link in links {
        let operand = decided(known, home, &link.operand);
        truth = decided_by(link.operation, unless_widened(link.widens, truth), operand);
    }
    truth
}

/// What a condition of a body of a home is decided as, where `first.v` of these BY variables is 1.
#[cycle(decided)]
pub fn decided(known: &[ByVariable], home: CodeHome<'_>, e: &Expression) -> Truth
    ensures { result ≡ decided_as (first_flags known.now) (code_home home.entry) (typed_expression e.now) }
{
    match e {
        Expression::Constant { value: _, ty: _ } => Truth::Unknown,
        Expression::Variable { variable, ty: _ } => decided_variable(known, home, variable),
        Expression::Widen { operand: _ } => Truth::Unknown,
        Expression::Convert { operand: _, ty: _ } => Truth::Unknown,
        Expression::Prefixed {
            prefix,
            operand,
            ty: _,
        } => decided_prefix(*prefix, decided(known, home, operand)),
        Expression::Chain { first, links } => {
            let truth = decided(known, home, first);
            decided_links(known, home, truth, links.as_slice())
        }
        Expression::Compared {
            comparison: _,
            left: _,
            right: _,
        } => Truth::Unknown,
        Expression::Applied {
            function: _,
            arguments: _,
            ty: _,
        } => Truth::Unknown,
        Expression::Called { call: _, ty: _ } => Truth::Unknown,
        Expression::HashCalled {
            hash: _,
            function: _,
        } => Truth::Unknown,
        Expression::IteratorCalled {
            iterator: _,
            function: _,
        } => Truth::Unknown,
    }
}
