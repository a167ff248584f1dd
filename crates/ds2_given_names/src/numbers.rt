//! BadNumber, at the number: numbers of types and of threads outside their bounds.
ghost use Rattle.std.specs.Prelude.{◌≡◌, map};
ghost use Rattle.ds2_tree.specs.UnitViews.{method_tree, global_tree};
ghost use Rattle.ds2_names.specs.NameRules.{from_each, place_unless, spelled_number};
ghost use Rattle.ds2_names.specs.SourceUnit.{variable_declarations, source_methods};
ghost use Rattle.ds2_names.specs.UnitRules.{is_between, bad_scale, bad_type_numbers, declared_types, returned_types, bad_threads, bad_reading_number};
ghost use Rattle.ds2_given_names.specs.NumberOrder.{spelled_behind};
ghost use Rattle.ds2_given_names.specs.TypeNumbers.{types_in, bad_in_types, bad_in_method, bad_in_reading, bad_numbers_by};
ghost use Rattle.ds2_scope.specs.CodeUnits.{unit_source};
ghost use Rattle.ds2_scope.specs.Collected.{methods_in};
ghost use Rattle.ds2_scope.specs.Earliest.{earliest};

use crate::number_order::is_at_most;
use ds2_base::Place;
use ds2_scope::{Unit, earlier_of, place_unless};
use ds2_token::Token;
use ds2_tree::{
    Declaration, GlobalItem, Method, Parameter, Reading, Returns, Scale, Threads, TypeName,
    VariableDeclaration,
};

// Whether the number that a token spells is at least and at most so much.
fn is_between(least: &[u8], most: &[u8], number: &Token) -> bool
    ensures { result ≡ is_between (spelled_behind 0 least.now) (spelled_behind 0 most.now) (spelled_number number.now) }
{
    let digits = number.spelling.as_bytes();
    is_at_most(least, digits) && is_at_most(digits, most)
}

// The place of a number outside these bounds.
fn unless_between(least: &[u8], most: &[u8], number: &Token) -> Option<Place>
    ensures { result ≡ earliest (place_unless (is_between (spelled_behind 0 least.now) (spelled_behind 0 most.now) (spelled_number number.now)) number.now.place) }
{
    place_unless(is_between(least, most, number), number.place)
}

// The place of a scale that is greater than its precision.
fn bad_scale(precision: &Token, scale: &Option<Scale>) -> Option<Place>
    ensures { result ≡ earliest (bad_scale (spelled_number precision.now) scale.now) }
{
    match scale {
        None => None,
        Some(scale) => place_unless(
            is_at_most(
                scale.number.spelling.as_bytes(),
                precision.spelling.as_bytes(),
            ),
            scale.number.place,
        ),
    }
}

// The earliest number of a type outside its bounds.
#[tactic(auto, using(crate::proofs::TypeNumberLemmas::decimal_parts))]
fn in_type(ty: &TypeName) -> Option<Place>
    ensures { result ≡ earliest (bad_type_numbers ty.now) }
{
    match ty {
        TypeName::BigInt(_) => None,
        TypeName::Decimal {
            precision,
            scale,
            ..
        } => {
            let first = unless_between(b"1", b"38", precision);
            earlier_of(first, bad_scale(precision, scale))
        }
        TypeName::Text { length, .. } => unless_between(b"1", b"1024", length),
    }
}

// The earliest one of the types of declarations.
fn in_declarations(declarations: &[VariableDeclaration]) -> Option<Place>
    ensures { result ≡ earliest (bad_in_types (declared_types declarations.now)) }
{
    let mut found: Option<Place> = None;
    'declarations: for v in declarations {
        found = earlier_of(found, in_type(&v.ty));
    }
    found
}

// The earliest one of the types of parameters.
fn in_parameters(parameters: &[Parameter]) -> Option<Place>
    ensures { result ≡ earliest (bad_in_types (map (λ p. p.ty) parameters.now)) }
{
    let mut found: Option<Place> = None;
    'parameters: for p in parameters {
        found = earlier_of(found, in_type(&p.ty));
    }
    found
}

// The earliest one of the type of a result, where there is one.
fn in_returns(returns: &Option<Returns>) -> Option<Place>
    ensures { result ≡ earliest (bad_in_types (returned_types returns.now)) }
{
    match returns {
        None => None,
        Some(returns) => in_type(&returns.ty),
    }
}

// The earliest one of the types of a method.
fn in_method(m: &Method) -> Option<Place>
    ensures { result ≡ earliest (bad_in_method (method_tree m.now)) }
{
    let parameters = in_parameters(m.parameters.list.as_slice());
    let returns = in_returns(&m.returns);
    let locals = in_declarations(m.locals.as_slice());
    earlier_of(earlier_of(parameters, returns), locals)
}

// The earliest one of the types of variables that a part of a unit declares.
fn in_variables(global: &GlobalItem) -> Option<Place>
    ensures { result ≡ earliest (bad_in_types (types_in (global_tree global.now))) }
{
    match global {
        GlobalItem::Declaration(declaration) => match declaration {
            Declaration::Variables(v) => in_type(&v.ty),
            Declaration::Instance { .. } => None,
            Declaration::Hash { .. } => None,
            Declaration::Hiter { .. } => None,
            Declaration::Thread { .. } => None,
        },
        GlobalItem::Listed { .. } => None,
        GlobalItem::Method(_) => None,
    }
}

// The earliest one of the types of variables.
fn in_all_variables(globals: &[GlobalItem]) -> Option<Place>
    ensures { result ≡ earliest (bad_in_types (declared_types (variable_declarations (map global_tree globals.now)))) }
{
    let mut found: Option<Place> = None;
    'globals: for global in globals {
        found = earlier_of(found, in_variables(global));
    }
    found
}

// The earliest one of the types of a method, where a part of a unit is one.
fn in_types_of(global: &GlobalItem) -> Option<Place>
    ensures { result ≡ earliest (from_each bad_in_method (methods_in (global_tree global.now))) }
{
    match global {
        GlobalItem::Method(m) => in_method(m),
        GlobalItem::Listed { .. } => None,
        GlobalItem::Declaration(_) => None,
    }
}

// The earliest one of the types of methods.
fn in_all_methods(globals: &[GlobalItem]) -> Option<Place>
    ensures { result ≡ earliest (from_each bad_in_method (source_methods (map global_tree globals.now))) }
{
    let mut found: Option<Place> = None;
    'globals: for global in globals {
        found = earlier_of(found, in_types_of(global));
    }
    found
}

// A number of threads outside its bounds.
fn bad_threads(threads: &Option<Threads>) -> Option<Place>
    ensures { result ≡ earliest (bad_threads threads.now) }
{
    match threads {
        None => None,
        Some(threads) => unless_between(b"1", b"64", &threads.number),
    }
}

// That of a reading statement.
fn in_reading(reading: &Option<Reading>) -> Option<Place>
    ensures { result ≡ earliest (bad_reading_number reading.now) }
{
    match reading {
        None => None,
        Some(reading) => match reading {
            Reading::Set { .. } => None,
            Reading::SetFrom { threads, .. } => bad_threads(threads),
            Reading::Merge { .. } => None,
        },
    }
}

// That of a method, where a part of a unit is one.
fn in_reading_of(global: &GlobalItem) -> Option<Place>
    ensures { result ≡ earliest (from_each bad_in_reading (methods_in (global_tree global.now))) }
{
    match global {
        GlobalItem::Method(m) => in_reading(&m.reading),
        GlobalItem::Listed { .. } => None,
        GlobalItem::Declaration(_) => None,
    }
}

// The earliest one of all methods.
fn in_all_readings(globals: &[GlobalItem]) -> Option<Place>
    ensures { result ≡ earliest (from_each bad_in_reading (source_methods (map global_tree globals.now))) }
{
    let mut found: Option<Place> = None;
    'globals: for global in globals {
        found = earlier_of(found, in_reading_of(global));
    }
    found
}

/// The earliest number of a unit outside its bounds.
pub(crate) fn bad_number(unit: Unit<'_>) -> Option<Place>
    ensures { result ≡ earliest (bad_numbers_by (unit_source unit.entry)) }
{
    let variables = in_all_variables(unit.globals);
    let parameters = in_parameters(unit.parameters);
    let methods = in_all_methods(unit.globals);
    let readings = in_all_readings(unit.globals);
    earlier_of(
        earlier_of(earlier_of(variables, parameters), methods),
        readings,
    )
}
