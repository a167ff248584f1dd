//! The numbers of a program's locations and methods.
//!
//! A location is looked for by halves, in an order of digests that nothing rests on: what is found there is compared, and where it is
//! another one all locations are walked.
ghost use Rattle.std.specs.Prelude.{◌≡◌};
ghost use Rattle.ds2_program_code.specs.PlacedProgram.{number_of_location};
ghost use Rattle.ds2_deeds.specs.NamedLocations.{location_named, locations_named, AreDistinct};
ghost use Rattle.ds2_deeds.specs.NamedMethods.{method_of_name, methods_named, number_among_methods, AreOwnFirst};

use crate::location::{CodeHome, LocationName, is_one_location, number_by_walk};
use crate::location_order::{compare, digest};
use crate::methods::{MethodName, method_number_by_walk};
use ds2_base::{List, OutOfMemory};
use std::alloc::Global;
use std::cmp::Ordering;

/// The locations and the methods of a program, in the order of their numbers.
#[derive(Clone, Copy)]
pub struct Numbers<'p> {
    pub locations: &'p [LocationName<'p>],
    /// The numbers of the locations as [`sorted_numbers`] gives them.
    pub sorted: &'p [DigestedNumber],
    pub methods: &'p [MethodName<'p>],
    /// How many of the methods are the program's own, which stand first.
    pub own: usize,
    ghost distinct: { AreDistinct (locations_named locations.now) },
    ghost own_first: { AreOwnFirst own (methods_named methods.now) },
}

/// The number of a location, with its digest.
#[derive(Clone, Copy)]
pub struct DigestedNumber {
    digest: u64,
    number: usize,
}

// The order of a location that has a digest, and of the one of a number.
fn compare_at(
    locations: &[LocationName<'_>],
    at: LocationName<'_>,
    digest: u64,
    other: DigestedNumber,
) -> Ordering {
    match digest.cmp(&other.digest) {
        Ordering::Less => Ordering::Less,
        Ordering::Greater => Ordering::Greater,
        Ordering::Equal => match locations.get(other.number) {
            None => Ordering::Less,
            Some(found) => compare(&at, found),
        },
    }
}

// The order of the locations of two numbers.
fn compare_numbers(
    locations: &[LocationName<'_>],
    a: DigestedNumber,
    b: DigestedNumber,
) -> Ordering {
    match locations.get(a.number) {
        None => Ordering::Less,
        Some(first) => compare_at(locations, *first, a.digest, b),
    }
}

/// The numbers of locations, in the order in which locations are looked for: by their digests, and where these are alike by what they are.
pub fn sorted_numbers(
    alloc: Global,
    locations: &[LocationName<'_>],
) -> Result<List<DigestedNumber>, OutOfMemory> {
    let mut numbers: Vec<DigestedNumber> = Vec::new(alloc);
    let mut number: usize = 0;
    'locations: for at in locations {
        let digest = digest(*at);
        numbers.push(DigestedNumber { digest, number })?;
        number = number.saturating_add(1);
    }
    numbers.sort_by(|a, b| compare_numbers(locations, *a, *b))?;
    Ok(List::of(numbers))
}

// The number of a location, where the order serves, and else any number.
fn sought(numbers: Numbers<'_>, at: LocationName<'_>) -> usize {
    let digest = digest(at);
    let mut low: usize = 0;
    let mut high = numbers.sorted.len();
    'halves: for _ in 0..64 {
        let middle = low.saturating_add(high.saturating_sub(low) / 2);
        match numbers.sorted.get(middle) {
            None => return 0,
            Some(other) => match compare_at(numbers.locations, at, digest, *other) {
                Ordering::Equal => return other.number,
                Ordering::Less => high = middle,
                Ordering::Greater => low = middle.saturating_add(1),
            },
        }
    }
    0
}

/// The number of a location, where it is one of them.
pub fn number_of(numbers: Numbers<'_>, at: LocationName<'_>) -> Option<usize>
    ensures { result ≡ number_of_location (locations_named numbers.entry.locations.now) (location_named at.entry) }
{
    let number = sought(numbers, at);
    match numbers.locations.get(number) {
        None => number_by_walk(numbers.locations, at),
        Some(other) => {
            if is_one_location(at, *other) {
                return Some(number);
            }
            number_by_walk(numbers.locations, at)
        }
    }
}

/// The number of a method, where it is one of them.
pub fn number_of_method(numbers: Numbers<'_>, method: MethodName<'_>) -> Option<usize>
    ensures { result ≡ number_among_methods (methods_named numbers.entry.methods.now) (method_of_name method.entry) }
{
    match method.home {
        CodeHome::Program => {
            if method.number < numbers.own {
                return Some(method.number);
            }
            method_number_by_walk(numbers.methods, method)
        }
        CodeHome::Instance(_) => method_number_by_walk(numbers.methods, method),
    }
}
