//! Locations in the order in which they are told, each once.
ghost use Rattle.std.specs.Prelude.{◌≡◌, [], OnOk};
ghost use Rattle.ds2_deeds.specs.NamedLocations.{location_named, locations_named, with_location};

use crate::location::LocationName;
use ds2_base::{List, OutOfMemory};
use std::alloc::Global;
use std::collections::BTreeMap;
use std::marker::Model;

/// Locations, with the number of the first of each. A contract sees the locations.
#[derive(Drop)]
pub(crate) struct LocationTable<'p> {
    locations: List<LocationName<'p>>,
    numbers: BTreeMap<LocationName<'p>, usize>,
}

impl<'p> Model for LocationTable<'p> {
    ghost use Rattle.std.specs.Prelude.{List as Items};
    ghost use Rattle.ds2_deeds.specs.declared.location.LocationName.{LocationName as LocationModel};

    ghost Value = { Items LocationModel };

    ghost use Rattle.ds2_deeds.specs.LocationNumbers.{HaveFirstNumbers};

    ghost view = { λ t. t.locations };

    ghost invariant = { λ t. HaveFirstNumbers t.locations t.numbers };
}

impl<'p> LocationTable<'p> {
    /// No location yet.
    pub(crate) fn new(alloc: Global) -> LocationTable<'p>
        ensures { result ≡ [] }
    {
        LocationTable {
            locations: List::new(alloc),
            numbers: BTreeMap::new(alloc),
        }
    }

    /// The locations in order.
    pub(crate) fn into_list(self) -> List<LocationName<'p>>
        ensures { result ≡ self.entry }
    {
        self.locations
    }

    /// Adds a location, where it is not there.
    pub(crate) fn add(&mut self, at: LocationName<'p>) -> Result<(), OutOfMemory>
        ensures { OnOk result (locations_named self.new ≡ with_location (locations_named self.old) (location_named at.entry)) }
    {
        let is_there = self.numbers.contains_key(&at);
        if is_there {
            return Ok(());
        }
        let number = self.locations.len();
        self.locations.push(at)?;
        match self.numbers.insert(at, number) {
            Ok(_) => Ok(()),
            Err(_) => {
                self.locations.truncate(number);
                Err(OutOfMemory)
            }
        }
    }
}
