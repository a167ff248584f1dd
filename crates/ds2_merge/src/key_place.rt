//! Where a cursor stands.
ghost use Rattle.std.specs.Prelude.{◌≡◌, ◌+◌, ◌^◌, ◌<◌};
ghost use Rattle.ds2_merge.specs.KeyPlaces.{opening_key_place, key_place_behind, between_keys, behind_load_of_key};

/// A place between the loads of two keys.
#[derive(Clone, Copy)]
pub(crate) struct KeyPlace {
    /// The place in BY order of the first row of the next key.
    pub start: usize,
    /// How many loads were given.
    pub loads: usize,
}

/// The rows of a key, behind a place between keys.
#[derive(Clone, Copy)]
pub(crate) struct KeyRows {
    /// Where the rows of each table begin, and where they end.
    pub begins: [u32; 16],
    pub ends: [u32; 16],
    /// Where the next key begins.
    pub end: usize,
    /// How many loads the key has.
    pub count: usize,
    /// How many of them were given.
    pub given: usize,
}

/// Where a cursor stands: at a place between two keys, or among the loads of the key behind it.
#[derive(Clone, Copy)]
pub(crate) struct MergePlace {
    pub place: KeyPlace,
    pub key: Option<KeyRows>,
}

impl KeyPlace {
    /// The place before the first load.
    pub(crate) fn start() -> KeyPlace
        ensures { result ≡ opening_key_place }
    {
        KeyPlace { start: 0, loads: 0 }
    }

    /// The place behind the loads of a key.
    pub(crate) fn behind(&self, key: &KeyRows) -> KeyPlace
        requires { self.now.loads + key.now.count < 2 ^ 64 }
        ensures { result ≡ key_place_behind self.now key.now }
    {
        KeyPlace {
            start: key.end,
            loads: self.loads + key.count,
        }
    }
}

impl MergePlace {
    /// At a place between two keys.
    pub(crate) fn between(place: KeyPlace) -> MergePlace
        ensures { result ≡ between_keys place }
    {
        MergePlace { place, key: None }
    }

    /// Behind the next load of a key.
    pub(crate) fn behind_load(place: &KeyPlace, key: &KeyRows) -> MergePlace
        requires given { key.now.given < key.now.count }
        requires room { place.now.loads + key.now.count < 2 ^ 64 }
        ensures { result ≡ behind_load_of_key place.now key.now }
    {
        if key.given + 1 < key.count {
            let further = KeyRows {
                begins: key.begins,
                ends: key.ends,
                end: key.end,
                count: key.count,
                given: key.given + 1,
            };
            return MergePlace {
                place: *place,
                key: Some(further),
            };
        }
        MergePlace::between(place.behind(key))
    }
}
