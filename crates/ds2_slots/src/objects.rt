//! The hash objects of a program.
ghost use Rattle.std.specs.Prelude.{◌≡◌, ℕ, [], None, IfOk, map, slice_get, slice_set, unwrap_or};
ghost use Rattle.ds2_code.specs.CodeUnit.{opening_hashes};
ghost use Rattle.ds2_slots.specs.LoadedHashes.{AreSlotTypesInBounds};
ghost use Rattle.ds2_slots.specs.SlotHashes.{HasCalledHash, HasMovedHiter};

use crate::call::{HashCall, call_object};
use crate::iteration::step;
use crate::loading::load_objects;
use crate::shift::shift_all;
use crate::tables::HashTables;
use ds2_base::{List, OutOfMemory};
use ds2_code::{HashPart, Slot};
use ds2_hash::{HashKey, HashObject, Hiter, code_of_call};
use ds2_value::{HashFunction, IteratorFunction, Value};
use std::alloc::Global;

/// The hash objects of a program, and where its iterators stand.
#[derive(Drop)]
pub struct HashObjects {
    /// The objects, by their numbers.
    pub hashes: List<HashObject>,
    /// The position of each iterator, by its number.
    pub iterators: List<Option<u64>>,
}

/// A hash object of a program, by its number, with the part that names its variables.
#[derive(Clone, Copy)]
pub struct NumberedPart<'p> {
    /// The number of the object.
    pub number: usize,
    /// Its part.
    pub part: &'p HashPart,
}

impl HashObjects {
    /// The objects of a program before its first unit: each has the rows of its table, where it names one, and `walked`, which has the
    /// object of each iterator, says how many iterators there are. They stand nowhere.
    pub fn load<T: HashTables>(
        alloc: Global,
        slots: &[Slot],
        parts: &[HashPart],
        walked: &[u32],
        tables: &T,
    ) -> Result<HashObjects, OutOfMemory>
        requires { AreSlotTypesInBounds slots.now }
        ensures { IfOk result (λ objects. objects ≡ record { hashes = opening_hashes slots.now parts.now (T.tables tables.now); iterators = map (λ (h : ℕ). None) walked.now }) }
    {
        let hashes = load_objects(alloc, slots, parts, tables)?;
        let iterators = nowhere(alloc, walked)?;
        Ok(HashObjects { hashes, iterators })
    }

    /// Calls an object, whose variables are the slots of its part, and gives the code of the call. `walked` has the object of each
    /// iterator.
    ///
    /// For want of memory the object may be empty, and slots may have other values.
    pub fn call(
        &mut self,
        alloc: Global,
        function: HashFunction,
        object: NumberedPart<'_>,
        walked: &[u32],
        slots: &mut List<Value>,
    ) -> Result<Value, OutOfMemory>
        ensures { IfOk result (λ given. HasCalledHash function object.entry.number object.entry.part.now walked.now slots.old slots.new self.old self.new given) }
    {
        let NumberedPart { number, part } = object;
        let mut object = self.take(alloc, number);
        let HashCall { code, shift } = call_object(alloc, function, part, slots, &mut object)?;
        self.put(number, object);
        shift_all(shift, number, walked, &mut self.iterators);
        Ok(code)
    }

    /// Calls iterator `number` of an object, whose variables are the slots of its part, and gives the code of the call.
    ///
    /// For want of memory slots may have other values.
    #[tactic(auto, using(crate::proofs::Answered::moved))]
    pub fn iterate(
        &mut self,
        alloc: Global,
        function: IteratorFunction,
        number: usize,
        object: NumberedPart<'_>,
        slots: &mut List<Value>,
    ) -> Result<Value, OutOfMemory>
        ensures { IfOk result (λ given. HasMovedHiter function number object.entry.number object.entry.part.now slots.old slots.new self.old self.new given) }
    {
        let mut hiter = Hiter {
            at: self.position(number),
        };
        let empty = HashObject::open(alloc, HashKey::new());
        let NumberedPart { number: of, part } = object;
        let object = match self.hashes.get(of) {
            None => &empty,
            Some(object) => object,
        };
        let went = step(alloc, function, &mut hiter, object, part, slots)?;
        self.stand(number, hiter.at);
        Ok(code_of_call(went))
    }

    /// The same objects and iterators once more.
    pub fn copy(&self, alloc: Global) -> Result<HashObjects, OutOfMemory>
        ensures { IfOk result (λ copy. copy ≡ self.now) }
    {
        let hashes = copy_objects(alloc, self.hashes.as_slice())?;
        let iterators = self.iterators.copy(alloc)?;
        Ok(HashObjects { hashes, iterators })
    }

    // Takes an object out; an empty one stands in its place.
    fn take(&mut self, alloc: Global, number: usize) -> HashObject
        ensures taken { result ≡ unwrap_or (slice_get self.old.hashes number) [] }
        ensures rest { self.new ≡ record self.old { hashes = slice_set self.old.hashes number [] } }
    {
        if number < self.hashes.len() {
            self.hashes
                .replace(number, HashObject::open(alloc, HashKey::new()))
        } else {
            HashObject::open(alloc, HashKey::new())
        }
    }

    // Puts an object in its place.
    fn put(&mut self, number: usize, object: HashObject)
        ensures { self.new ≡ record self.old { hashes = slice_set self.old.hashes number object } }
    {
        if number < self.hashes.len() {
            let _empty = self.hashes.replace(number, object);
        }
    }

    // Where an iterator stands.
    fn position(&self, number: usize) -> Option<u64>
        ensures { result ≡ unwrap_or (slice_get self.now.iterators number) None }
    {
        match self.iterators.get(number) {
            None => None,
            Some(position) => *position,
        }
    }

    // An iterator stands here from now on.
    fn stand(&mut self, number: usize, position: Option<u64>)
        ensures { self.new ≡ record self.old { iterators = slice_set self.old.iterators number position } }
    {
        if number < self.iterators.len() {
            let _old = self.iterators.replace(number, position);
        }
    }
}

// The positions of iterators that stand nowhere.
fn nowhere(alloc: Global, walked: &[u32]) -> Result<List<Option<u64>>, OutOfMemory>
    ensures { IfOk result (λ list. list ≡ map (λ (h : ℕ). None) walked.now) }
{
    let mut list = List::new(alloc);
    list.reserve(walked.len())?;
    for number in 0..walked.len() {
        list.push(None)?;
    }
    Ok(list)
}

// Copies of objects, in order.
fn copy_objects(alloc: Global, objects: &[HashObject]) -> Result<List<HashObject>, OutOfMemory>
    ensures { IfOk result (λ list. list ≡ objects.now) }
{
    let mut list = List::new(alloc);
    list.reserve(objects.len())?;
    for object in objects {
        list.push(object.copy(alloc)?)?;
    }
    Ok(list)
}
