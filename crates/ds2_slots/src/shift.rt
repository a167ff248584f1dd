//! What a call of a hash object does to the positions of its iterators.
ghost use Rattle.std.specs.Prelude.{◌≡◌};
ghost use Rattle.ds2_value.specs.HashList.{shifted};
ghost use Rattle.ds2_code.specs.HashCalls.{all_shifted};
ghost use Rattle.ds2_slots.specs.SlotHashes.{meaning_of_shift, with_one_shifted, with_shifted_where};

use ds2_base::List;
use ds2_hash::Hiter;

/// What a call does to the positions of the iterators of its object.
#[derive(Clone, Copy)]
pub enum HashShift {
    /// Nothing.
    Stays,
    /// The item at a position is gone.
    Closes(u64),
    /// All items are gone.
    Empties,
}

// Where an iterator stands behind a call that does this.
fn shifted(shift: HashShift, position: Option<u64>) -> Option<u64>
    ensures { result ≡ shifted (meaning_of_shift shift) position }
{
    let mut hiter = Hiter { at: position };
    match shift {
        HashShift::Stays => {}
        HashShift::Closes(removed) => hiter.removed(removed),
        HashShift::Empties => hiter.cleared(),
    }
    hiter.at
}

// Moves the iterator of a number.
#[tactic(auto, using(crate::proofs::Shifts::shifting_one))]
fn shift_one(shift: HashShift, iterators: &mut List<Option<u64>>, number: usize)
    ensures { iterators.new ≡ with_one_shifted (meaning_of_shift shift) number iterators.old }
{
    let Some(position) = iterators.get(number) else {
        return;
    };
    let position = shifted(shift, *position);
    let _old = iterators.replace(number, position);
}

// Moves the iterator of a number where it walks the object that was called.
fn shift_where(shift: HashShift, walks: bool, iterators: &mut List<Option<u64>>, number: usize)
    ensures { iterators.new ≡ with_shifted_where walks (meaning_of_shift shift) number iterators.old }
{
    if walks {
        shift_one(shift, iterators, number);
    }
}

/// Moves the iterators of an object, by the object of each.
pub fn shift_all(
    shift: HashShift,
    object: usize,
    objects: &[u32],
    iterators: &mut List<Option<u64>>,
)
    ensures { iterators.new ≡ all_shifted (meaning_of_shift shift) object objects.now iterators.old }
{
    for (number, walked) in objects.iter().enumerate() {
        shift_where(shift, *walked as usize == object, iterators, number);
    }
}
