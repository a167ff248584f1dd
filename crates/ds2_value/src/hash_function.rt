//! The calls of hash objects and of their iterators.

/// A call of a hash object.
#[derive(Clone, Copy, PartialEq, Eq)]
pub enum HashFunction {
    /// The data of the item with the key go into the data variables.
    Find,
    /// Whether an item has the key.
    Check,
    /// An item goes last, unless its key is present.
    Add,
    /// The item with the key gets the data; where there is none, one goes last.
    Replace,
    /// The item with the key goes.
    Remove,
    /// All items go.
    Clear,
    /// How many items there are.
    NumItems,
}

/// A call of a hash iterator: it goes to an item, whose data go into the data variables.
#[derive(Clone, Copy, PartialEq, Eq)]
pub enum IteratorFunction {
    /// To the first item.
    First,
    /// To the next item, from nowhere to the first.
    Next,
    /// To the item before, from nowhere to the last.
    Prev,
    /// To the last item.
    Last,
}
