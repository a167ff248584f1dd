//! Hash objects: items in order of insertion, each under a key of its own, and the iterators that walk them.
//!
//! A contract sees a [`HashObject`] as the list of its items, the first inserted one first, and says of each call that it is what
//! the language means by it: the code that it gives, the items that it leaves, the data that it finds, and what becomes of the
//! object's iterators.
//!
//! ```text
//! let mut customers = HashObject::open(alloc, HashKey::new().with(table_bytes));
//! let added = customers.add(key, data)?;
//! let mut at = Hiter { at: None };
//! while at.next(&customers) { .. }
//! ```
#![tactic(auto)]

mod call_code;
mod hiter;
mod key;
mod object;

pub use call_code::code_of_call;
pub use hiter::Hiter;
pub use key::HashKey;
pub use object::HashObject;
