//! What every other crate stands on: lists, texts, names, places, and the two ways in which a call stops.
//!
//! A contract sees a [`List`] as the list of its items, and a [`Text`] or a [`Name`] as the list of its UTF-8 bytes.
//!
//! ```text
//! let mut names = List::new(alloc);
//! names.push(Name::new(alloc, "total")?)?;
//! ```
#![tactic(auto)]

mod characters;
mod compare;
mod list;
mod name;
mod name_compare;
mod place;
mod short_text;
mod stop;
mod text;
mod text_compare;

pub use characters::char_count;
pub use list::{Bytes, List};
pub use name::{BadName, NAME_CHARACTERS, Name};
pub use place::{Place, Refusal};
pub use stop::{OutOfMemory, Stop, refusing};
pub use text::Text;
