//! Exact decimals of up to 38 digits: [`Dec`], the number units / 10 ^ scale, and [`DecFault`], why an operation has no result.
//!
//! A contract sees a [`Dec`] as its units, an integer, and its scale. Each operation is defined over integers without bound
//! (`specs/Arithmetic.antt`) and computed within 128 bits: long division goes by groups of digits, and a group is found by
//! an estimate where the rest and the group's power of ten have more than 38 digits together. No call takes memory. A [`Dec`]
//! takes 24 bytes.
//!
//! ```text
//! let price = Dec::new(1250, 2)?;
//! let total = price.add(tax)?;
//! ```
#![tactic(auto)]

mod dec;
pub mod laws;
mod powers;
mod quotient;
mod read;
mod units;
mod words;

pub use dec::{Dec, DecFault, MOST_DIGITS};
