//! Each call that takes memory, once where there is enough, and generic code at types of its callers.
//!
//! Contracts say what each call answers, but each may answer want of memory: these tests see that it does not where there is memory.
//! What a case program calls with ample memory stands in none of them.
//! They stand in one crate above all others, since a crate with tests of its own is proved twice.
#![tactic(auto)]

#[cfg(test)]
mod base;
#[cfg(test)]
mod columns;
#[cfg(test)]
mod csv_files;
#[cfg(test)]
mod dealer;
#[cfg(test)]
mod hashes;
#[cfg(test)]
mod layouts;
#[cfg(test)]
mod outside;
#[cfg(test)]
mod schedule;
#[cfg(test)]
mod values;
