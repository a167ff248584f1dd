//! The constants of a program's code: a table, and the walk that fills it in the order of their first use.
#![tactic(auto)]

mod expressions;
mod key;
mod key_order;
mod statements;
mod table;
mod texts;

pub use expressions::collect_arguments;
pub use key::ConstantKey;
pub use statements::collect_statements;
pub use table::ConstantTable;
pub use texts::{label_value, text_value};
