//! What a header cell tells of its column.
use ds2_base::Name;
use ds2_value::Ty;

/// The name of a column, and its type where the header tells one.
#[derive(Drop)]
pub struct Heading {
    pub name: Name,
    pub ty: Option<Ty>,
}
