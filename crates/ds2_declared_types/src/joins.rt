//! The types that the columns of one name in several tables join to.
ghost use Rattle.std.specs.Prelude.{◌≡◌, ◌∷◌, [], if◌then◌else◌};
ghost use Rattle.ds2_base.specs.declared.place.Place.{Place as PlaceOf};
ghost use Rattle.ds2_elaboration.specs.SourceTypes.{type_of_column, is_joined_to, agrees_with_declared, agreed, with_table, clash_at_table, joined_type};
ghost use Rattle.ds2_declared_types.specs.Joins.{clash_at_rows, column_typing_of, is_clash, places_in, typing_of_rows};

use ds2_base::{Bytes, Place};
use ds2_scope::NameTable;
use ds2_types::rules::is_one;
use ds2_value::{Column, Ty, join_types};

/// What is known of the type of a column over the first tables of a statement.
#[derive(Clone, Copy, PartialEq, Eq)]
pub enum ColumnTyping {
    /// None of them has it.
    Absent,
    /// Its type.
    Joined(Ty),
    /// A rule is broken.
    Clashed,
}

/// The type of the first of these columns that has a name.
pub fn type_of_column(columns: &[Column], name: &[u8]) -> Option<Ty>
    ensures { result ≡ type_of_column name.now columns.now }
{
    'columns: for c in columns {
        if c.name.as_str().as_bytes() == name {
            return Some(c.ty);
        }
    }
    None
}

/// Whether there is a join, and it is this type.
fn is_joined_to(ty: Ty, joined: Option<Ty>) -> bool
    ensures { result ≡ is_joined_to ty joined }
{
    match joined {
        None => false,
        Some(joined) => is_one(joined, ty),
    }
}

/// Whether a declared variable of a column's name has the type that it and the column join to; where none is declared any type
/// will do.
pub fn agrees(declared: Option<Ty>, ty: Ty) -> bool
    ensures { result ≡ agrees_with_declared declared ty }
{
    match declared {
        None => true,
        Some(declared) => is_joined_to(declared, join_types(declared, ty)),
    }
}

/// What is known of a column whose tables join to this type up to here, or to none.
fn agreed(declared: Option<Ty>, ty: Option<Ty>) -> ColumnTyping
    ensures { column_typing_of result ≡ agreed declared ty }
{
    match ty {
        None => ColumnTyping::Clashed,
        Some(ty) => {
            if agrees(declared, ty) {
                ColumnTyping::Joined(ty)
            } else {
                ColumnTyping::Clashed
            }
        }
    }
}

/// What is known of a column with one table more, in which it has this type, or which does not have it.
pub fn with_table(declared: Option<Ty>, before: ColumnTyping, own: Option<Ty>) -> ColumnTyping
    ensures { column_typing_of result ≡ with_table declared (column_typing_of before) own }
{
    match own {
        None => before,
        Some(ty) => match before {
            ColumnTyping::Absent => agreed(declared, Some(ty)),
            ColumnTyping::Joined(so_far) => agreed(declared, join_types(so_far, ty)),
            ColumnTyping::Clashed => ColumnTyping::Clashed,
        },
    }
}

/// Whether a rule is broken at this table, and none was before.
pub fn clashes_here(before: ColumnTyping, behind: ColumnTyping) -> bool
    ensures { (place : PlaceOf) → clash_at_table place (column_typing_of before) (column_typing_of behind) ≡ (if result then place ∷ [] else []) }
{
    match before {
        ColumnTyping::Clashed => false,
        ColumnTyping::Absent => is_clash(behind),
        ColumnTyping::Joined(_) => is_clash(behind),
    }
}

/// Whether a rule is broken.
fn is_clash(typing: ColumnTyping) -> bool
    ensures { result ≡ is_clash (column_typing_of typing) }
{
    match typing {
        ColumnTyping::Absent => false,
        ColumnTyping::Joined(_) => false,
        ColumnTyping::Clashed => true,
    }
}

/// What is known of the type of a column before the tables: what the rows of a thread program give whose columns have these types.
pub fn typing_of_rows(rows: &NameTable<Ty>, declared: Option<Ty>, name: &Bytes) -> ColumnTyping
    ensures { column_typing_of result ≡ typing_of_rows rows.now declared name.now }
{
    let own = rows.get(name).copied();
    with_table(declared, ColumnTyping::Absent, own)
}

/// The place of the instance behind `set from`, where its rows do not join with a declared variable.
pub fn clash_at_rows(stage: Option<Place>, typing: ColumnTyping) -> Option<Place>
    ensures { places_in result ≡ clash_at_rows stage (column_typing_of typing) }
{
    match stage {
        None => None,
        Some(place) => {
            let clashes = clashes_here(ColumnTyping::Absent, typing);
            if clashes { Some(place) } else { None }
        }
    }
}

/// The type of a column whose tables join; BIGINT stands for what has none.
pub fn joined_type(typing: ColumnTyping) -> Ty
    ensures { result ≡ joined_type (column_typing_of typing) }
{
    match typing {
        ColumnTyping::Joined(ty) => ty,
        ColumnTyping::Absent => Ty::BigInt,
        ColumnTyping::Clashed => Ty::BigInt,
    }
}
