//! The types that type names spell.
ghost use Rattle.std.specs.Prelude.{◌≡◌, IfOk, codes, if◌then◌else◌};
ghost use Rattle.ds2_elaboration.specs.SourceTypes.{scale_or_zero, spelled_type, returned_type};
ghost use Rattle.ds2_names.specs.NameRules.{spelled_number};
ghost use Rattle.ds2_token.specs.Words.{is_word};
ghost use Rattle.ds2_value.specs.declared.ty.Ty.TheVariants.{Decimal as DecimalOf, Char as CharOf, Varchar as VarcharOf};

use crate::names::{characters, digits};
use ds2_base::OutOfMemory;
use ds2_token::Token;
use ds2_tree::{Returns, Scale, TypeName};
use ds2_value::Ty;

/// The scale that a type gives; 0 where it is left out.
fn scale_or_zero(scale: &Option<Scale>) -> Result<u8, OutOfMemory>
    ensures { IfOk result (λ s. s ≡ scale_or_zero scale.now) }
{
    match scale {
        None => Ok(0),
        Some(scale) => digits(&scale.number),
    }
}

/// A DECIMAL of this precision and scale.
fn decimal(precision: &Token, scale: &Option<Scale>) -> Result<Ty, OutOfMemory>
    ensures { IfOk result (λ ty. ty ≡ DecimalOf (spelled_number precision.now) (scale_or_zero scale.now)) }
{
    let p = digits(precision)?;
    let s = scale_or_zero(scale)?;
    Ok(Ty::Decimal { p, s })
}

/// A text of this length: CHAR where the word says so, else VARCHAR.
fn text(keyword: &Token, length: &Token) -> Result<Ty, OutOfMemory>
    ensures { IfOk result (λ ty. ty ≡ (if is_word (codes "char") keyword.now then CharOf (spelled_number length.now) else VarcharOf (spelled_number length.now))) }
{
    let n = characters(length)?;
    if keyword.is_word("char") {
        Ok(Ty::Char { n })
    } else {
        Ok(Ty::Varchar { n })
    }
}

/// The type that a type name spells. Numbers beyond those that a type can hold, which the rules of names refuse, are want of memory.
pub fn spelled_type(ty: &TypeName) -> Result<Ty, OutOfMemory>
    ensures { IfOk result (λ made. made ≡ spelled_type ty.now) }
{
    match ty {
        TypeName::BigInt(_) => Ok(Ty::BigInt),
        TypeName::Decimal {
            precision,
            scale,
            ..
        } => decimal(precision, scale),
        TypeName::Text {
            keyword,
            length,
            ..
        } => text(keyword, length),
    }
}

/// The type that a method returns, where it returns a value.
pub fn returned_type(returns: &Option<Returns>) -> Result<Option<Ty>, OutOfMemory>
    ensures { IfOk result (λ ty. ty ≡ returned_type returns.now) }
{
    match returns {
        None => Ok(None),
        Some(returns) => {
            let ty = spelled_type(&returns.ty)?;
            Ok(Some(ty))
        }
    }
}
