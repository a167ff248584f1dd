//! Constants.
ghost use Rattle.std.specs.Prelude.{◌≡◌, [], IfOk, option_and_then};
ghost use Rattle.ds2_elaboration.specs.ExpressionTypes.{integer_node, decimal_type, decimal_node, text_within, text_node, constant_node};
ghost use Rattle.ds2_elaboration.specs.Typings.{elaborated_null, form_of_operands};
ghost use Rattle.ds2_types.specs.Judgements.{node_tree, IsJudged, Judges};

use ds2_base::{OutOfMemory, Place, Text, char_count};
use ds2_decimal::Dec;
use ds2_token::Token;
use ds2_types::judgement::{Judgement, Node, Typing};
use ds2_types::nodes::constant;
use ds2_value::{TEXT_CHARACTERS, Ty, Value};
use std::alloc::Global;

/// An integer constant is a BIGINT.
fn integer_node(alloc: Global, value: Option<i64>) -> Result<Node, OutOfMemory>
    ensures { IfOk result (λ n. node_tree n ≡ integer_node value) }
{
    match value {
        None => constant(alloc, Value::Null, Ty::BigInt),
        Some(i) => constant(alloc, Value::Int(i), Ty::BigInt),
    }
}

/// The type of a decimal constant: as many digits as it is written with, leading zeros not counted, at least one and at least
/// those behind its point.
fn decimal_type(d: Dec) -> Ty
    ensures { result ≡ decimal_type d }
{
    Ty::Decimal {
        p: 1u8.max(d.digits().max(d.scale())),
        s: d.scale(),
    }
}

/// A decimal constant.
fn decimal_node(alloc: Global, value: Option<Dec>) -> Result<Node, OutOfMemory>
    ensures { IfOk result (λ n. node_tree n ≡ decimal_node value) }
{
    match value {
        None => constant(alloc, Value::Null, Ty::Decimal { p: 1, s: 0 }),
        Some(d) => constant(alloc, Value::Dec(d), decimal_type(d)),
    }
}

/// A text constant is a VARCHAR of its characters, at least one.
fn text_node(alloc: Global, value: Option<Text>) -> Result<Node, OutOfMemory>
    ensures { IfOk result (λ n. node_tree n ≡ text_node (option_and_then text_within value)) }
{
    match value {
        None => constant(alloc, Value::Null, Ty::Varchar { n: 1 }),
        Some(text) => {
            let characters = char_count(text.as_str());
            if characters <= TEXT_CHARACTERS as usize {
                let n = 1u16.max(characters as u16);
                constant(alloc, Value::Txt(text), Ty::Varchar { n })
            } else {
                constant(alloc, Value::Null, Ty::Varchar { n: 1 })
            }
        }
    }
}

/// The node of a constant.
fn constant_node(alloc: Global, token: &Token) -> Result<Node, OutOfMemory>
    ensures { IfOk result (λ n. node_tree n ≡ constant_node token.now) }
{
    if token.is_integer() {
        integer_node(alloc, token.integer())
    } else if token.is_decimal() {
        decimal_node(alloc, token.decimal())
    } else {
        let text = token.text(alloc)?;
        text_node(alloc, text)
    }
}

/// A constant.
pub fn constant_value(alloc: Global, token: &Token) -> Result<Judgement, OutOfMemory>
    ensures { Judges (form_of_operands [] (constant_node token.now)) result }
{
    let node = constant_node(alloc, token)?;
    Ok(Judgement {
        typing: Typing::Known(node.ty),
        outcome: Ok(node),
    })
}

/// The constant null, whose word stands at this place.
pub fn null_value(alloc: Global, word: Place) -> Result<Judgement, OutOfMemory>
    ensures { Judges (elaborated_null word) result }
{
    let node = constant(alloc, Value::Null, Ty::BigInt)?;
    Ok(Judgement {
        typing: Typing::NullAt(word),
        outcome: Ok(node),
    })
}
