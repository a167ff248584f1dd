//! The constants of a line.
ghost use Rattle.std.specs.Prelude.{◌≡◌, IfOk};
ghost use Rattle.ds2_value.specs.declared.value.Value.TheVariants.{Txt};
ghost use Rattle.ds2_gen.specs.StatementCode.{text_type, label_of};

use ds2_base::{OutOfMemory, Text, char_count};
use ds2_value::{Ty, Value};
use std::alloc::Global;

// The type of a text constant; want of memory where it has more characters than a type can name.
#[tactic(auto, using(crate::proofs::TextLemmas::at_least_one))]
fn type_of_text(text: &Text) -> Result<Ty, OutOfMemory>
    ensures { IfOk result (λ ty. ty ≡ text_type text.now) }
{
    let Ok(n) = u16::try_from(char_count(text.as_str())) else {
        return Err(OutOfMemory);
    };
    Ok(Ty::Varchar { n: n.max(1) })
}

/// A text constant and its type.
pub fn text_value(alloc: Global, text: &Text) -> Result<(Value, Ty), OutOfMemory>
    ensures value { IfOk result (λ r. r.0 ≡ Txt text.now) }
    ensures ty { IfOk result (λ r. r.1 ≡ text_type text.now) }
{
    let ty = type_of_text(text)?;
    Ok((Value::Txt(text.copy(alloc)?), ty))
}

// A name with an equals sign behind it.
fn label(alloc: Global, name: &Text) -> Result<Text, OutOfMemory>
    ensures { IfOk result (λ text. text ≡ label_of name.now) }
{
    let mut text = String::from_str(alloc, name.as_str())?;
    text.push('=')?;
    Text::from_string(alloc, text)
}

/// The constant of a label and its type.
pub fn label_value(alloc: Global, name: &Text) -> Result<(Value, Ty), OutOfMemory>
    ensures value { IfOk result (λ r. r.0 ≡ Txt (label_of name.now)) }
    ensures ty { IfOk result (λ r. r.1 ≡ text_type (label_of name.now)) }
{
    let text = label(alloc, name)?;
    let ty = type_of_text(&text)?;
    Ok((Value::Txt(text), ty))
}
