//! Decimals.
ghost use Rattle.std.specs.Prelude.{◌≡◌, ◌≤◌, length};
ghost use Rattle.ds2_decimal.specs.Text.{read_unsigned, read};

use crate::number::{begins_well, number_behind};
use ds2_csv_records::cut;
use ds2_decimal::Dec;

// The decimal that a text without a sign spells.
fn short_decimal(text: &[u8]) -> Option<Dec>
    requires { length text.now ≤ 18 }
    ensures { result ≡ read_unsigned text.now }
{
    let (whole, fraction) = cut(text, b'.');
    if !begins_well(whole) || (fraction.is_empty() && whole.len() < text.len()) {
        return None;
    }
    let n = number_behind(0, whole)?;
    let units = number_behind(n, fraction)?;
    Dec::new(units as i128, fraction.len() as u8)
}

/// The decimal that a cell spells, as [`Dec::read`] tells it; a short one is read here, in fewer steps.
pub fn decimal(cell: &str) -> Option<Dec>
    ensures { result ≡ read cell.now }
{
    if cell.len() > 18 {
        return Dec::read(cell);
    }
    match cell.as_bytes() {
        [b'-', digits @ ..] => Some(short_decimal(digits)?.neg()),
        digits => short_decimal(digits),
    }
}
