//! The limits of a table.
ghost use Rattle.std.specs.Prelude.{◌≡◌, ◌*◌, nat_lt};
ghost use Rattle.ds2_csv.specs.declared.limits.TheConstants.{MOST_CELLS};

/// The most bytes of a file.
pub const MOST_BYTES: usize = 67_108_864;

/// The most columns.
pub const MOST_COLUMNS: usize = 256;

/// The most cells below the header.
pub const MOST_CELLS: u64 = 4_000_000;

/// Whether so many rows of `width` cells have more cells than a table may have.
pub(crate) fn is_large(rows: u64, width: usize) -> bool
    ensures { result ≡ nat_lt MOST_CELLS (rows * width) }
{
    rows as u128 * width as u128 > MOST_CELLS as u128
}
