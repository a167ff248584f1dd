//! The tables that have rows between two places, as bits.
ghost use Rattle.std.specs.Prelude.{◌≡◌, ℕ, suc, ◌+◌, ◌*◌, ◌<◌, ◌≤◌, ◌∷◌, nat_lt, map, get_or};
ghost use Rattle.std.specs.List.{range_with_len};
ghost use Rattle.ds2_reading.specs.LoadMeaning.{bits_of};

// Flags with one more in front of them.
fn with_flag(flag: bool, flags: u16) -> u16
    requires { flags < 32768 }
    ensures bits { (count : ℕ) → bits_of (suc count) result ≡ flag ∷ bits_of count flags }
    ensures bound { result ≤ 2 * flags + 1 }
{
    if flag { 1 + 2 * flags } else { 2 * flags }
}

/// For each of so many tables whether it has rows between two places.
pub(crate) fn tables_between(tables: usize, begins: &[u32; 16], ends: &[u32; 16]) -> u16
    requires { tables ≤ 16 }
    ensures { bits_of tables result ≡ map (λ t. nat_lt (get_or begins.now t 0) (get_or ends.now t 0)) (range_with_len 0 tables) }
{
    let mut present = 0u16;
    let mut table = tables;
    'tables: while table > 0 {
        table -= 1;
        present = with_flag(begins[table] < ends[table], present);
    }
    present
}
