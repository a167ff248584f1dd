//! The flags of a load, as bits.
ghost use Rattle.std.specs.Prelude.{◌≡◌, ℕ, ◌≤◌, ◌<◌, ◌||◌, nat_lt, nat_eq, map};
ghost use Rattle.std.specs.List.{range_with_len};
ghost use Rattle.ds2_reading.specs.LoadMeaning.{bits_of, flags_behind};

/// The flags of so many BY variables: 1 for each but the first few.
pub fn all_but(few: usize, bys: usize) -> u16
    requires few { few ≤ bys }
    requires bys { bys ≤ 16 }
    ensures { bits_of bys result ≡ flags_behind bys few }
{
    ((1u32 << bys) - (1u32 << few)) as u16
}

/// The flag of this number alone.
pub fn one(flag: usize) -> u16
    requires { flag < 16 }
    ensures { (count : ℕ) → bits_of count result ≡ map (λ other. nat_eq flag other) (range_with_len 0 count) }
{
    1u16 << flag
}

/// Whether a load opens a key: the first one does, and each that has fewer BY variables in common with the load before.
pub fn opens_key(number: usize, common: usize, bys: usize) -> bool
    ensures { result ≡ (nat_eq number 0 || nat_lt common bys) }
{
    number == 0 || common < bys
}
