//! The order of numbers of any length, from their digits.
ghost use Rattle.std.specs.Prelude.{◌≡◌, ◌≤◌, ℕ, nat_le, length};
ghost use Rattle.ds2_given_names.specs.NumberOrder.{with_digit, spelled_behind, clamped_balance, Balances};

// A balance of so much against so much, which is 0 or 48 where it lies outside.
fn clamped(up: u32, down: u32) -> u32
    ensures small { result ≤ 48 }
    ensures value { result ≡ clamped_balance up down }
{
    if up <= down {
        0
    } else if up - down >= 48 {
        48
    } else {
        up - down
    }
}

// The balance of two numbers behind one digit more of each.
fn weigh(balance: u32, a: u8, b: u8) -> u32
    requires { balance ≤ 48 }
    ensures small { result ≤ 48 }
    ensures balances { (m n : ℕ) → Balances balance m n → Balances result (with_digit m a) (with_digit n b) }
{
    let up = 10 * balance + u32::from(b.saturating_sub(48));
    let down = 216 + u32::from(a.saturating_sub(48));
    clamped(up, down)
}

// The balance behind further digits of the first number, where the second has none yet.
fn weigh_first(balance: u32, digits: &[u8]) -> u32
    requires { balance ≤ 48 }
    ensures small { result ≤ 48 }
    ensures balances { (m : ℕ) → Balances balance m 0 → Balances result (spelled_behind m digits.now) 0 }
{
    let mut now = balance;
    'digits: for digit in digits {
        now = weigh(now, *digit, b'0');
    }
    now
}

// The balance behind further digits of the second number, where the first has none yet.
fn weigh_second(balance: u32, digits: &[u8]) -> u32
    requires { balance ≤ 48 }
    ensures small { result ≤ 48 }
    ensures balances { (n : ℕ) → Balances balance 0 n → Balances result 0 (spelled_behind n digits.now) }
{
    let mut now = balance;
    'digits: for digit in digits {
        now = weigh(now, b'0', *digit);
    }
    now
}

// The balance behind as many further digits of both.
fn weigh_both(balance: u32, a: &[u8], b: &[u8]) -> u32
    requires small { balance ≤ 48 }
    requires same { length a.now ≡ length b.now }
    ensures small { result ≤ 48 }
    ensures balances { (m n : ℕ) → Balances balance m n → Balances result (spelled_behind m a.now) (spelled_behind n b.now) }
{
    let mut now = balance;
    'digits: for i in 0..a.len() {
        now = weigh(now, a[i], b[i]);
    }
    now
}

/// Whether the number that digits spell is at most that of others.
pub(crate) fn is_at_most(a: &[u8], b: &[u8]) -> bool
    ensures { result ≡ nat_le (spelled_behind 0 a.now) (spelled_behind 0 b.now) }
{
    if a.len() >= b.len() {
        let (front, back) = a.split_at(a.len() - b.len());
        weigh_both(weigh_first(24, front), back, b) >= 24
    } else {
        let (front, back) = b.split_at(b.len() - a.len());
        weigh_both(weigh_second(24, front), a, back) >= 24
    }
}
