// Whole numbers as they are written.
ghost use Rattle.std.specs.Prelude.{◌<◌, ◌^◌, SomeIff};
ghost use Rattle.text.specs.Numerals.{value};

// The value of these digits, if it has at most 64 bits.
pub fn digits_value(digits: &[u8]) -> Option<u64>
    ensures { SomeIff result (value digits.now < 2 ^ 64) (value digits.now) }
{
    let mut n: u64 = 0;
    for d in digits {
        n = n
            .checked_mul(10)?
            .checked_add(u64::from(d.saturating_sub(b'0')))?;
    }
    Some(n)
}
