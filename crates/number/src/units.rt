// A finite number in units of the smallest: its digits times two to its place. The fields of a
// pattern have both.
ghost use Rattle.std.specs.Prelude.{◌≡◌, ◌-◌, ◌*◌, ◌/◌, ◌%◌, ◌^◌, ◌<◌, ◌≤◌, false, nat_le};
ghost use Rattle.std.specs.Float.{binary64};
ghost use Rattle.std.specs.Float.Ieee.{round};
ghost use Rattle.number.specs.Units.{exponent_field, digits_of, HasUnits};

use crate::bits::from_bits;

const SIGN: u64 = 0x8000_0000_0000_0000;

// The digit before those of the pattern.
const HIDDEN: u64 = 0x10_0000_0000_0000;

// The field of infinities and of NaN.
pub(crate) const SPECIAL: u64 = 2047;

// The least place of a pattern with the digit before.
const LEAST: u64 = 52;

pub(crate) fn is_negative(pattern: u64) -> bool
    ensures { result ≡ nat_le (2 ^ 63) pattern }
{
    SIGN <= pattern
}

pub(crate) fn exponent(pattern: u64) -> u64
    ensures { result ≡ exponent_field pattern }
{
    pattern % SIGN / HIDDEN
}

pub(crate) fn digits(pattern: u64) -> u64
    ensures { result ≡ digits_of pattern }
{
    let written = pattern % HIDDEN;
    if exponent(pattern) == 0 {
        written
    } else {
        HIDDEN + written
    }
}

pub(crate) fn place(pattern: u64) -> u64
    ensures { result ≡ exponent_field pattern - 1 }
{
    let field = exponent(pattern);
    if field == 0 { 0 } else { field - 1 }
}

// m times two to the k, less n as often as it goes.
pub(crate) fn reduced(m: u64, n: u64, k: u64) -> u64
    requires positive { 0 < n }
    requires small { n < 2 ^ 53 }
    ensures { result ≡ m * 2 ^ k % n }
{
    let mut rest = m % n;
    for _ in 0..k {
        rest = 2 * rest % n;
    }
    rest
}

// Two to the k.
fn power(k: u64) -> u64
    requires { k < 53 }
    ensures { result ≡ 2 ^ k }
{
    1 << k
}

// Two to a place, in units of the smallest number.
fn unit(place: u64) -> f64
    requires { place < 2046 }
    ensures { HasUnits result false 1 place }
{
    if place < LEAST {
        from_bits(power(place))
    } else {
        from_bits((place - LEAST + 1) * HIDDEN)
    }
}

// The number of digits and a place.
pub(crate) fn number(negative: bool, digits: u64, place: u64) -> f64
    requires digits { digits < 2 ^ 53 }
    requires place { place < 2046 }
    ensures { result ≡ round binary64 negative (digits * 2 ^ place) (2 ^ 1074) }
{
    let size = digits as f64 * unit(place);
    if negative { -size } else { size }
}
