// Functions of the style language on numbers that need no rounding of their own.
ghost use Rattle.std.specs.Prelude.{◌≡◌};
ghost use Rattle.std.specs.Float.Ieee.{rem};
ghost use Rattle.std.specs.Float.{binary64};
ghost use Rattle.number.specs.Arithmetic.{abs_of, sign_of, negative_zero, less, min_of, max_of, clamp_of, mix_of};

use crate::bits::to_bits;
use crate::units::{SPECIAL, digits, exponent, is_negative, number, place, reduced};

// The sign cleared.
pub fn abs(x: f64) -> f64
    ensures { result ≡ abs_of x }
{
    x.abs()
}

// -1, +0 or 1 by the sign; NaN for NaN.
pub fn sign(x: f64) -> f64
    ensures { result ≡ sign_of x }
{
    if x == 0.0 { 0.0 } else { x.signum() }
}

// Of a zero, 1 / x has its sign.
fn is_negative_zero(x: f64) -> bool
    ensures { result ≡ negative_zero x }
{
    x == 0.0 && 1.0 / x < 0.0
}

fn is_less(x: f64, y: f64) -> bool
    ensures { result ≡ less x y }
{
    x < y || (x == y && is_negative_zero(x) && !is_negative_zero(y))
}

// The less of two numbers, -0 below +0; NaN where one is.
pub fn min(x: f64, y: f64) -> f64
    ensures { result ≡ min_of x y }
{
    if x.is_nan() {
        x
    } else if y.is_nan() || is_less(y, x) {
        y
    } else {
        x
    }
}

// The greater of two numbers, +0 above -0; NaN where one is.
pub fn max(x: f64, y: f64) -> f64
    ensures { result ≡ max_of x y }
{
    if x.is_nan() {
        x
    } else if y.is_nan() || is_less(x, y) {
        y
    } else {
        x
    }
}

pub fn clamp(x: f64, lo: f64, hi: f64) -> f64
    ensures { result ≡ clamp_of x lo hi }
{
    min(max(x, lo), hi)
}

// x(1 - a) + ya, each operation rounded.
pub fn mix(x: f64, y: f64, a: f64) -> f64
    ensures { result ≡ mix_of x y a }
{
    x * (1.0 - a) + y * a
}

// ECMAScript's `%`: exact, with the sign of x. It is worked out on the digits that the patterns of the
// two have: a program that calls the `fmod` of a newer C library doesn't start with an older one.
pub fn remainder(x: f64, y: f64) -> f64
    ensures { result ≡ rem binary64 x y }
{
    let a = to_bits(x);
    let b = to_bits(y);
    if exponent(a) == SPECIAL {
        return f64::NAN;
    }
    if exponent(b) == SPECIAL {
        return if y.is_nan() { y } else { x };
    }
    let n = digits(b);
    if n == 0 {
        return f64::NAN;
    }
    let i = place(a);
    let j = place(b);
    if i < j {
        number(is_negative(a), digits(a), i)
    } else {
        number(is_negative(a), reduced(digits(a), n, i - j), j)
    }
}
