// ECMAScript's floor, ceil and round, with the zeros' signs, and the fraction above the floor.
ghost use Rattle.std.specs.Prelude.{◌≡◌, cond};
ghost use Rattle.number.specs.Rounding.{floor_of, ceil_of, round_of, fract_of};

use crate::arithmetic::abs;

// From 2^52 on every number is whole.
const ALL_WHOLE: f64 = 4503599627370496.0;

// The greatest whole number not above x.
pub fn floor(x: f64) -> f64
    ensures { result ≡ floor_of x }
{
    x.floor()
}

// The least whole number not below x: -floor(-x), as in ECMAScript.
pub fn ceil(x: f64) -> f64
    ensures { result ≡ ceil_of x }
{
    x.ceil()
}

// Whether x is nearer to the whole number above it than to the one below, or is as near. Of a whole number
// both are that number.
fn rises(x: f64) -> bool
    ensures { cond result (ceil_of x) (floor_of x) ≡ round_of x }
{
    let y = abs(x);
    if y < ALL_WHOLE {
        let n = std::num::truncating_f64_to_u64(y);
        let middle = ((2 * n + 1) as f64) / 2.0;
        return if x < 0.0 {
            !(middle < y)
        } else {
            !(y < middle)
        };
    }
    false
}

// The nearest whole number; a half rounds up.
pub fn round(x: f64) -> f64
    ensures { result ≡ round_of x }
{
    if rises(x) { ceil(x) } else { floor(x) }
}

// What x is above its floor.
pub fn fract(x: f64) -> f64
    ensures { result ≡ fract_of x }
{
    x - floor(x)
}
