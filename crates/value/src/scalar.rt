// Operations on numbers, which operators and functions apply to each component.
ghost use Rattle.std.specs.Prelude.{◌≡◌};
ghost use Rattle.value.specs.Scalar.{unary_of, binary_of, ternary_of, order_of, test_of};

use kind::operation::{Binary, Order, Ternary, Test, Unary};
use number::arithmetic::{abs, clamp, max, min, mix, remainder, sign};
use number::rounding::{ceil, floor, fract, round};

pub fn unary(f: Unary, x: f64) -> f64
    ensures { result ≡ unary_of f x }
{
    match f {
        Unary::Plus => x,
        Unary::Minus => -x,
        Unary::Abs => abs(x),
        Unary::Sign => sign(x),
        Unary::Floor => floor(x),
        Unary::Ceil => ceil(x),
        Unary::Round => round(x),
        Unary::Fract => fract(x),
    }
}

pub fn binary(f: Binary, x: f64, y: f64) -> f64
    ensures { result ≡ binary_of f x y }
{
    match f {
        Binary::Add => x + y,
        Binary::Subtract => x - y,
        Binary::Multiply => x * y,
        Binary::Divide => x / y,
        Binary::Remainder => remainder(x, y),
        Binary::Min => min(x, y),
        Binary::Max => max(x, y),
    }
}

pub fn ternary(f: Ternary, x: f64, y: f64, z: f64) -> f64
    ensures { result ≡ ternary_of f x y z }
{
    match f {
        Ternary::Clamp => clamp(x, y, z),
        Ternary::Mix => mix(x, y, z),
    }
}

pub fn order(f: Order, x: f64, y: f64) -> bool
    ensures { result ≡ order_of f x y }
{
    match f {
        Order::Less => x < y,
        Order::LessEqual => x <= y,
        Order::Greater => x > y,
        Order::GreaterEqual => x >= y,
    }
}

pub fn test(f: Test, x: f64) -> bool
    ensures { result ≡ test_of f x }
{
    match f {
        Test::IsNan => x.is_nan(),
        Test::IsFinite => x.is_finite(),
    }
}
