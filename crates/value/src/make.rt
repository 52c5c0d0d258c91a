// What an operation makes of operands that it takes.
ghost use Rattle.std.specs.Prelude.{◌≡◌, ℕ, ◌<◌, Float};
ghost use Rattle.value.specs.Value.{text_of};
ghost use Rattle.value.specs.Meaning.{by_component, logic_of, equality_of, dot_of, cross_at, product_of, alpha_or, color_of};
ghost use Rattle.value.specs.Meaning.{vec4_of, constructed, made_of};

use crate::equality::equal;
use crate::operands::{joined_at, operand};
use crate::scalar::{binary, order, ternary, test, unary};
use crate::texts::Texts;
use crate::value::Value;
use colour::colour::Colour;
use kind::kind::Kind;
use kind::operation::{Constructor, Equality, Logic, Operation, Product, index};

// The value of a kind with the components that a function gives.
fn by_component<F: Fn(u8) -> f64>(kind: Kind, f: F) -> Value
    requires { F.IsAlwaysCallable f }
    ensures { (g : ℕ → Float) → ((i : ℕ) (x : Float) → F.post f i x → x ≡ g i) → result ≡ by_component kind g }
{
    match kind {
        Kind::Number => Value::Number(f(0)),
        Kind::Vec2 => Value::Vec2(f(0), f(1)),
        Kind::Vec3 => Value::Vec3(f(0), f(1), f(2)),
        Kind::Vec4 => Value::Vec4(f(0), f(1), f(2), f(3)),
        _ => Value::Undefined,
    }
}

fn logic(f: Logic, a: Value, b: Value) -> bool
    ensures { result ≡ logic_of f a b }
{
    match f {
        Logic::Not => !a.is_true(),
        Logic::And => a.is_true() && b.is_true(),
        Logic::Or => a.is_true() || b.is_true(),
    }
}

fn equality(texts: Texts, f: Equality, a: Value, b: Value) -> bool
    ensures { result ≡ equality_of (text_of texts.entry) f a b }
{
    let same = equal(texts, a, b);
    match f {
        Equality::Equal => same,
        Equality::NotEqual => !same,
    }
}

// ---- products

// The products of the components, added left to right.
#[tactic(auto, unfolding(crate::specs::Meaning::dot_of))]
fn dot(a: Value, b: Value) -> f64
    ensures { result ≡ dot_of a b }
{
    match a {
        Value::Number(x) => x * b.component(0),
        Value::Vec2(x, y) => x * b.component(0) + y * b.component(1),
        Value::Vec3(x, y, z) => x * b.component(0) + y * b.component(1) + z * b.component(2),
        Value::Vec4(x, y, z, w) => {
            let three = x * b.component(0) + y * b.component(1) + z * b.component(2);
            three + w * b.component(3)
        }
        _ => 0.0,
    }
}

// p.j q.k - p.k q.j
#[tactic(auto, unfolding(crate::specs::Meaning::cross_at))]
fn cross_at(p: Value, q: Value, j: u8, k: u8) -> f64
    ensures { result ≡ cross_at p q j k }
{
    p.component(j) * q.component(k) - p.component(k) * q.component(j)
}

fn product(f: Product, a: Value, b: Value) -> Value
    ensures { result ≡ product_of f a b }
{
    match f {
        Product::Dot => Value::Number(dot(a, b)),
        Product::Cross => Value::Vec3(
            cross_at(a, b, 1, 2),
            cross_at(a, b, 2, 0),
            cross_at(a, b, 0, 1),
        ),
    }
}

// ---- constructors

// A colour with an alpha, if one is given.
#[tactic(auto, unfolding(crate::specs::Meaning::alpha_or))]
fn alpha_or(c: Colour, a: Value) -> Colour
    ensures { result ≡ alpha_or c a }
{
    match a {
        Value::Number(x) => c.with_alpha(x),
        _ => c,
    }
}

// White, or the colour of a text, with an alpha if one is given.
fn color(texts: Texts, a: Value, b: Value) -> Colour
    ensures { result ≡ color_of (text_of texts.entry) a b }
{
    match a {
        // A style with a text that names no colour is refused before.
        Value::String(s) => alpha_or(
            Colour::from_text(texts.bytes(s)).unwrap_or(Colour::WHITE),
            b,
        ),
        _ => Colour::WHITE,
    }
}

fn vec4_of(c: Colour) -> Value
    ensures { result ≡ vec4_of c }
{
    Value::Vec4(c.red, c.green, c.blue, c.alpha)
}

fn construct(texts: Texts, f: Constructor, operands: &[Value]) -> Value
    ensures { result ≡ constructed (text_of texts.entry) f operands.now }
{
    let first = |place| operand(operands, place).component(0);
    let joined = |i| joined_at(operands, i);
    match f {
        Constructor::Vec2 => Value::Vec2(joined(0), joined(1)),
        Constructor::Vec3 => Value::Vec3(joined(0), joined(1), joined(2)),
        Constructor::Vec4 => Value::Vec4(joined(0), joined(1), joined(2), joined(3)),
        Constructor::Rgb => vec4_of(Colour::rgb(first(0), first(1), first(2))),
        Constructor::Rgba => vec4_of(Colour::rgba(first(0), first(1), first(2), first(3))),
        Constructor::Color => vec4_of(color(texts, operand(operands, 0), operand(operands, 1))),
    }
}

// ---- every operation

// The value that an operation makes, of the kind that its rule gives.
pub(crate) fn make(texts: Texts, operation: Operation, kind: Kind, operands: &[Value]) -> Value
    ensures { result ≡ made_of (text_of texts.entry) operation kind operands.now }
{
    let a = operand(operands, 0);
    let b = operand(operands, 1);
    let c = operand(operands, 2);
    match operation {
        Operation::Unary(f) => by_component(kind, |i| unary(f, a.component(i))),
        Operation::Binary(f) => by_component(kind, |i| binary(f, a.component(i), b.component(i))),
        Operation::Ternary(f) => {
            by_component(
                kind,
                |i| ternary(f, a.component(i), b.component(i), c.component(i)),
            )
        }
        Operation::Logic(f) => Value::Boolean(logic(f, a, b)),
        Operation::Order(f) => Value::Boolean(order(f, a.component(0), b.component(0))),
        Operation::Equality(f) => Value::Boolean(equality(texts, f, a, b)),
        Operation::Test(f) => Value::Boolean(test(f, a.component(0))),
        Operation::Constructor(f) => construct(texts, f, operands),
        Operation::Product(f) => product(f, a, b),
        Operation::Pick(member) => Value::Number(a.component(index(member))),
    }
}
