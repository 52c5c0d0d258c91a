// The kind that an operation gives for the kinds of its operands, or a fault: page 01's and 004's lists
// of signatures, as patterns.
ghost use Rattle.std.specs.Prelude.{◌≡◌, ◌∷◌, []};
ghost use Rattle.kind.specs.Rule.{rule_of};
ghost use Rattle.kind.specs.declared.operation.Operation.TheVariants as op;

use crate::kind::Kind;
use crate::kind::Kind::{Boolean, Number, String, Vec2, Vec3, Vec4};
use crate::operation::{Binary, Constructor, Logic, Member, Operation, Product, Ternary};

#[tactic(auto, unfolding(crate::specs::Rule::rule_of))]
fn binary_rule(f: Binary, k: Kind, l: Kind) -> Option<Kind>
    ensures { result ≡ rule_of (op.Binary f) (k ∷ l ∷ []) }
{
    match (f, k, l) {
        (_, Number, Number) | (_, Vec2, Vec2) | (_, Vec3, Vec3) | (_, Vec4, Vec4) => Some(k),
        (
            Binary::Multiply | Binary::Divide | Binary::Min | Binary::Max,
            Vec2 | Vec3 | Vec4,
            Number,
        ) => Some(k),
        (Binary::Multiply, Number, Vec2 | Vec3 | Vec4) => Some(l),
        _ => None,
    }
}

#[tactic(auto, unfolding(crate::specs::Rule::rule_of))]
fn ternary_rule(f: Ternary, k: Kind, l: Kind, m: Kind) -> Option<Kind>
    ensures { result ≡ rule_of (op.Ternary f) (k ∷ l ∷ m ∷ []) }
{
    match (f, k, l, m) {
        (_, Number, Number, Number) => Some(k),
        (_, Vec2, Vec2, Vec2) | (_, Vec3, Vec3, Vec3) | (_, Vec4, Vec4, Vec4) => Some(k),
        (Ternary::Clamp, Vec2 | Vec3 | Vec4, Number, Number) => Some(k),
        (Ternary::Mix, Vec2, Vec2, Number)
        | (Ternary::Mix, Vec3, Vec3, Number)
        | (Ternary::Mix, Vec4, Vec4, Number) => Some(k),
        _ => None,
    }
}

#[tactic(auto, unfolding(crate::specs::Rule::rule_of))]
fn constructor_rule(f: Constructor, operands: &[Kind]) -> Option<Kind>
    ensures { result ≡ rule_of (op.Constructor f) operands.now }
{
    match (f, operands) {
        (Constructor::Vec2, [Number | Vec2 | Vec3 | Vec4] | [Number, Number]) => Some(Vec2),
        (Constructor::Vec3, [Number | Vec3 | Vec4] | [Number, Number, Number]) => Some(Vec3),
        (Constructor::Vec3, [Vec2, Number] | [Number, Vec2]) => Some(Vec3),
        (Constructor::Vec4, [Number | Vec4] | [Number, Number, Number, Number]) => Some(Vec4),
        (
            Constructor::Vec4,
            [Vec2, Number, Number] | [Number, Vec2, Number] | [Number, Number, Vec2],
        ) => Some(Vec4),
        (Constructor::Vec4, [Vec3, Number] | [Number, Vec3]) => Some(Vec4),
        (Constructor::Rgb, [Number, Number, Number]) => Some(Vec4),
        (Constructor::Rgba, [Number, Number, Number, Number]) => Some(Vec4),
        (Constructor::Color, [] | [String] | [String, Number]) => Some(Vec4),
        _ => None,
    }
}

// Of any count of operands.
#[tactic(auto, unfolding(crate::specs::Rule::rule_of))]
pub fn rule(operation: Operation, operands: &[Kind]) -> Option<Kind>
    ensures { result ≡ rule_of operation operands.now }
{
    match (operation, operands) {
        (Operation::Unary(_), [k @ (Number | Vec2 | Vec3 | Vec4)]) => Some(*k),
        (Operation::Binary(f), [k, l]) => binary_rule(f, *k, *l),
        (Operation::Ternary(f), [k, l, m]) => ternary_rule(f, *k, *l, *m),
        (Operation::Logic(Logic::Not), [Boolean]) => Some(Boolean),
        (Operation::Logic(Logic::And | Logic::Or), [Boolean, Boolean]) => Some(Boolean),
        (Operation::Order(_), [Number, Number]) => Some(Boolean),
        (Operation::Equality(_), [_, _]) => Some(Boolean),
        (Operation::Test(_), [Number]) => Some(Boolean),
        (Operation::Constructor(f), _) => constructor_rule(f, operands),
        (
            Operation::Product(Product::Dot),
            [Number, Number] | [Vec2, Vec2] | [Vec3, Vec3] | [Vec4, Vec4],
        ) => Some(Number),
        (Operation::Product(Product::Cross), [Vec3, Vec3]) => Some(Vec3),
        (Operation::Pick(_), [Vec4]) => Some(Number),
        (Operation::Pick(Member::X | Member::Y | Member::Z), [Vec3]) => Some(Number),
        (Operation::Pick(Member::X | Member::Y), [Vec2]) => Some(Number),
        _ => None,
    }
}
