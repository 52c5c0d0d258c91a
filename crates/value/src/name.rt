// The names of functions and members, and the operations that they stand for.
ghost use Rattle.std.specs.Prelude.{◌≡◌};
ghost use Rattle.lexer.specs.Bytes.{place_in};
ghost use Rattle.value.specs.Name.{function_names, function_at, member_index, pick_at};

use kind::operation::{Binary, Constructor, Member, Operation, Product, Ternary, Test, Unary};
use words::table::number_in;

// The number of a function's name, or 20 for any other word, which the tree holds too.
pub fn function_number(word: &[u8]) -> usize
    ensures { result ≡ place_in function_names word.now }
{
    number_in(
        b"vec2 vec3 vec4 rgb rgba color isNaN isFinite abs sign floor ceil round fract min max clamp mix dot cross",
        word,
        false,
    )
}

// In the order of page 01; the number of a function is its place here.
const FUNCTIONS: [Operation; 20] = [
    Operation::Constructor(Constructor::Vec2),
    Operation::Constructor(Constructor::Vec3),
    Operation::Constructor(Constructor::Vec4),
    Operation::Constructor(Constructor::Rgb),
    Operation::Constructor(Constructor::Rgba),
    Operation::Constructor(Constructor::Color),
    Operation::Test(Test::IsNan),
    Operation::Test(Test::IsFinite),
    Operation::Unary(Unary::Abs),
    Operation::Unary(Unary::Sign),
    Operation::Unary(Unary::Floor),
    Operation::Unary(Unary::Ceil),
    Operation::Unary(Unary::Round),
    Operation::Unary(Unary::Fract),
    Operation::Binary(Binary::Min),
    Operation::Binary(Binary::Max),
    Operation::Ternary(Ternary::Clamp),
    Operation::Ternary(Ternary::Mix),
    Operation::Product(Product::Dot),
    Operation::Product(Product::Cross),
];

pub fn function_at(number: usize) -> Option<Operation>
    ensures { result ≡ function_at number }
{
    FUNCTIONS.get(number).copied()
}

// The index of the component that a member's name picks, or 4 for any other word.
pub fn member_index(word: &[u8]) -> usize
    ensures { result ≡ member_index word.now }
{
    let place = number_in(b"x y z w r g b a", word, false);
    if place < 8 { place % 4 } else { 4 }
}

const PICKS: [Operation; 4] = [
    Operation::Pick(Member::X),
    Operation::Pick(Member::Y),
    Operation::Pick(Member::Z),
    Operation::Pick(Member::W),
];

pub fn pick_at(index: usize) -> Option<Operation>
    ensures { result ≡ pick_at index }
{
    PICKS.get(index).copied()
}
