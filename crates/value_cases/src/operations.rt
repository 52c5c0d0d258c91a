// Operations by their numbers in the files.
use cases::line;
use kind::operation::{
    Binary, Constructor, Equality, Logic, Member, Operation, Order, Product, Ternary, Test, Unary,
};

pub(crate) const COUNT: usize = 40;

// In the order of their numbers, which is that of the operations of each sort too.
const OPERATIONS: [Operation; COUNT] = [
    Operation::Unary(Unary::Plus),
    Operation::Unary(Unary::Minus),
    Operation::Unary(Unary::Abs),
    Operation::Unary(Unary::Sign),
    Operation::Unary(Unary::Floor),
    Operation::Unary(Unary::Ceil),
    Operation::Unary(Unary::Round),
    Operation::Unary(Unary::Fract),
    Operation::Binary(Binary::Add),
    Operation::Binary(Binary::Subtract),
    Operation::Binary(Binary::Multiply),
    Operation::Binary(Binary::Divide),
    Operation::Binary(Binary::Remainder),
    Operation::Binary(Binary::Min),
    Operation::Binary(Binary::Max),
    Operation::Ternary(Ternary::Clamp),
    Operation::Ternary(Ternary::Mix),
    Operation::Logic(Logic::Not),
    Operation::Logic(Logic::And),
    Operation::Logic(Logic::Or),
    Operation::Order(Order::Less),
    Operation::Order(Order::LessEqual),
    Operation::Order(Order::Greater),
    Operation::Order(Order::GreaterEqual),
    Operation::Equality(Equality::Equal),
    Operation::Equality(Equality::NotEqual),
    Operation::Test(Test::IsNan),
    Operation::Test(Test::IsFinite),
    Operation::Constructor(Constructor::Vec2),
    Operation::Constructor(Constructor::Vec3),
    Operation::Constructor(Constructor::Vec4),
    Operation::Constructor(Constructor::Rgb),
    Operation::Constructor(Constructor::Rgba),
    Operation::Constructor(Constructor::Color),
    Operation::Product(Product::Dot),
    Operation::Product(Product::Cross),
    Operation::Pick(Member::X),
    Operation::Pick(Member::Y),
    Operation::Pick(Member::Z),
    Operation::Pick(Member::W),
];

// The operation that a line begins with.
pub(crate) fn of_line(line: &[u8]) -> Option<Operation> {
    OPERATIONS.get(line::number(line, 0, 2) as usize).copied()
}

pub(crate) fn number(operation: Operation) -> u64 {
    match operation {
        Operation::Unary(f) => f as u64,
        Operation::Binary(f) => 8 + f as u64,
        Operation::Ternary(f) => 15 + f as u64,
        Operation::Logic(f) => 17 + f as u64,
        Operation::Order(f) => 20 + f as u64,
        Operation::Equality(f) => 24 + f as u64,
        Operation::Test(f) => 26 + f as u64,
        Operation::Constructor(f) => 28 + f as u64,
        Operation::Product(f) => 34 + f as u64,
        Operation::Pick(f) => 36 + f as u64,
    }
}
