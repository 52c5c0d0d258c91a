// Operators by their punctuators' numbers, as these lie in slots.
ghost use Rattle.std.specs.Prelude.{◌≡◌};
ghost use Rattle.checker.specs.Operator.{prefix_at, infix_at};

use kind::operation::{Binary, Equality, Logic, Operation, Order, Unary};
use lexer::punctuator::{
    AND, DIVIDE, EQUAL, GREATER, GREATER_OR_EQUAL, LESS, LESS_OR_EQUAL, MINUS, NOT, OR, PLUS,
    REMAINDER, TIMES, UNEQUAL,
};

// A unary operator.
#[tactic(auto, unfolding(crate::specs::Operator::prefix_at))]
pub fn prefix_at(number: usize) -> Option<Operation>
    ensures { result ≡ prefix_at number }
{
    let operation = match u8::try_from(number).ok()? {
        PLUS => Operation::Unary(Unary::Plus),
        MINUS => Operation::Unary(Unary::Minus),
        NOT => Operation::Logic(Logic::Not),
        _ => return None,
    };
    Some(operation)
}

// A binary operator.
#[tactic(auto, unfolding(crate::specs::Operator::infix_at))]
pub fn infix_at(number: usize) -> Option<Operation>
    ensures { result ≡ infix_at number }
{
    let operation = match u8::try_from(number).ok()? {
        OR => Operation::Logic(Logic::Or),
        AND => Operation::Logic(Logic::And),
        EQUAL => Operation::Equality(Equality::Equal),
        UNEQUAL => Operation::Equality(Equality::NotEqual),
        LESS => Operation::Order(Order::Less),
        LESS_OR_EQUAL => Operation::Order(Order::LessEqual),
        GREATER => Operation::Order(Order::Greater),
        GREATER_OR_EQUAL => Operation::Order(Order::GreaterEqual),
        PLUS => Operation::Binary(Binary::Add),
        MINUS => Operation::Binary(Binary::Subtract),
        TIMES => Operation::Binary(Binary::Multiply),
        DIVIDE => Operation::Binary(Binary::Divide),
        REMAINDER => Operation::Binary(Binary::Remainder),
        _ => return None,
    };
    Some(operation)
}
