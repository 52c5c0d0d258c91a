// The operators, functions and picks of the style language.
ghost use Rattle.std.specs.Prelude.{◌≡◌};
ghost use Rattle.kind.specs.Operation.{index_of};

// Functions of one number, which go by component.
#[derive(Clone, Copy, Debug, PartialEq, Eq)]
pub enum Unary {
    Plus,
    Minus,
    Abs,
    Sign,
    Floor,
    Ceil,
    Round,
    Fract,
}

// Functions of two numbers, which go by component.
#[derive(Clone, Copy, Debug, PartialEq, Eq)]
pub enum Binary {
    Add,
    Subtract,
    Multiply,
    Divide,
    Remainder,
    Min,
    Max,
}

// Functions of three numbers, which go by component.
#[derive(Clone, Copy, Debug, PartialEq, Eq)]
pub enum Ternary {
    Clamp,
    Mix,
}

// `!`, `&&` and `||`.
#[derive(Clone, Copy, Debug, PartialEq, Eq)]
pub enum Logic {
    Not,
    And,
    Or,
}

// `<`, `<=`, `>` and `>=`.
#[derive(Clone, Copy, Debug, PartialEq, Eq)]
pub enum Order {
    Less,
    LessEqual,
    Greater,
    GreaterEqual,
}

// `===` and `!==`.
#[derive(Clone, Copy, Debug, PartialEq, Eq)]
pub enum Equality {
    Equal,
    NotEqual,
}

// Tests of one Number.
#[derive(Clone, Copy, Debug, PartialEq, Eq)]
pub enum Test {
    IsNan,
    IsFinite,
}

// What makes a vector or a colour.
#[derive(Clone, Copy, Debug, PartialEq, Eq)]
pub enum Constructor {
    Vec2,
    Vec3,
    Vec4,
    Rgb,
    Rgba,
    Color,
}

// Products of two vectors that are not by component.
#[derive(Clone, Copy, Debug, PartialEq, Eq)]
pub enum Product {
    Dot,
    Cross,
}

// What a pick picks: r g b a and the indices 0 to 3 are other names of x y z w.
#[derive(Clone, Copy, Debug, PartialEq, Eq)]
pub enum Member {
    X,
    Y,
    Z,
    W,
}

#[derive(Clone, Copy, Debug, PartialEq, Eq)]
pub enum Operation {
    Unary(Unary),
    Binary(Binary),
    Ternary(Ternary),
    Logic(Logic),
    Order(Order),
    Equality(Equality),
    Test(Test),
    Constructor(Constructor),
    Product(Product),
    Pick(Member),
}

// Which component a member is, from 0.
pub fn index(member: Member) -> u8
    ensures { result ≡ index_of member }
{
    member as u8
}
