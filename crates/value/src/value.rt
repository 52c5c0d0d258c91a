// Values of eight kinds.
ghost use Rattle.std.specs.Prelude.{◌≡◌, get_or};
ghost use Rattle.number.specs.Arithmetic.{nought};
ghost use Rattle.value.specs.Value.{kind_of, at, truth, span, colour_in};

use colour::colour::Colour;
use kind::kind::Kind;

// A string's place: in the style's text, if it is a literal, and else in the feature's.
#[derive(Clone, Copy, Debug, PartialEq, Eq)]
pub struct Span {
    pub literal: bool,
    pub start: usize,
    pub end: usize,
}

// The place of what is no String.
pub const NOWHERE: Span = Span {
    literal: false,
    start: 0,
    end: 0,
};

// `===` is no derived equality: strings are compared by their bytes, which lie in the texts.
#[derive(Clone, Copy, Debug, Default)]
pub enum Value {
    #[default]
    Undefined,
    Null,
    Boolean(bool),
    Number(f64),
    String(Span),
    Vec2(f64, f64),
    Vec3(f64, f64, f64),
    Vec4(f64, f64, f64, f64),
}

// A component by its index; what is not there is 0.
fn nth(components: &[f64], i: u8) -> f64
    ensures { result ≡ get_or components.now i nought }
{
    components.get(usize::from(i)).copied().unwrap_or(0.0)
}

impl Value {
    pub fn kind(self) -> Kind
        ensures { result ≡ kind_of self }
    {
        match self {
            Value::Undefined => Kind::Undefined,
            Value::Null => Kind::Null,
            Value::Boolean(_) => Kind::Boolean,
            Value::Number(_) => Kind::Number,
            Value::String(_) => Kind::String,
            Value::Vec2(..) => Kind::Vec2,
            Value::Vec3(..) => Kind::Vec3,
            Value::Vec4(..) => Kind::Vec4,
        }
    }

    // A component by its index; a Number stands at each. What is not there is 0.
    pub fn component(self, i: u8) -> f64
        ensures { result ≡ at i self }
    {
        match self {
            Value::Number(x) => x,
            Value::Vec2(x, y) => nth(&[x, y], i),
            Value::Vec3(x, y, z) => nth(&[x, y, z], i),
            Value::Vec4(x, y, z, w) => nth(&[x, y, z, w], i),
            _ => 0.0,
        }
    }

    // Whether it is true; what is no Boolean is not.
    pub fn is_true(self) -> bool
        ensures { result ≡ truth self }
    {
        matches!(self, Value::Boolean(true))
    }

    // A String's place; that of anything else is empty.
    pub fn span(self) -> Span
        ensures { result ≡ span self }
    {
        match self {
            Value::String(s) => s,
            _ => NOWHERE,
        }
    }

    // The colour that a vec4 is.
    #[tactic(auto, unfolding(crate::specs::Value::colour_in))]
    pub fn colour(self) -> Colour
        ensures { result ≡ colour_in self }
    {
        Colour {
            red: self.component(0),
            green: self.component(1),
            blue: self.component(2),
            alpha: self.component(3),
        }
    }
}
