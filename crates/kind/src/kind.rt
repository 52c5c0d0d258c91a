// The eight kinds of values.
ghost use Rattle.std.specs.Prelude.{◌≡◌};
ghost use Rattle.kind.specs.Kind.{dimension_of, number_of};

// Page 01's term for the dynamic type of a value. The order is that of its list.
#[derive(Clone, Copy, Debug, Default, PartialEq, Eq, PartialOrd, Ord, Hash)]
pub enum Kind {
    #[default]
    Undefined,
    Null,
    Boolean,
    Number,
    String,
    Vec2,
    Vec3,
    Vec4,
}

impl Kind {
    pub const ALL: [Kind; 8] = [
        Kind::Undefined,
        Kind::Null,
        Kind::Boolean,
        Kind::Number,
        Kind::String,
        Kind::Vec2,
        Kind::Vec3,
        Kind::Vec4,
    ];
}

// The number of a kind is its place in page 01's list.
pub fn number(kind: Kind) -> u8
    ensures { result ≡ number_of kind }
{
    kind as u8
}

// How many numbers a value of a kind has as components: a Number is its own one.
pub fn dimension(kind: Kind) -> u8
    ensures { result ≡ dimension_of kind }
{
    match kind {
        Kind::Number => 1,
        Kind::Vec2 => 2,
        Kind::Vec3 => 3,
        Kind::Vec4 => 4,
        _ => 0,
    }
}
