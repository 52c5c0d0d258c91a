// Sets of kinds.
ghost use Rattle.std.specs.Prelude.{◌≡◌};
ghost use Rattle.kind.specs.Set.{has, single_of, union_of, within_of, empty_of};

use crate::kind::Kind;

#[derive(Clone, Copy, Debug, Default, PartialEq, Eq)]
pub struct Kinds {
    pub undefined: bool,
    pub null: bool,
    pub boolean: bool,
    pub number: bool,
    pub string: bool,
    pub vec2: bool,
    pub vec3: bool,
    pub vec4: bool,
}

impl Kinds {
    pub const NONE: Kinds = Kinds {
        undefined: false,
        null: false,
        boolean: false,
        number: false,
        string: false,
        vec2: false,
        vec3: false,
        vec4: false,
    };

    pub const ALL: Kinds = Kinds {
        undefined: true,
        null: true,
        boolean: true,
        number: true,
        string: true,
        vec2: true,
        vec3: true,
        vec4: true,
    };

    pub const UNDEFINED: Kinds = Kinds {
        undefined: true,
        ..Kinds::NONE
    };

    pub const NULL: Kinds = Kinds {
        null: true,
        ..Kinds::NONE
    };

    pub const BOOLEAN: Kinds = Kinds {
        boolean: true,
        ..Kinds::NONE
    };

    pub const NUMBER: Kinds = Kinds {
        number: true,
        ..Kinds::NONE
    };

    pub const STRING: Kinds = Kinds {
        string: true,
        ..Kinds::NONE
    };

    pub const VEC2: Kinds = Kinds {
        vec2: true,
        ..Kinds::NONE
    };

    pub const VEC3: Kinds = Kinds {
        vec3: true,
        ..Kinds::NONE
    };

    pub const VEC4: Kinds = Kinds {
        vec4: true,
        ..Kinds::NONE
    };

    // The set of one kind.
    pub fn single(kind: Kind) -> Kinds
        ensures { result ≡ single_of kind }
    {
        match kind {
            Kind::Undefined => Kinds::UNDEFINED,
            Kind::Null => Kinds::NULL,
            Kind::Boolean => Kinds::BOOLEAN,
            Kind::Number => Kinds::NUMBER,
            Kind::String => Kinds::STRING,
            Kind::Vec2 => Kinds::VEC2,
            Kind::Vec3 => Kinds::VEC3,
            Kind::Vec4 => Kinds::VEC4,
        }
    }

    pub fn has(self, kind: Kind) -> bool
        ensures { result ≡ has self kind }
    {
        match kind {
            Kind::Undefined => self.undefined,
            Kind::Null => self.null,
            Kind::Boolean => self.boolean,
            Kind::Number => self.number,
            Kind::String => self.string,
            Kind::Vec2 => self.vec2,
            Kind::Vec3 => self.vec3,
            Kind::Vec4 => self.vec4,
        }
    }

    // What is in one set or the other.
    pub fn union(self, other: Kinds) -> Kinds
        ensures { result ≡ union_of self other }
    {
        Kinds {
            undefined: self.undefined | other.undefined,
            null: self.null | other.null,
            boolean: self.boolean | other.boolean,
            number: self.number | other.number,
            string: self.string | other.string,
            vec2: self.vec2 | other.vec2,
            vec3: self.vec3 | other.vec3,
            vec4: self.vec4 | other.vec4,
        }
    }

    pub fn is_empty(self) -> bool
        ensures { result ≡ empty_of self }
    {
        self == Kinds::NONE
    }

    // Whether every kind of the set is in the other.
    pub fn is_within(self, other: Kinds) -> bool
        ensures { result ≡ within_of self other }
    {
        self.union(other) == other
    }
}
