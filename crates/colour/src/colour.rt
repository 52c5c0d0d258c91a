// A colour: four numbers, which are clamped and made bytes when it is shown.
ghost use Rattle.std.specs.Prelude.{◌≡◌};
ghost use Rattle.colour.specs.Colour.{rgb_of, rgba_of, of_bytes, with_alpha, clamped_of, bytes_of};

use number::colour::{byte, component};

#[derive(Clone, Copy, Debug, PartialEq)]
pub struct Colour {
    pub red: f64,
    pub green: f64,
    pub blue: f64,
    pub alpha: f64,
}

// A colour as it is shown.
#[derive(Clone, Copy, Debug, PartialEq, Eq)]
pub struct Rgba8 {
    pub red: u8,
    pub green: u8,
    pub blue: u8,
    pub alpha: u8,
}

// What the bytes 128 and 192 are of 255.
const HALF: f64 = 128.0 / 255.0;

const LIGHT: f64 = 192.0 / 255.0;

// The colours of CSS's sixteen basic words.
impl Colour {
    pub const AQUA: Colour = Colour {
        green: 1.0,
        blue: 1.0,
        ..Colour::BLACK
    };

    pub const BLACK: Colour = Colour {
        red: 0.0,
        green: 0.0,
        blue: 0.0,
        alpha: 1.0,
    };

    pub const BLUE: Colour = Colour {
        blue: 1.0,
        ..Colour::BLACK
    };

    pub const FUCHSIA: Colour = Colour {
        red: 1.0,
        blue: 1.0,
        ..Colour::BLACK
    };

    pub const GRAY: Colour = Colour {
        red: HALF,
        green: HALF,
        blue: HALF,
        ..Colour::BLACK
    };

    pub const GREEN: Colour = Colour {
        green: HALF,
        ..Colour::BLACK
    };

    pub const LIME: Colour = Colour {
        green: 1.0,
        ..Colour::BLACK
    };

    pub const MAROON: Colour = Colour {
        red: HALF,
        ..Colour::BLACK
    };

    pub const NAVY: Colour = Colour {
        blue: HALF,
        ..Colour::BLACK
    };

    pub const OLIVE: Colour = Colour {
        red: HALF,
        green: HALF,
        ..Colour::BLACK
    };

    pub const PURPLE: Colour = Colour {
        red: HALF,
        blue: HALF,
        ..Colour::BLACK
    };

    pub const RED: Colour = Colour {
        red: 1.0,
        ..Colour::BLACK
    };

    pub const SILVER: Colour = Colour {
        red: LIGHT,
        green: LIGHT,
        blue: LIGHT,
        ..Colour::BLACK
    };

    pub const TEAL: Colour = Colour {
        green: HALF,
        blue: HALF,
        ..Colour::BLACK
    };

    pub const WHITE: Colour = Colour {
        red: 1.0,
        green: 1.0,
        blue: 1.0,
        ..Colour::BLACK
    };

    pub const YELLOW: Colour = Colour {
        red: 1.0,
        green: 1.0,
        ..Colour::BLACK
    };
}

impl Colour {
    // Red, green and blue from 0 to 255.
    pub fn rgb(red: f64, green: f64, blue: f64) -> Colour
        ensures { result ≡ rgb_of red green blue }
    {
        Colour::rgba(red, green, blue, 1.0)
    }

    // The same with an alpha, which is taken as it is.
    pub fn rgba(red: f64, green: f64, blue: f64, alpha: f64) -> Colour
        ensures { result ≡ rgba_of red green blue alpha }
    {
        Colour {
            red: red / 255.0,
            green: green / 255.0,
            blue: blue / 255.0,
            alpha,
        }
    }

    pub fn of_bytes(red: u8, green: u8, blue: u8) -> Colour
        ensures { result ≡ of_bytes red green blue }
    {
        Colour::rgb(f64::from(red), f64::from(green), f64::from(blue))
    }

    pub fn with_alpha(self, alpha: f64) -> Colour
        ensures { result ≡ with_alpha self alpha }
    {
        Colour { alpha, ..self }
    }

    // Each number held to 0 to 1.
    pub fn clamped(self) -> Colour
        ensures { result ≡ clamped_of self }
    {
        Colour {
            red: component(self.red),
            green: component(self.green),
            blue: component(self.blue),
            alpha: component(self.alpha),
        }
    }

    // The colour as it is shown: each number clamped, and then its byte.
    pub fn bytes(self) -> Rgba8
        ensures { result ≡ bytes_of self }
    {
        let shown = self.clamped();
        Rgba8 {
            red: byte(shown.red),
            green: byte(shown.green),
            blue: byte(shown.blue),
            alpha: byte(shown.alpha),
        }
    }
}
