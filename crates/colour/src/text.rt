// The colour that a text names.
ghost use Rattle.std.specs.Prelude.{◌≡◌, ◌<◌, IfSome};
ghost use Rattle.colour.specs.Inner.{digit_of, byte_of, found};
ghost use Rattle.colour.specs.Text.{short_hex, long_hex, hex_text, colour_of};

use crate::colour::Colour;

// CSS's sixteen basic words, each with its colour.
const BASIC: [(&[u8], Colour); 16] = [
    (b"aqua", Colour::AQUA),
    (b"black", Colour::BLACK),
    (b"blue", Colour::BLUE),
    (b"fuchsia", Colour::FUCHSIA),
    (b"gray", Colour::GRAY),
    (b"green", Colour::GREEN),
    (b"lime", Colour::LIME),
    (b"maroon", Colour::MAROON),
    (b"navy", Colour::NAVY),
    (b"olive", Colour::OLIVE),
    (b"purple", Colour::PURPLE),
    (b"red", Colour::RED),
    (b"silver", Colour::SILVER),
    (b"teal", Colour::TEAL),
    (b"white", Colour::WHITE),
    (b"yellow", Colour::YELLOW),
];

fn hex_digit(b: u8) -> Option<u8>
    ensures value { result ≡ digit_of b }
    ensures small { IfSome result (λ v. v < 16) }
{
    match b {
        b'0'..=b'9' => Some(b - b'0'),
        b'A'..=b'F' => Some(b - b'A' + 10),
        b'a'..=b'f' => Some(b - b'a' + 10),
        _ => None,
    }
}

fn hex_byte(high: u8, low: u8) -> Option<u8>
    ensures { result ≡ byte_of high low }
{
    Some(16 * hex_digit(high)? + hex_digit(low)?)
}

// Six digits, two for each of red, green and blue.
fn long_hex(r: u8, s: u8, g: u8, h: u8, b: u8, c: u8) -> Option<Colour>
    ensures { result ≡ long_hex r s g h b c }
{
    Some(Colour::of_bytes(hex_byte(r, s)?, hex_byte(g, h)?, hex_byte(b, c)?))
}

// Three digits, each of which stands for two.
fn short_hex(r: u8, g: u8, b: u8) -> Option<Colour>
    ensures { result ≡ short_hex r g b }
{
    long_hex(r, r, g, g, b, b)
}

// What stands after a `#`.
fn hex_text(digits: &[u8]) -> Option<Colour>
    ensures { result ≡ hex_text digits.now }
{
    match digits {
        [r, g, b] => short_hex(*r, *g, *b),
        [r, s, g, h, b, c] => long_hex(*r, *s, *g, *h, *b, *c),
        _ => None,
    }
}

// The colour of a word of a table, in any letter case.
fn found(table: &[(&[u8], Colour)], text: &[u8]) -> Option<Colour>
    ensures { result ≡ found table.now text.now }
{
    for (word, colour) in table {
        if text.eq_ignore_ascii_case(word) {
            return Some(*colour);
        }
    }
    None
}

impl Colour {
    // The colour of a text: `#` and hex digits, or a basic word.
    pub fn from_text(text: &[u8]) -> Option<Colour>
        ensures { result ≡ colour_of text.now }
    {
        match text.strip_prefix(b"#") {
            Some(digits) => hex_text(digits),
            None => found(&BASIC, text),
        }
    }
}
