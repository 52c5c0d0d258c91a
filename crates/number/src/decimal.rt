// Decimal text, and the binary64 that it stands for.
ghost use Rattle.std.specs.Prelude.{◌≡◌, drop};
ghost use Rattle.number.specs.Decimal.{is_digit, digits, whole_part, fraction, read_at, ten_to, value_of};
ghost use Rattle.number.specs.Inner.{pushed, gathered};

// What stands at a place in a text. Each of the three has its own next step: where no number stands, another
// token may; a number that is too long is refused.
#[derive(Clone, Copy, Debug, PartialEq, Eq)]
pub enum Decimal {
    Nothing,
    // The number ends before `end`. `digits` is the whole number of its digits, of which `places`
    // stand after the point.
    Number { end: usize, digits: u64, places: u8 },
    TooLong { end: usize },
}

// How many digits were read, and the whole number of them and those before.
#[derive(Clone, Copy, Debug, PartialEq, Eq)]
struct Digits {
    count: usize,
    value: u64,
}

const MOST_DIGITS: usize = 15;

// A number of at most 15 digits is below this before its last digit.
const ROOM_FOR_DIGIT: u64 = 100_000_000_000_000;

// Whether a byte is one of `0` to `9`.
pub fn is_digit(b: u8) -> bool
    ensures { result ≡ is_digit b }
{
    b.is_ascii_digit()
}

// What stands from a place on, nothing past the end.
pub fn rest(text: &[u8], at: usize) -> &[u8]
    ensures { result.now ≡ drop at text.now }
{
    text.get(at..).unwrap_or_default()
}

// One digit more. A number of over 15 digits is refused, so its value need not grow.
fn push(value: u64, b: u8) -> u64
    ensures { result ≡ pushed value b }
{
    if value < ROOM_FOR_DIGIT && b'0' <= b {
        10 * value + u64::from(b - b'0')
    } else {
        value
    }
}

// The digits that a text begins with, after those of a number.
fn leading_digits(text: &[u8], value: u64) -> Digits
    ensures { result ≡ gathered value (digits text.now) }
{
    let mut read = Digits { count: 0, value };
    for b in text {
        if !is_digit(*b) {
            return read;
        }
        read = Digits {
            count: read.count + 1,
            value: push(read.value, *b),
        };
    }
    read
}

fn whole_part(text: &[u8]) -> Digits
    ensures { result ≡ gathered 0 (whole_part text.now) }
{
    if text.starts_with(b"0") {
        Digits { count: 1, value: 0 }
    } else {
        leading_digits(text, 0)
    }
}

// The digits after a point, none where there is no point, after those of a number.
fn fraction(text: &[u8], value: u64) -> Digits
    ensures { result ≡ gathered value (fraction text.now) }
{
    match text {
        [b'.', after @ ..] => leading_digits(after, value),
        _ => Digits { count: 0, value },
    }
}

// The longest number at a place.
pub fn read(text: &[u8], at: usize) -> Decimal
    ensures { result ≡ read_at text.now at }
{
    let whole = whole_part(rest(text, at));
    if whole.count == 0 {
        return Decimal::Nothing;
    }
    let point = at + whole.count;
    let all = fraction(rest(text, point), whole.value);
    let end = if all.count == 0 {
        point
    } else {
        point + 1 + all.count
    };
    if whole.count + all.count <= MOST_DIGITS {
        Decimal::Number {
            end,
            digits: all.value,
            places: all.count as u8,
        }
    } else {
        Decimal::TooLong { end }
    }
}

fn ten_to(k: u8) -> f64
    ensures { result ≡ ten_to k }
{
    let mut power = 1.0;
    for _ in 0..k {
        power *= 10.0;
    }
    power
}

// The value of a number: the whole number of its digits, divided once by ten to the places.
pub fn value(negative: bool, digits: u64, places: u8) -> f64
    ensures { result ≡ value_of negative digits places }
{
    let quotient = std::num::nearest_u64_to_f64(digits) / ten_to(places);
    if negative { -quotient } else { quotient }
}
