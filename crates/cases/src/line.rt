// Lines of a file: numbers as hex digits at fixed places.
ghost use Rattle.std.specs.Prelude.{◌≡◌, ◌%◌, ◌^◌, slice_index};
ghost use Rattle.std.specs.List.{zip, list_all};
ghost use Rattle.std.proofs.Math.Seq.{slice};
ghost use Rattle.cases.specs.Line.{digit_of, fits_byte, fits_form, with_digit, number_in};

// Fifteen digits leave room for one more.
const ROOM_FOR_DIGIT: u64 = 0x1000_0000_0000_0000;

// The value of a hex digit, in lower case, and 16 for any other byte.
fn digit(b: u8) -> u64
    ensures { result ≡ digit_of b }
{
    match b {
        b'0'..=b'9' => u64::from(b - b'0'),
        b'a'..=b'f' => u64::from(b - b'a') + 10,
        _ => 16,
    }
}

// The value grows by a digit. Of over sixteen the first fall away.
fn push(value: u64, b: u8) -> u64
    ensures { result ≡ with_digit value b % 2 ^ 64 }
{
    value % ROOM_FOR_DIGIT * 16 + digit(b) % 16
}

// In a form `h` stands for a hex digit, `?` for any byte, and any other byte for itself.
fn fits_byte(b: u8, form: u8) -> bool
    ensures { result ≡ fits_byte b form }
{
    match form {
        b'h' => digit(b) < 16,
        _ => form == b'?' || form == b,
    }
}

// Whether the bytes of a line fit those of a form, as far as both go.
fn fits_each(line: &[u8], form: &[u8]) -> bool
    ensures { result ≡ list_all (λ p. fits_byte p.0 p.1) (zip line.now form.now) }
{
    line.iter().zip(form).all(|(b, f)| fits_byte(*b, *f))
}

// Whether a line has the form, byte for byte.
pub fn fits(line: &[u8], form: &[u8]) -> bool
    ensures { result ≡ fits_form line.now form.now }
{
    line.len() == form.len() && fits_each(line, form)
}

// What stands from one place up to another, as far as the line goes.
fn part(line: &[u8], from: usize, to: usize) -> &[u8]
    ensures { result.now ≡ slice from to line.now }
{
    line.get(from..to.min(line.len())).unwrap_or_default()
}

// The number whose digits stand from one place up to another, as far as the line goes.
pub fn number(line: &[u8], from: usize, to: usize) -> u64
    ensures { result ≡ number_in line.now from to }
{
    let mut value = 0;
    for b in part(line, from, to) {
        value = push(value, *b);
    }
    value
}

// The byte at a place, and 0 past the end.
pub fn byte(line: &[u8], at: usize) -> u8
    ensures { result ≡ slice_index line.now at }
{
    line.get(at).copied().unwrap_or(0)
}

// The byte that two digits are, and of more digits the last two.
pub fn low_byte(x: u64) -> u8
    ensures { result ≡ x % 256 }
{
    (x % 256) as u8
}
