// Classes of bytes, and runs of them in a text. Digits are those of the crate `number`.
ghost use Rattle.std.specs.Prelude.{◌≡◌, ◌∷◌, [], ◌+◌, ◌≤◌, min, drop, get_or};
ghost use Rattle.std.specs.List.{prefix_len};
ghost use Rattle.std.proofs.Math.Seq.{slice};
ghost use Rattle.lexer.specs.Bytes.{is_space, is_letter, is_hex_digit, is_name_byte, is_name_length, is_word_start, is_quote, in_class, run};
ghost use Rattle.lexer.specs.Bytes.{begins, same};

pub use number::decimal::{is_digit, rest};

// What a run is made of.
#[derive(Clone, Copy, Debug, PartialEq, Eq)]
pub enum Class {
    Space,
    // Letters, digits and underscores.
    Name,
    // What may stand inside a string that this quote opened.
    Inside(u8),
}

const LONGEST_NAME: usize = 64;

pub fn is_space(b: u8) -> bool
    ensures { result ≡ is_space b }
{
    b == b' '
}

pub fn is_letter(b: u8) -> bool
    ensures { result ≡ is_letter b }
{
    b.is_ascii_alphabetic()
}

pub fn is_hex_digit(b: u8) -> bool
    ensures { result ≡ is_hex_digit b }
{
    b.is_ascii_hexdigit()
}

pub fn is_name_byte(b: u8) -> bool
    ensures { result ≡ is_name_byte b }
{
    b.is_ascii_alphanumeric() || b == b'_'
}

// Whether a name may have so many bytes.
pub fn is_name_length(n: usize) -> bool
    ensures { result ≡ is_name_length n }
{
    1 <= n && n <= LONGEST_NAME
}

// Whether a word may begin with a byte.
pub fn is_word_start(b: u8) -> bool
    ensures { result ≡ is_word_start b }
{
    is_letter(b) || b == b'_'
}

pub fn is_quote(b: u8) -> bool
    ensures { result ≡ is_quote b }
{
    b == b'\'' || b == b'"'
}

fn is_in(class: Class, b: u8) -> bool
    ensures { result ≡ in_class class b }
{
    match class {
        Class::Space => is_space(b),
        Class::Name => is_name_byte(b),
        Class::Inside(quote) => b' ' <= b && b != quote,
    }
}

// How many bytes of a class a text begins with.
fn run(text: &[u8], class: Class) -> usize
    ensures { result ≡ prefix_len (in_class class) text.now }
{
    text.iter().take_while(|b| is_in(class, **b)).count()
}

// Where the run of a class ends that begins at a place.
pub fn run_end(text: &[u8], at: usize, class: Class) -> usize
    ensures { result ≡ at + run (in_class class) (drop at text.now) }
{
    at + run(rest(text, at), class)
}

// The byte some bytes after a place, 0 past the end.
pub(crate) fn byte_after(text: &[u8], at: usize, k: usize) -> u8
    ensures { result ≡ get_or (drop at text.now) k 0 }
{
    rest(text, at).get(k).copied().unwrap_or(0)
}

// Whether a byte stands at a place.
pub fn has_byte(text: &[u8], at: usize, b: u8) -> bool
    ensures { result ≡ begins (b ∷ []) (drop at text.now) }
{
    has_word(text, at, &[b])
}

// Whether a word stands at a place, whatever follows it.
pub fn has_word(text: &[u8], at: usize, word: &[u8]) -> bool
    ensures { result ≡ begins word.now (drop at text.now) }
{
    rest(text, at).starts_with(word)
}

// Whether parts of two texts are the same. A part goes no further than its text.
pub fn same_part(a: &[u8], start: usize, end: usize, b: &[u8], from: usize, to: usize) -> bool
    ensures { result ≡ same (slice start end a.now) (slice from to b.now) }
{
    let stop = end.min(a.len());
    let begin = start.min(stop);
    let last = to.min(b.len());
    let first = from.min(last);
    a[begin..stop] == b[first..last]
}
