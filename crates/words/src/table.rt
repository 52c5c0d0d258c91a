// A word's place in a table.
ghost use Rattle.std.specs.Prelude.{◌≡◌, ◌==◌, map};
ghost use Rattle.std.specs.List.{zip, list_all};
ghost use Rattle.lexer.specs.Bytes.{same, place_in};
ghost use Rattle.words.specs.Table.{folded, words_in};

use lexer::bytes::{Class, run_end};

// The byte, or its small letter if letter case is not to count.
pub fn fold(folding: bool, b: u8) -> u8
    ensures { result ≡ folded folding b }
{
    if folding { b.to_ascii_lowercase() } else { b }
}

// Whether the bytes of a word of a table are those of a word, as far as both go.
fn agree(part: &[u8], word: &[u8], folding: bool) -> bool
    ensures { result ≡ list_all (λ p. p.0 == folded folding p.1) (zip part.now word.now) }
{
    part.iter().zip(word).all(|(a, b)| *a == fold(folding, *b))
}

fn is_word(part: &[u8], word: &[u8], folding: bool) -> bool
    ensures { result ≡ same part.now (map (folded folding) word.now) }
{
    part.len() == word.len() && agree(part, word, folding)
}

// The number of a word in a table, or how many words the table has if it is none of them: a function's number is
// stored in a tree as it is, also where it names none, so that what is stored is one number and no option. The
// words of a table are letters, digits and underscores. The loop goes from word to word: `split` would give one
// word more, an empty one, for a table that ends in what parts its words.
pub fn number_in(table: &[u8], word: &[u8], folding: bool) -> usize
    ensures { result ≡ place_in (words_in table.now) (map (folded folding) word.now) }
{
    let mut at = 0;
    let mut number = 0;
    while at < table.len() {
        let end = run_end(table, at, Class::Name);
        if is_word(&table[at..end], word, folding) {
            return number;
        }
        at = end + 1;
        number += 1;
    }
    number
}
