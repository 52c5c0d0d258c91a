// Where the head of an input ends and its features begin.
ghost use Rattle.std.specs.Prelude.{◌≡◌, ◌≤◌, length};
ghost use Rattle.text.specs.Head.{is_feature, head_end};

use crate::{part, word};

// Whether a line is one of a feature, by its first field.
pub fn is_feature(line: &[u8]) -> bool
    ensures { result ≡ is_feature line.now }
{
    let end = part::end(part::TAB, line, 0);
    word::is_feature(&line[..end])
}

// Where the first line of a feature begins, or the input's end if there is none. By places and not by
// an iterator of lines, since the answer is a place.
pub fn head_end(input: &[u8]) -> usize
    ensures is { result ≡ head_end input.now }
    ensures inside { result ≤ length input.now }
{
    let mut at = 0;
    while at < input.len() {
        let end = part::end(part::LINE_FEED, input, at);
        if is_feature(&input[at..end]) {
            return at;
        }
        if input.len() <= end {
            return end;
        }
        at = end + 1;
    }
    at
}
