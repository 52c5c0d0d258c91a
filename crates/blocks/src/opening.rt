// The window that holds the input from its first byte on until the head is known to be whole.
ghost use Rattle.std.specs.Prelude.{◌≡◌};
ghost use Rattle.blocks.specs.Opening.{search_of};

use text::head::is_feature;
use text::part;
use text::part::LINE_FEED;

// Goes on from a place over the lines that an LF ends: where the first begins that is a feature's, or as
// an error how far the window's lines are known to be of the head. By places and not by an iterator of
// lines, since the answer is a place.
pub fn search(window: &[u8], from: usize) -> Result<usize, usize>
    ensures { result ≡ search_of window.now from }
{
    let mut at = from;
    loop {
        let end = part::end(LINE_FEED, window, at);
        if window.len() <= end {
            return Err(at);
        }
        if is_feature(&window[at..end]) {
            return Ok(at);
        }
        at = end + 1;
    }
}
