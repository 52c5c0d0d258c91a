// Bytes that are written one behind the other into room that is lent. What does not fit is left out,
// so a page that is full may lack some.
ghost use Rattle.std.specs.Prelude.{◌≡◌, ◌∷◌, []};
ghost use Rattle.std.proofs.Math.Seq.{slice};
ghost use Rattle.output.specs.Page.{written, Writes};

#[derive(Drop)]
pub struct Page<'a> {
    pub room: &'a mut [u8],
    // Where the next byte goes.
    pub end: usize,
}

impl Page<'_> {
    pub fn byte(&mut self, b: u8)
        ensures { Writes self.old (b ∷ []) self.new }
    {
        if self.end < self.room.len() {
            self.room[self.end] = b;
            self.end += 1;
        }
    }

    // Those of a text from one place up to another, as far as the text goes.
    pub fn part(&mut self, text: &[u8], from: usize, to: usize)
        ensures { Writes self.old (slice from to text.now) self.new }
    {
        let end = to.min(text.len());
        self.text(&text[from.min(end)..end]);
    }

    pub fn text(&mut self, bytes: &[u8])
        ensures { Writes self.old bytes.now self.new }
    {
        self.end = text(self.room, self.end, bytes);
    }
}

// A text at a place: where it ends.
pub fn text(page: &mut [u8], at: usize, text: &[u8]) -> usize
    ensures { (page.new, result) ≡ written (page.old, at) text.now }
{
    if page.len() <= at {
        return at;
    }
    let count = text.len().min(page.len() - at);
    page[at..at + count].copy_from_slice(&text[..count]);
    at + count
}
