// A slot: a tag of six bits and a link of ten.
ghost use Rattle.std.specs.Prelude.{◌≡◌, get_or};
ghost use Rattle.tree.specs.Slots.{word, tag_at, link_at, left_at, put, set_link, join};

const TAGS: usize = 64;

const LINKS: usize = 1024;

// A literal's tag is its form, below the variables'; a unary operator's is its punctuator's number.
pub(crate) const VARIABLE: usize = 8;

pub(crate) const FIRST_FUNCTION: usize = 16;

// Operators with parts on both sides begin with `?` and `:`.
pub(crate) const QUESTION: usize = 40;

pub(crate) const COLON: usize = 41;

pub(crate) const COMMA: usize = 55;

pub(crate) const FIRST_PICK: usize = 56;

fn packed(tag: usize, link: usize) -> u16
    ensures { result ≡ word tag link }
{
    (tag % TAGS * LINKS + link % LINKS) as u16
}

// The word of a slot, and 0 past the end.
pub(crate) fn word_at(slots: &[u16], at: usize) -> u16
    ensures { result ≡ get_or slots.now at 0 }
{
    slots.get(at).copied().unwrap_or(0)
}

pub(crate) fn tag_at(slots: &[u16], at: usize) -> usize
    ensures { result ≡ tag_at slots.now at }
{
    usize::from(word_at(slots, at)) / LINKS
}

pub(crate) fn link_at(slots: &[u16], at: usize) -> usize
    ensures { result ≡ link_at slots.now at }
{
    usize::from(word_at(slots, at)) % LINKS
}

// The link of the slot before a place.
pub(crate) fn left_at(slots: &[u16], at: usize) -> usize
    ensures { result ≡ left_at slots.now at }
{
    link_at(slots, at.saturating_sub(1))
}

// The slot of a node with no part or with parts on one side. Past the end nothing is written.
pub(crate) fn set_slot(slots: &mut [u16], at: usize, tag: usize, link: usize)
    ensures { slots.new ≡ put slots.old at tag link }
{
    if at < slots.len() {
        slots[at] = packed(tag, link);
    }
}

// The link of a slot alone.
fn set_link(slots: &mut [u16], at: usize, link: usize)
    ensures { slots.new ≡ set_link slots.old at link }
{
    let tag = tag_at(slots, at);
    set_slot(slots, at, tag, link);
}

// The slots of a node with parts on both sides.
pub(crate) fn set_joint(slots: &mut [u16], at: usize, tag: usize, left: usize, right: usize)
    ensures { slots.new ≡ join slots.old at tag left right }
{
    set_slot(slots, at, tag, right);
    set_link(slots, at.saturating_sub(1), left);
}
