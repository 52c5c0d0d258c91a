// The texts that strings lie in.
ghost use Rattle.std.specs.Prelude.{◌≡◌};
ghost use Rattle.value.specs.Value.{text_of};

use crate::value::Span;

// The style's text has the literals, the feature's all other strings.
#[derive(Clone, Copy, Debug)]
pub struct Texts<'a> {
    pub style: &'a [u8],
    pub feature: &'a [u8],
}

impl<'a> Texts<'a> {
    // The bytes of a string; what of its place is past the text's end has none.
    pub fn bytes(self, span: Span) -> &'a [u8]
        ensures { result.now ≡ text_of self.entry span }
    {
        let text = if span.literal {
            self.style
        } else {
            self.feature
        };
        let end = span.end.min(text.len());
        let start = span.start.min(end);
        &text[start..end]
    }
}
