// What the calls answer; a refusal is a `LineRefusal`, page 01's number, line and place.
use colour::colour::Colour;

// What a style gives a feature.
#[derive(Clone, Copy)]
pub struct Given {
    pub show: bool,
    pub colouring: Option<Colour>,
}

// The same, and the count of bytes that are written.
#[derive(Clone, Copy)]
pub struct Painted {
    pub given: Given,
    pub bytes: usize,
}
