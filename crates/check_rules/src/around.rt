use sheet::records::{Shape, Signature};

// What is known around an instruction: the library, the shapes of all own methods, the shape of its
// own method, and how many instructions that has. It is copied freely and has a lifetime, and a type
// with both can have no model: contracts see it through `place_of`.
#[derive(Clone, Copy, Debug, PartialEq, Eq)]
pub struct Around<'a> {
    pub library: &'a [Signature],
    pub shapes: &'a [Shape],
    pub own: Shape,
    pub count: u16,
}
