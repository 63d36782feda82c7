ghost use Rattle.std.specs.Prelude.{◌≡◌};
ghost use Rattle.ufl_syntax.specs.Spans.{word_at};

/// Where a token stands in its file: so many bytes from a place on.
#[derive(Clone, Copy, Debug, PartialEq, Eq)]
pub struct Span {
    pub from: u32,
    pub len: u32,
}

impl Span {
    /// The text of the token in its file; what would lie beyond the end of the file is left out.
    pub fn text(self, file: &[u8]) -> &[u8]
        ensures { result.now ≡ word_at file.now self }
    {
        let from = (self.from as usize).min(file.len());
        let rest = &file[from..];
        &rest[..(self.len as usize).min(rest.len())]
    }
}
