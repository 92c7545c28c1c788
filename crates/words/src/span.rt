// Names in the text.
ghost use Rattle.std.specs.Prelude.{◌≡◌};
ghost use Rattle.reading.specs.Bytes.{bytes_at};
ghost use Rattle.words.specs.Spans.{as_span};

// A part of the text: its first byte, and how many bytes it has.
#[derive(Clone, Copy, PartialEq, Eq)]
pub struct Span {
    pub start: u32,
    pub len: u32,
}

impl Span {
    // The bytes of a span. What lies behind the text is left out.
    pub fn bytes(self, text: &[u8]) -> &[u8]
        ensures { result.now ≡ bytes_at text.now (as_span self) }
    {
        let start = self.start as usize;
        let from = start.min(text.len());
        let end = (start + self.len as usize).min(text.len());
        &text[from..end]
    }
}
