// A recorded answer: `OP START TREE DRAFT OUT INPUT = REFUSAL A B COUNT WORDS`.
ghost use Rattle.std.specs.Prelude.{◌≡◌};
ghost use Rattle.recorded.specs.Fields.{line_at};

use crate::numbers::{byte_at, decimal, next_field};

// OP is R read one, A read all, S sort, E expression, B bind, L solution, F flatten. START is the reader's count before the call, TREE,
// DRAFT and OUT the lengths of the slices, REFUSAL its number or 0, A and B what is reported, COUNT the reader's count afterwards.
// `input`, `words` and `next` are places: of INPUT, of WORDS and of the next line.
// OP is a byte and no enum: any byte may stand there, and the definitions tell letters by their numbers.
#[derive(Clone, Copy)]
pub struct Line {
    pub op: u8,
    pub start: u64,
    pub tree: usize,
    pub draft: usize,
    pub out: usize,
    pub input: usize,
    pub refusal: u64,
    pub a: u64,
    pub b: u64,
    pub count: u64,
    pub words: usize,
    pub next: usize,
}

// The line that begins at a place.
pub fn line_at(lines: &[u8], at: usize) -> Line
    ensures { result ≡ line_at lines.now at }
{
    let start = next_field(lines, at);
    let tree = next_field(lines, start);
    let draft = next_field(lines, tree);
    let out = next_field(lines, draft);
    let input = next_field(lines, out);
    let refusal = next_field(lines, next_field(lines, input));
    let a = next_field(lines, refusal);
    let b = next_field(lines, a);
    let count = next_field(lines, b);
    let words = next_field(lines, count);
    Line {
        op: byte_at(lines, at),
        start: decimal(lines, start),
        tree: decimal(lines, tree) as usize,
        draft: decimal(lines, draft) as usize,
        out: decimal(lines, out) as usize,
        input,
        refusal: decimal(lines, refusal),
        a: decimal(lines, a),
        b: decimal(lines, b),
        count: decimal(lines, count),
        words,
        next: next_field(lines, words),
    }
}
