// One call of a reader.
ghost use Rattle.std.specs.Prelude.{◌≡◌};
ghost use Rattle.compared.specs.Recorded.{is_clear, filled};
ghost use Rattle.session.specs.Session.{outcome};
ghost use Rattle.words.specs.Answered.{heard};
ghost use Rattle.replay.specs.Called.{reply_to, call_of, Ran, is_outcome, is_same_on, count_on, is_same, count_after};

use compared::{Reply, fill, is_recorded, is_zero};
use recorded::input::{put_bytes, put_words};
use recorded::line::Line;

// The reader that came back, and whether the answer was the recorded one.
#[derive(Clone, Copy)]
pub struct Done {
    pub reader: reader::Reader,
    pub same: bool,
}

// No longer text and no longer slices are recorded.
const TEXT: usize = 65536;

const WORDS: usize = 120000;

// The text is spelled out, then the call is made.
pub fn text_line(lines: &[u8], line: Line, reader: reader::Reader) -> Done
    ensures { (result.same ≡ is_same lines.now line reader.next) × (result.reader.next ≡ count_after lines.now line reader.next) }
{
    let mut text = [0u8; TEXT];
    let n = put_bytes(lines, line.input, &mut text);
    if TEXT < n {
        return Done {
            reader,
            same: false,
        };
    }
    lend(lines, line, reader, &text[..n])
}

// Makes the slices, and spells out the words that are recorded. Reading takes no tree, and only a solution takes a draft.
fn lend(lines: &[u8], line: Line, reader: reader::Reader, text: &[u8]) -> Done
    ensures { (result.same ≡ is_same_on lines.now line text.now reader.next) × (result.reader.next ≡ count_on lines.now line text.now reader.next) }
{
    let mut tree = [0u32; WORDS];
    let mut draft = [0u32; WORDS];
    let mut out = [0u32; WORDS];
    let mut words = [0u32; WORDS];
    let n = put_words(lines, line.words, &mut words);
    if WORDS < n || WORDS < line.tree || WORDS < line.draft || WORDS < line.out {
        return Done {
            reader,
            same: false,
        };
    }
    asked(
        line,
        &words[..n],
        reader,
        text,
        &mut tree[..line.tree],
        &mut draft[..line.draft],
        &mut out[..line.out],
    )
}

// Fills the slices, makes the call, and compares.
fn asked(
    line: Line,
    words: &[u32],
    reader: reader::Reader,
    text: &[u8],
    tree: &mut [u32],
    draft: &mut [u32],
    out: &mut [u32],
) -> Done
    ensures same { result.same ≡ is_outcome line words.now (outcome (call_of line.op text.now (filled tree.old) (filled draft.old) (filled out.old)) reader.next) }
    ensures count { result.reader.next ≡ (outcome (call_of line.op text.now (filled tree.old) (filled draft.old) (filled out.old)) reader.next).count }
{
    fill(tree);
    fill(draft);
    fill(out);
    let answer = run(line.op, reader, text, tree, draft, out);
    Done {
        reader: answer.reader,
        same: is_recorded(line, words, reply(answer), out) && is_clear(line.op, tree, draft),
    }
}

// Whether the working slices that the operation was lent are zero.
#[tactic(auto, unfolding(compared::specs::Recorded::is_clear, reading::specs::Pick::pick))]
fn is_clear(op: u8, tree: &[u32], draft: &[u32]) -> bool
    ensures { result ≡ is_clear op tree.now draft.now }
{
    match op {
        b'R' | b'A' => true,
        b'L' => is_zero(tree) && is_zero(draft),
        _ => is_zero(tree),
    }
}

// Makes the call.
fn run(
    op: u8,
    reader: reader::Reader,
    text: &[u8],
    tree: &mut [u32],
    draft: &mut [u32],
    out: &mut [u32],
) -> reader::Answer
    ensures { Ran op (call_of op text.now tree.old draft.old out.old) reader.next result tree.new draft.new out.new }
{
    match op {
        b'R' => reader.read_one(text, out),
        b'A' => reader.read_all(text, out),
        b'S' => reader.sort(text, tree, out),
        b'E' => reader.expression(text, tree, out),
        b'B' => reader.bind(text, tree, out),
        _ => reader.solution(text, tree, draft, out),
    }
}

// The numbers of the answer.
fn reply(answer: reader::Answer) -> Reply
    ensures { result ≡ reply_to (heard answer.said) answer.reader.next }
{
    match answer.said {
        Ok(report) => Reply {
            refusal: 0,
            a: report.first as u64,
            b: report.second as u64,
            count: answer.reader.next,
        },
        Err(refusal) => Reply {
            refusal: u32::from(refusal) as u64,
            a: 0,
            b: 0,
            count: answer.reader.next,
        },
    }
}
