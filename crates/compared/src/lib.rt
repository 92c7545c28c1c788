// When an answer is the recorded one (specs/Recorded.antt): what the lent slices hold before a call, and what they and the reply hold after it.
#![tactic(auto)]

ghost use Rattle.std.specs.Prelude.{◌≡◌, ltb, length, get_or};
ghost use Rattle.reading.specs.Pick.{pick};
ghost use Rattle.compared.specs.Recorded.{pattern as patternOf, filled, is_zero, is_answer, is_reply, is_output, is_recorded, reported as reportedOf};

use recorded::line::Line;

// The refusal or 0, the two numbers reported, and the reader's count.
#[derive(Clone, Copy, PartialEq, Eq)]
pub struct Reply {
    pub refusal: u64,
    pub a: u64,
    pub b: u64,
    pub count: u64,
}

// The word that stands at an index before a call.
#[tactic(auto, unfolding(crate::specs::Recorded::pattern))]
fn pattern(i: usize) -> u32
    ensures { result ≡ patternOf i }
{
    0xA5A5_0000 + (i % 0x1_0000) as u32
}

// Such words throughout.
pub fn fill(words: &mut [u32])
    ensures { words.new ≡ filled words.old }
{
    for (i, word) in words.iter_mut().enumerate() {
        *word = pattern(i);
    }
}

// Whether the slice is zero throughout.
pub fn is_zero(words: &[u32]) -> bool
    ensures { result ≡ is_zero words.now }
{
    for &w in words {
        if w != 0 {
            return false;
        }
    }
    true
}

// The word at an index after words were laid over what stood there before the call.
#[tactic(auto, unfolding(reading::specs::Pick::pick))]
fn expected(words: &[u32], i: usize) -> u32
    ensures { result ≡ pick (ltb i (length words.now)) (get_or words.now i 0) (patternOf i) }
{
    if i < words.len() {
        words[i]
    } else {
        pattern(i)
    }
}

// Whether the output is the words, and behind them what stood there before the call.
fn is_answer(words: &[u32], out: &[u32]) -> bool
    ensures { result ≡ is_answer words.now out.now }
{
    if out.len() < words.len() {
        return false;
    }
    for (i, &w) in out.iter().enumerate() {
        if w != expected(words, i) {
            return false;
        }
    }
    true
}

// How many words an accepted call reports.
#[tactic(auto, unfolding(crate::specs::Recorded::reported, reading::specs::Pick::pick))]
fn reported(line: Line) -> u64
    ensures { result ≡ reportedOf line }
{
    if line.op == b'A' { line.b } else { line.a }
}

// Whether the numbers of the reply are the recorded ones.
#[tactic(auto, unfolding(crate::specs::Recorded::is_reply))]
fn is_reply(line: Line, reply: Reply) -> bool
    ensures { result ≡ is_reply line reply }
{
    reply
        == Reply {
            refusal: line.refusal,
            a: line.a,
            b: line.b,
            count: line.count,
        }
}

// Whether the output is the recorded one: zeros after a refusal, else the words that are recorded and behind them what was there.
#[tactic(auto, unfolding(crate::specs::Recorded::is_output, reading::specs::Pick::pick))]
fn is_output(line: Line, words: &[u32], out: &[u32]) -> bool
    ensures { result ≡ is_output line words.now out.now }
{
    if line.refusal == 0 {
        words.len() as u64 == reported(line) && is_answer(words, out)
    } else {
        words.len() == 0 && is_zero(out)
    }
}

// Whether the reply and the output are those of the line, which records these words.
#[tactic(auto, unfolding(crate::specs::Recorded::is_recorded))]
pub fn is_recorded(line: Line, words: &[u32], reply: Reply, out: &[u32]) -> bool
    ensures { result ≡ is_recorded line words.now reply out.now }
{
    is_reply(line, reply) && is_output(line, words, out)
}
