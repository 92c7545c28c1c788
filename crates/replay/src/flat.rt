// One call of flattening.
ghost use Rattle.std.specs.Prelude.{◌≡◌};
ghost use Rattle.compared.specs.Recorded.{filled};
ghost use Rattle.words.specs.Answered.{answered};
ghost use Rattle.replay.specs.Called.{flat_reply, is_flattened, is_flat};

use compared::{Reply, fill, is_recorded};
use recorded::input::put_words;
use recorded::line::Line;
use words::refusal::Refusal;

// The most words that are recorded.
const WORDS: usize = 8192;

// Whether the answer was the recorded one.
pub fn flatten_line(lines: &[u8], line: Line) -> bool
    ensures { result ≡ is_flat lines.now line }
{
    let mut given = [0u32; WORDS];
    let mut words = [0u32; WORDS];
    let mut out = [0u32; WORDS];
    let n = put_words(lines, line.input, &mut given);
    let m = put_words(lines, line.words, &mut words);
    if WORDS < n || WORDS < m || WORDS < line.out {
        return false;
    }
    is_flattened(line, &words[..m], &given[..n], &mut out[..line.out])
}

// Fills the output, flattens into it, and compares.
fn is_flattened(line: Line, words: &[u32], given: &[u32], out: &mut [u32]) -> bool
    ensures { result ≡ is_flattened line words.now given.now (filled out.old) }
{
    fill(out);
    let reply = reply(flatten::flatten(given, out));
    is_recorded(line, words, reply, out)
}

// The numbers of the answer.
fn reply(answer: Result<usize, Refusal>) -> Reply
    ensures { result ≡ flat_reply (answered answer) }
{
    match answer {
        Ok(n) => Reply {
            refusal: 0,
            a: n as u64,
            b: 0,
            count: 0,
        },
        Err(refusal) => Reply {
            refusal: u32::from(refusal) as u64,
            a: 0,
            b: 0,
            count: 0,
        },
    }
}
