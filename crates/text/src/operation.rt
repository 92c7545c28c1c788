// Read one and read all are one operation.
ghost use Rattle.std.specs.Prelude.{◌≡◌};
ghost use Rattle.reading.specs.Reading.{read_said, read_out};
ghost use Rattle.words.specs.Answered.{heard};
ghost use Rattle.text.specs.Scanned.{Attempted};

use crate::scan::scan;
use lexing::utf8::is_utf8;
use words::limits::MAX_BYTES;
use words::output::clear;
use words::refusal::Refusal;
use words::report::Report;

// The answer, and the words; after a refusal the output is not yet cleared.
fn attempt(text: &[u8], out: &mut [u32], all: bool) -> Result<Report, Refusal>
    ensures { Attempted all text.now out.old out.new result }
{
    if text.len() > MAX_BYTES {
        return Err(Refusal::TooLong);
    }
    if !is_utf8(text) {
        return Err(Refusal::NotUtf8);
    }
    let found = scan(text, out, all)?;
    if found.words > out.len() {
        return Err(Refusal::NoRoom);
    }
    if all {
        return Ok(Report {
            first: found.trees,
            second: found.words,
        });
    }
    Ok(Report {
        first: found.words,
        second: found.next,
    })
}

// The operation: every refusal clears the output here.
pub fn run(text: &[u8], out: &mut [u32], all: bool) -> Result<Report, Refusal>
    ensures answer { heard result ≡ read_said all text.now out.old }
    ensures output { out.new ≡ read_out all text.now out.old }
{
    let answer = attempt(text, out, all);
    if answer.is_err() {
        clear(out);
    }
    answer
}
