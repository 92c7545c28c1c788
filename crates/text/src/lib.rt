// The text reader: S-expressions in bytes to the words of their trees. The definitions are in crates/reading/specs: Tree.antt says which words
// a tree has, Reading.antt what is read, and every refusal.
#![tactic(auto)]

ghost use Rattle.std.specs.Prelude.{true, false, ◌≡◌};
ghost use Rattle.reading.specs.Reading.{read_said, read_out};
ghost use Rattle.words.specs.Answered.{heard};

mod operation;
mod scan;

use crate::operation::run;
use words::refusal::Refusal;
use words::report::Report;

// Reads the first expression of a text, and reports how many words it has and the byte behind it. Its
// words are written from the start of the output, and nothing behind them; a refusal zeroes the output.
pub fn read_one(text: &[u8], out: &mut [u32]) -> Result<Report, Refusal>
    ensures answer { heard result ≡ read_said false text.now out.old }
    ensures output { out.new ≡ read_out false text.now out.old }
{
    run(text, out, false)
}

// Reads all expressions of a text, and reports how many there are and how many words they have. The
// output is left as by `read_one`.
pub fn read_all(text: &[u8], out: &mut [u32]) -> Result<Report, Refusal>
    ensures answer { heard result ≡ read_said true text.now out.old }
    ensures output { out.new ≡ read_out true text.now out.old }
{
    run(text, out, true)
}
