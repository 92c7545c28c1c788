// What a call on a reader replies, decided by value: what is said and the count afterwards, by what the operation answered (specs/Heard.antt).
// specs/Calls.antt says which call each method of the reader is, specs/Sessions.antt what a method promises of its reply, and what a session
// is. Demand 3, for every list of calls, is specs/Demand3.antt; it is proved of those promises.
#![tactic(auto)]

ghost use Rattle.std.specs.Prelude.{◌≡◌};
ghost use Rattle.replies.specs.Heard.{size_report, counted_report, count_after};

use parse::Counted;
use words::report::Report;

// A number by itself, with a 0 behind it.
fn alone(size: usize) -> Report
    ensures { result ≡ record { first = size; second = 0 } }
{
    Report {
        first: size,
        second: 0,
    }
}

// What is counted says how many there are, and 0: a sort's words, those of an expression that is flattened, the bytes of SMT-LIB.
pub fn sized<E: Copy>(answer: Result<usize, E>) -> Result<Report, E>
    ensures { result ≡ size_report answer }
{
    let size = answer?;
    Ok(alone(size))
}

// What takes fresh numbers says how many words it has, and 0.
pub fn counted<E: Copy>(answer: Result<Counted, E>) -> Result<Report, E>
    ensures { result ≡ counted_report answer }
{
    let made = answer?;
    Ok(alone(made.words))
}

// The reader's count afterwards, where it was at the start: raised by the numbers that the answer binds, or as it came after a refusal.
pub fn count_after<E: Copy>(answer: Result<Counted, E>, start: u64) -> u64
    ensures { result ≡ count_after answer start }
{
    match answer {
        Ok(made) => made.count,
        Err(_) => start,
    }
}
