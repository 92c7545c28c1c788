// What an operation that takes fresh numbers decides in the end.
ghost use Rattle.std.specs.Prelude.{◌≡◌};
ghost use Rattle.reading.specs.Answer.{zeros};
ghost use Rattle.parse.specs.Answers.{count_on, Finished, closed_by};

use crate::Counted;
use plans::progress::Progress;
use words::limits::MAX_NUMBER;
use words::output::clear;
use words::refusal::Refusal;

// The reader's count behind so many words that take so many numbers: 13 if the numbers run out, then 7 if there is room for fewer words.
pub(crate) fn count_behind(
    words: usize,
    fresh: u64,
    count: u64,
    room: usize,
) -> Result<u64, Refusal>
    ensures { result ≡ count_on words fresh count room }
{
    if MAX_NUMBER - count < fresh {
        return Err(Refusal::NumbersSpent);
    }
    if room < words {
        return Err(Refusal::NoRoom);
    }
    Ok(count + fresh)
}

// What was parsed, and then 13 and 7, whatever errors say refusals.
pub fn finished<E: Copy + From<Refusal>>(
    parsed: Result<Progress, E>,
    count: u64,
    room: usize,
) -> Result<Counted, E>
    ensures { Finished E.from_gives parsed count room result }
{
    let end = parsed?;
    let after = count_behind(end.words, end.next, count, room)?;
    Ok(Counted {
        words: end.words,
        count: after,
    })
}

// The working slice is cleared, and the output too after a refusal.
pub fn close<E: Copy>(
    working: &mut [u32],
    out: &mut [u32],
    answer: Result<Counted, E>,
) -> Result<Counted, E>
    ensures answer { result ≡ answer }
    ensures working { working.new ≡ zeros working.old }
    ensures output { out.new ≡ closed_by answer out.old }
{
    clear(working);
    if answer.is_err() {
        clear(out);
    }
    answer
}
