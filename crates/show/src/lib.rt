// What is printed: words in hexadecimal digits, a solution in lines, a refusal.
#![tactic(auto)]

ghost use Rattle.std.specs.Prelude.{◌≡◌, [], ◌∷◌, ◌++◌, ◌+◌, ◌-◌, ◌*◌, ◌<◌, ◌≤◌, true, eqb, leb, length, take, drop};
ghost use Rattle.std.proofs.lemmas.List.Edits.{sets};
ghost use Rattle.reading.specs.Pick.{pick};
ghost use Rattle.reading.specs.Bytes.{just};
ghost use Rattle.writing.specs.Digits.{eight_digits};
ghost use Rattle.show.specs.Lines.{line as line_of, refusal_text};
ghost use Rattle.show.specs.Shown.{words_text, has_room, shown};

use judge::expr_words::{NO_TEXT, solution as solution_end};
use sortwords::sort_end;
use writing::{clear, digit};

// What stands behind the word in front of a place, in a line of words up to another place.
fn separator(next: usize, to: usize) -> u8
    ensures { result ≡ pick (eqb next to) 10 32 }
{
    if next == to { b'\n' } else { b' ' }
}

// A word and what stands behind it. No loop: each digit stands here as in the definition of the eight.
fn word(w: u32, sep: u8, out: &mut [u8], at: usize)
    requires { at + 9 ≤ length out.old }
    ensures { out.new ≡ sets out.old at (eight_digits w ++ (sep ∷ [])) }
{
    out[at] = digit(w / 0x1000_0000 % 16);
    out[at + 1] = digit(w / 0x100_0000 % 16);
    out[at + 2] = digit(w / 0x10_0000 % 16);
    out[at + 3] = digit(w / 0x1_0000 % 16);
    out[at + 4] = digit(w / 0x1000 % 16);
    out[at + 5] = digit(w / 0x100 % 16);
    out[at + 6] = digit(w / 0x10 % 16);
    out[at + 7] = digit(w % 16);
    out[at + 8] = sep;
}

// The line of the words between two places, from a place of the output on; answers the place behind it.
fn line(words: &[u32], from: usize, to: usize, out: &mut [u8], at: usize) -> usize
    requires { (from ≤ to) × (to ≤ length words.now) × (at + 9 * (to - from) ≤ length out.old) }
    ensures { (result ≡ at + 9 * (to - from)) × (out.new ≡ sets out.old at (line_of (take (to - from) (drop from words.now)))) }
{
    let mut a = at;
    for i in from..to {
        word(words[i], separator(i + 1, to), out, a);
        a += 9;
    }
    a
}

// The text of a refusal, at the start of the output; answers its length. An output without room for its three bytes is cleared, and the
// answer is 0.
pub fn refusal(n: u32, out: &mut [u8]) -> usize
    ensures { record { count = result; out = out.new } ≡ shown (just (refusal_text n)) out.old }
{
    if out.len() < 3 {
        clear(out);
        return 0;
    }
    out[0] = digit(n / 16 % 16);
    out[1] = digit(n % 16);
    out[2] = 10;
    3
}

// Room for the text of a solution of so many words: three bytes, and nine for each word but the first.
fn long_enough(words: usize, room: usize) -> bool
    requires { 1 ≤ words }
    ensures { result ≡ leb (3 + 9 * (words - 1)) room }
{
    3 <= room && words - 1 <= (room - 3) / 9
}

// The words are judged to be a solution, and there is room for its text.
fn fits(words: &[u32], room: usize) -> bool
    ensures { result ≡ has_room (words_text words.now) room }
{
    solution_end(words, NO_TEXT).is_ok() && long_enough(words.len(), room)
}

// The text of the solution that these words are, in an output with room for it; answers its length.
fn lines(words: &[u32], out: &mut [u8]) -> usize
    requires { has_room (words_text words.now) (length out.old) ≡ true }
    ensures { record { count = result; out = out.new } ≡ shown (words_text words.now) out.old }
{
    let mut at = refusal(0, out);
    let mut from = 1;
    for _ in 0..words[0] {
        // Never refused, since the words are a solution.
        let Ok(to) = sort_end(words, from + 2, NO_TEXT) else {
            return at;
        };
        at = line(words, from, to, out, at);
        from = to;
    }
    line(words, from, words.len(), out, at)
}

// The text of the solution that these words are judged to be, at the start of the output; answers its length. Where the words are no
// solution, or the output has no room for all of the text, the output is cleared, and the answer is 0.
pub fn solution(words: &[u32], out: &mut [u8]) -> usize
    ensures { record { count = result; out = out.new } ≡ shown (words_text words.now) out.old }
{
    if fits(words, out.len()) {
        return lines(words, out);
    }
    clear(out);
    0
}
