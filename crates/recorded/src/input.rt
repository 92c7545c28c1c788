// INPUT and WORDS: parts joined by `.` or `,`, each perhaps `*N`, this part N times; `-` for none. What does not fit is counted and not put.
ghost use Rattle.std.specs.Prelude.{◌≡◌, ◌+◌, ◌<◌, min, [], ◌∷◌, length, drop, set};
ghost use Rattle.std.proofs.lemmas.List.Edits.{sets};
ghost use Rattle.reading.specs.Answer.{over};
ghost use Rattle.recorded.specs.Numbers.{most};
ghost use Rattle.recorded.specs.Spelled.{times as timesOf, bytes_once, word_once, again, bytes_in, words_in};

use crate::numbers::{byte_at, decimal, digit, end_from, ends, hexadecimal};

// How often the part at a place is meant.
fn times(lines: &[u8], at: usize) -> usize
    ensures { result ≡ timesOf (drop at lines.now) }
{
    let end = end_from(1, lines, at);
    if byte_at(lines, end) == b'*' {
        decimal(lines, end + 1) as usize
    } else {
        1
    }
}

// Puts the bytes that the field at a place spells into the text, and says how many there are.
pub fn put_bytes(lines: &[u8], at: usize, text: &mut [u8]) -> usize
    ensures { (result ≡ min most (length (bytes_in (drop at lines.now)))) × (text.new ≡ over (bytes_in (drop at lines.now)) text.old) }
{
    let mut i = at;
    let mut n: usize = 0;
    // A cursor and not a `for`: each part says where it ends.
    loop {
        n = repeat_bytes(lines, i, times(lines, i), text, n);
        let end = end_from(2, lines, i);
        if ends(byte_at(lines, end)) != 2 {
            return n;
        }
        i = end + 1;
    }
}

// The bytes of the part at a place, so many times, behind the first n bytes of the text; answers how many there are then.
fn repeat_bytes(lines: &[u8], at: usize, times: usize, text: &mut [u8], n: usize) -> usize
    ensures { (result ≡ min most (n + length (again times (bytes_once (drop at lines.now))))) × (text.new ≡ sets text.old n (again times (bytes_once (drop at lines.now)))) }
{
    let mut len = n;
    for _ in 0..times {
        len = copy_bytes(lines, at, text, len);
    }
    len
}

// The same, once.
fn copy_bytes(lines: &[u8], at: usize, text: &mut [u8], n: usize) -> usize
    ensures { (result ≡ min most (n + length (bytes_once (drop at lines.now)))) × (text.new ≡ sets text.old n (bytes_once (drop at lines.now))) }
{
    let mut i = at;
    let mut len = n;
    // A cursor and not a `for`: two digits are a byte.
    while i < lines.len() {
        let Some(high) = digit(lines[i]) else {
            return len;
        };
        let Some(low) = digit(byte_at(lines, i + 1)) else {
            return len;
        };
        put_byte(text, len, 16 * high + low);
        len = len.saturating_add(1);
        i += 2;
    }
    len
}

// A byte at an index, where there is one.
fn put_byte(text: &mut [u8], at: usize, b: u32)
    requires { b < 256 }
    ensures { text.new ≡ set text.old at b }
{
    if at < text.len() {
        text[at] = b as u8;
    }
}

// Puts the words that the field at a place spells into the slice, and says how many there are.
pub fn put_words(lines: &[u8], at: usize, words: &mut [u32]) -> usize
    ensures { (result ≡ min most (length (words_in (drop at lines.now)))) × (words.new ≡ over (words_in (drop at lines.now)) words.old) }
{
    let mut i = at;
    let mut n: usize = 0;
    // A cursor and not a `for`: each part says where it ends.
    loop {
        n = put_part(lines, i, words, n);
        let end = end_from(2, lines, i);
        if ends(byte_at(lines, end)) != 2 {
            return n;
        }
        i = end + 1;
    }
}

// The words of the part at a place behind the first n words; answers how many there are then.
fn put_part(lines: &[u8], at: usize, words: &mut [u32], n: usize) -> usize
    ensures { (result ≡ min most (n + length (again (timesOf (drop at lines.now)) (word_once (drop at lines.now))))) × (words.new ≡ sets words.old n (again (timesOf (drop at lines.now)) (word_once (drop at lines.now)))) }
{
    if digit(byte_at(lines, at)).is_none() {
        return n;
    }
    repeat_word(hexadecimal(lines, at), times(lines, at), words, n)
}

// A word so many times behind the first n words.
fn repeat_word(word: u32, times: usize, words: &mut [u32], n: usize) -> usize
    ensures { (result ≡ min most (n + length (again times (word ∷ [])))) × (words.new ≡ sets words.old n (again times (word ∷ []))) }
{
    let end = n.saturating_add(times);
    for i in n..end.min(words.len()) {
        words[i] = word;
    }
    end
}
