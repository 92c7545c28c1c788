// UTF-8, checked a character at a time.
ghost use Rattle.std.specs.Prelude.{◌≡◌, ◌≤◌, ◌<◌, length, drop};
ghost use Rattle.reading.specs.Utf8.{first, inside, after_first, well_formed, utf8};
ghost use Rattle.lexing.specs.Next.{all_ascii, expected, CharacterEnds};

// What may follow a byte: a character's first byte; a byte from the first number to the second, and
// so many more behind it; or the byte was wrong.
#[derive(Clone, Copy)]
enum Next {
    First,
    Inside(u8, u8, u8),
    Wrong,
}

// What may follow a character's first byte.
#[tactic(auto, unfolding(reading::specs::Utf8::after_first, reading::specs::Pick::pick))]
fn after_first(b: u8) -> Next
    ensures { expected result ≡ after_first b }
{
    match b {
        0..=0x7f => Next::First,
        0xc2..=0xdf => Next::Inside(0x80, 0xbf, 0),
        0xe0 => Next::Inside(0xa0, 0xbf, 1),
        0xe1..=0xec | 0xee | 0xef => Next::Inside(0x80, 0xbf, 1),
        0xed => Next::Inside(0x80, 0x9f, 1),
        0xf0 => Next::Inside(0x90, 0xbf, 2),
        0xf1..=0xf3 => Next::Inside(0x80, 0xbf, 2),
        0xf4 => Next::Inside(0x80, 0x8f, 2),
        _ => Next::Wrong,
    }
}

// The place behind a character whose bytes go on at `from`, the next of them from lo to hi and `more` behind it; none where one of them is
// wrong or missing.
fn rest(text: &[u8], from: usize, lo: u8, hi: u8, more: u8) -> Option<usize>
    requires { from ≤ length text.now }
    ensures { CharacterEnds (inside lo hi more) text.now from result }
{
    let mut low = lo;
    let mut high = hi;
    let mut left = more;
    for i in from..text.len() {
        let b = text[i];
        if b < low || high < b {
            return None;
        }
        if left == 0 {
            return Some(i + 1);
        }
        low = 0x80;
        high = 0xbf;
        left -= 1;
    }
    None
}

// The place behind the character at a place; none where one of its bytes is wrong or missing.
fn character(text: &[u8], at: usize) -> Option<usize>
    requires { at < length text.now }
    ensures { CharacterEnds first text.now at result }
{
    match after_first(text[at]) {
        Next::First => Some(at + 1),
        Next::Inside(lo, hi, more) => rest(text, at + 1, lo, hi, more),
        Next::Wrong => None,
    }
}

// The place behind the ASCII characters that stand from `from` on.
fn ascii_end(text: &[u8], from: usize) -> usize
    requires { from ≤ length text.now }
    ensures { (well_formed first (drop from text.now) ≡ well_formed first (drop result text.now))
        × (from ≤ result) × (result ≤ length text.now) }
{
    for i in from..text.len() {
        if text[i] >= 0x80 {
            return i;
        }
    }
    text.len()
}

// Whether all characters are ASCII ones. No byte ends the loop, so that the compiled one takes many bytes at a time.
fn is_ascii(text: &[u8]) -> bool
    ensures { result ≡ all_ascii text.now }
{
    let mut all = true;
    for &b in text {
        all = all & (b < 0x80);
    }
    all
}

// Whether the bytes are UTF-8.
pub fn is_utf8(text: &[u8]) -> bool
    ensures { result ≡ utf8 text.now }
{
    if is_ascii(text) {
        return true;
    }
    let mut i = ascii_end(text, 0);
    // A cursor and not a `for`: a character has up to four bytes.
    while i < text.len() {
        let Some(next) = character(text, i) else {
            return false;
        };
        i = ascii_end(text, next);
    }
    true
}
