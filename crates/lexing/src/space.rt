// White space in UTF-8 bytes, and where an atom ends. A byte that says enough is not decoded.
ghost use Rattle.std.specs.Prelude.{◌≡◌, ◌+◌, ◌≤◌, ◌<◌, length, get_or, drop};
ghost use Rattle.reading.specs.Bytes.{before};
ghost use Rattle.reading.specs.Space.{is_white, char_bytes, char_at, space_bytes, ends_atom};

// Whether a character is white space.
#[tactic(auto, unfolding(reading::specs::Space::is_white, reading::specs::Pick::pick))]
fn is_white(c: u32) -> bool
    ensures { result ≡ is_white c }
{
    match c {
        9..=13
        | 32
        | 0x85
        | 0xa0
        | 0x1680
        | 0x2000..=0x200a
        | 0x2028
        | 0x2029
        | 0x202f
        | 0x205f
        | 0x3000 => true,
        _ => false,
    }
}

// How many bytes the character has that a byte begins; 0 for a byte inside a character, as the definition has it.
#[tactic(auto, unfolding(reading::specs::Space::char_bytes, reading::specs::Pick::pick))]
fn char_bytes(b: u8) -> usize
    ensures { result ≡ char_bytes b }
{
    match b {
        0..=0x7f => 1,
        0x80..=0xbf => 0,
        0xc0..=0xdf => 2,
        0xe0..=0xef => 3,
        _ => 4,
    }
}

// The byte at a place as a number, or 0 behind the text.
fn byte_at(text: &[u8], i: usize) -> u32
    ensures { (result ≡ get_or text.now i 0) × (result < 256) }
{
    match text.get(i) {
        Some(&b) => u32::from(b),
        None => 0,
    }
}

// The character that begins at a place.
fn char_at(text: &[u8], at: usize) -> u32
    requires { at < length text.now }
    ensures { result ≡ char_at (drop at text.now) }
{
    let a = byte_at(text, at);
    if a < 0x80 {
        return a;
    }
    let b = byte_at(text, at + 1);
    if a < 0xe0 {
        return a % 32 * 64 + b % 64;
    }
    let c = byte_at(text, at + 2);
    if a < 0xf0 {
        return a % 16 * 4096 + b % 64 * 64 + c % 64;
    }
    let d = byte_at(text, at + 3);
    a % 8 * 262144 + b % 64 * 4096 + c % 64 * 64 + d % 64
}

// How many bytes the white space character at a place has, by its decoded character.
// Never inlined, so that its lone caller is small enough to be inlined itself.
#[inline(never)]
fn decoded_space(text: &[u8], at: usize) -> usize
    requires { at < length text.now }
    ensures { result ≡ space_bytes (drop at text.now) }
{
    let n = char_bytes(text[at]);
    if n <= text.len() - at && is_white(char_at(text, at)) {
        n
    } else {
        0
    }
}

// How many bytes the white space character at a place has; 0 where none is there, as the definition has it. Bytes inside
// characters and first bytes that begin no white space are told apart without decoding.
pub fn space_bytes(text: &[u8], at: usize) -> usize
    requires { at < length text.now }
    ensures { result ≡ space_bytes (drop at text.now) }
{
    let b = text[at];
    // Two tests in front tell most bytes: one match on all takes two instructions a byte more of reading.
    if (b' ' < b) & (b < 0x80) {
        return 0;
    }
    if b == b' ' {
        return 1;
    }
    if b < 0x80 {
        return usize::from(is_white(u32::from(b)));
    }
    match b {
        0xc0..=0xc2 | 0xe0..=0xe3 | 0xf0..=0xff => decoded_space(text, at),
        _ => 0,
    }
}

// Whether an atom ends before a place.
fn ends_atom(text: &[u8], at: usize) -> bool
    requires { at < length text.now }
    ensures { result ≡ ends_atom (drop at text.now) }
{
    let b = text[at];
    // One test in front tells most bytes that go on inside an atom, as above.
    if (b')' < b) & (b < 0x80) {
        return false;
    }
    match b {
        b' ' | b'(' | b')' | b'"' => true,
        _ => space_bytes(text, at) != 0,
    }
}

// The place where the atom ends that stands from `from` on.
pub fn atom_end(text: &[u8], from: usize) -> usize
    requires { from ≤ length text.now }
    ensures { (result ≡ from + before ends_atom (drop from text.now)) × (result ≤ length text.now) }
{
    for i in from..text.len() {
        if ends_atom(text, i) {
            return i;
        }
    }
    text.len()
}
