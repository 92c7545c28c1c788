// Bytes and numbers in the recorded lines, and the places where fields begin.
ghost use Rattle.std.specs.Prelude.{◌≡◌, get_or, drop};
ghost use Rattle.recorded.specs.Numbers.{DigitIs, digit as digitOf, decimal as decimalOf, hexadecimal as hexadecimalOf};
ghost use Rattle.recorded.specs.Fields.{ends as endsOf, end_from, next_field};

// The byte at a place, 0 behind the end, as the definitions have it.
pub fn byte_at(lines: &[u8], at: usize) -> u8
    ensures { result ≡ get_or lines.now at 0 }
{
    match lines.get(at) {
        Some(&b) => b,
        None => 0,
    }
}

// The value of a digit.
#[tactic(auto, unfolding(crate::specs::Numbers::digit, reading::specs::Pick::pick))]
pub fn digit(b: u8) -> Option<u32>
    ensures { DigitIs (digitOf b) result }
{
    match b {
        b'0'..=b'9' => Some(u32::from(b - b'0')),
        b'a'..=b'f' => Some(u32::from(b - b'a') + 10),
        _ => None,
    }
}

// The decimal number that begins at a place; u64::MAX for a larger one.
pub fn decimal(lines: &[u8], at: usize) -> u64
    ensures { result ≡ decimalOf (drop at lines.now) }
{
    let mut value: u64 = 0;
    for i in at..lines.len() {
        match digit(lines[i]) {
            Some(d) if d < 10 => value = value.saturating_mul(10).saturating_add(u64::from(d)),
            _ => return value,
        }
    }
    value
}

// The hexadecimal number that begins at a place; u32::MAX for a larger one.
pub fn hexadecimal(lines: &[u8], at: usize) -> u32
    ensures { result ≡ hexadecimalOf (drop at lines.now) }
{
    let mut value: u32 = 0;
    for i in at..lines.len() {
        let Some(d) = digit(lines[i]) else {
            return value;
        };
        value = value.saturating_mul(16).saturating_add(d);
    }
    value
}

// What a byte ends: 3 a field, 2 a part, 1 the digits, 0 nothing. Numbers and no enum, since the definitions order them so.
#[tactic(auto, using(crate::proofs::Digits::digit_some, crate::proofs::Digits::digit_none), unfolding(crate::specs::Fields::ends, reading::specs::Pick::pick))]
pub fn ends(b: u8) -> u32
    ensures { result ≡ endsOf b }
{
    match b {
        b' ' | b'\n' => 3,
        b'.' | b',' => 2,
        _ if digit(b).is_some() => 0,
        _ => 1,
    }
}

// The first place from `at` on whose byte ends so much, or the end.
pub fn end_from(k: u32, lines: &[u8], at: usize) -> usize
    ensures { result ≡ end_from k lines.now at }
{
    for i in at..lines.len() {
        if k <= ends(lines[i]) {
            return i;
        }
    }
    at.max(lines.len())
}

// The place behind the next space or line end.
#[tactic(auto, unfolding(crate::specs::Fields::next_field, reading::specs::Pick::pick))]
pub fn next_field(lines: &[u8], at: usize) -> usize
    ensures { result ≡ next_field lines.now at }
{
    let end = end_from(3, lines, at);
    if end < lines.len() {
        return end + 1;
    }
    end
}
