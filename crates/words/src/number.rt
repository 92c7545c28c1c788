// Numbers of 64 bits in two words.
ghost use Rattle.std.specs.Prelude.{◌≡◌, ◌+◌, ◌*◌, ◌/◌, ◌%◌, ◌^◌};

// What a word holds: 2^32 numbers.
pub const WORD: u64 = 4294967296;

// The low word of a long number.
pub fn low(v: u64) -> u32
    ensures { result ≡ v % 2 ^ 32 }
{
    (v % WORD) as u32
}

// The high word.
pub fn high(v: u64) -> u32
    ensures { result ≡ v / 2 ^ 32 % 2 ^ 32 }
{
    (v / WORD) as u32
}

// A long number by its words.
pub fn words_to_long(low: u32, high: u32) -> u64
    ensures { result ≡ low + high * 2 ^ 32 }
{
    low as u64 + high as u64 * WORD
}
