// The limits of document 01, each once, under the names of crates/reading/specs/Limits.antt.

// How many bytes a text may have.
pub const MAX_BYTES: usize = 32768;

// How many lists may stand inside one another.
pub const MAX_LISTS: usize = 64;

// The largest number of a `func` sort.
pub const MAX_FUNC: u32 = 64;

// How many expressions may stand inside one another, in words that are judged.
pub const MAX_NODES: u32 = 128;

// The largest count that a reader holds.
pub const MAX_NUMBER: u64 = 18446744073709551615;
