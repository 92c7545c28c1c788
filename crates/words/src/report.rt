// What a call reports that is accepted.

// Two numbers: of a text's first expression how many words it has, and the byte behind it; of all expressions how many they are, and their
// words; of anything else its words, and 0.
#[derive(Clone, Copy, PartialEq, Eq)]
pub struct Report {
    pub first: usize,
    pub second: usize,
}
