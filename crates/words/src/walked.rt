// How far a walk over words has come that writes what it finds.

// The place behind a part in the words that are read, and behind what is written of it in the output.
#[derive(Clone, Copy)]
pub struct Walked {
    pub next: usize,
    pub place: usize,
}
