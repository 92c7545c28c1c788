// How far the output and the fresh numbers have come.

// The place behind the words written, and the next fresh number.
#[derive(Clone, Copy)]
pub struct Progress {
    pub words: usize,
    pub next: u64,
}
