// The parser: a text is read into a tree, and the tree's words are parsed into the words of a sort, an expression, a bind, or a
// solution that is not flattened yet. The definitions are in crates/grammar/specs, Operations.antt first; Answers.antt here says what is
// answered of them.
#![tactic(auto)]

pub mod bind;
pub mod ending;
pub mod expression;
pub mod solution;
pub mod sort;
mod tree;

// How many words there are, and the reader's count afterwards.
#[derive(Clone, Copy)]
pub struct Counted {
    pub words: usize,
    pub count: u64,
}

// How many words the parameters and the body have, and the reader's count afterwards.
#[derive(Clone, Copy)]
pub struct Drafted {
    pub params: usize,
    pub body: usize,
    pub count: u64,
}
