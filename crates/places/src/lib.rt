// Places in the words of a tree, and words laid from a place of the output on: those of an expression, and those of a sort at a place.
#![tactic(auto)]

pub mod expr_words;
pub mod place;
pub mod sort_at;
