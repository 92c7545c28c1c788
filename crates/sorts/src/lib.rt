// Sorts: a tree's words are parsed into the words of a sort. The definitions are in crates/grammar; the operation sort is in crates/parse.
#![tactic(auto)]

pub mod names;
mod sort_words;
pub mod sorts;
