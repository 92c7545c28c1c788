// Solutions: a tree's words are parsed into the words of a solution's parameters and of its body, which is not flattened yet. The definitions
// are in crates/grammar; the operation is in crates/flatten, and what it begins with in crates/parse.
#![tactic(auto)]

pub mod parts;
