// Expressions: a tree's words are parsed into the words of an expression. A plan is made of each tree (crates/plans), and `expr` and its loop over
// operands call one another. The definitions are in crates/grammar; the operations are in crates/parse.
#![tactic(auto)]

pub mod expr;
mod late;
