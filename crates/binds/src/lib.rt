// Binds: a tree's words are parsed into the words of a bind. The definitions are in crates/grammar; the operation bind is in crates/parse.
#![tactic(auto)]

pub mod bind;
mod preds;
