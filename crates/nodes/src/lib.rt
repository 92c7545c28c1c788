// What the nodes of an expression are, told as values to walks over words that were judged before.
#![tactic(auto)]

pub mod kind;
