// What is written of a sort of SMT-LIB before the sorts inside it.
#![tactic(auto)]

pub mod sort_node;
