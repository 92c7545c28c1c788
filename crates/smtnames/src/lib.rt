// Names, strings and fresh variables in SMT-LIB.
#![tactic(auto)]

pub mod names;
