// The plan of an expression: its form is found out, its shape judged and its first words are written before its operands are read. Only
// crates/exprs, which goes by plans, calls itself. The definitions are in crates/grammar.
#![tactic(auto)]

mod application;
pub mod binders;
mod exists;
mod lets;
mod lists;
mod lits;
pub mod plan;
pub mod progress;
