// Definitions only: tables of what the operation smtlib answers and of what is read in SMT-LIB texts, each with one claim that the definitions of
// crates/smt compute them. Nothing depends on this crate.
#![tactic(auto)]
