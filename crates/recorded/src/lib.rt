// Recorded answers: what a recorded line says (specs/Fields.antt, Spelled.antt). crates/compared says when an answer is the recorded one, and the
// program `replay` makes the calls.
#![tactic(auto)]

pub mod input;
pub mod line;
pub mod numbers;
