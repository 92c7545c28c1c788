// Definitions only: the calls on a reader, what each answers and leaves (specs/Session.antt), and what demand 3 compares
// (specs/Compared.antt). Demand 3 itself is in crates/replies, the code in crates/reader, tables of answers in crates/vectors.
#![tactic(auto)]
