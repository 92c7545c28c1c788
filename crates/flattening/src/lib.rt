// Definitions only: what flattening makes of an expression (specs/Uncurry.antt), what the operations flatten and solution answer
// (specs/Operations.antt), and laws of both. The code is in crates/flatwriter and crates/flatten.
#![tactic(auto)]
