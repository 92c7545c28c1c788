// What a name says in an expression: the form that a keyword begins, the number of a theory function, the bits of a literal. The definitions are in
// crates/grammar; the parser of expressions is in crates/plans and crates/exprs.
#![tactic(auto)]

pub mod keywords;
pub mod literal;
pub mod theory;
