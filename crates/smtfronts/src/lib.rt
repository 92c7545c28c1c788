// What stands in front of the operands of an SMT-LIB term; and the head of an application.
#![tactic(auto)]

pub mod callee;
pub mod fronts;
