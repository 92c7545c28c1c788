// SMT-LIB 2.6 as far as a solution needs it: what a solution is written as, and what a reader of SMT-LIB finds in it again. Definitions and laws
// only; crates/smtlib has the code that meets them.
#![tactic(auto)]
