// What all code over words shares: the limits of document 01, the kinds of trees, sorts, expressions and predicates, words written to an output,
// names in a text, refusals and their numbers, what an accepted call reports, 128-bit numbers in four words.
#![tactic(auto)]

pub mod expr_kinds;
pub mod limits;
pub mod number;
pub mod output;
pub mod pred_kinds;
pub mod quad;
pub mod refusal;
pub mod report;
pub mod sort_kinds;
pub mod span;
pub mod tree;
pub mod tree_kinds;
pub mod walked;
