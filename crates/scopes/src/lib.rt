// Open scopes, and what a name means in them. The definitions are in crates/grammar, Scope.antt.
#![tactic(auto)]

pub mod entries;
pub mod variable;
