// Definitions only: tables of answers, each with one claim that the definitions of crates/session and crates/flattening compute them. The bench
// table of document 01 is specs/Table.antt. Nothing depends on this crate.
#![tactic(auto)]
