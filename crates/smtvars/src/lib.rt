// Sorted variables in SMT-LIB, written from words that were judged before, into a slice of bytes that the caller lends.
#![tactic(auto)]

pub mod vars;
