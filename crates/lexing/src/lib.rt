// What a text is made of: UTF-8, white space, integers, decimals and tokens, each found at a place of the text. The definitions are in crates/reading/specs.
#![tactic(auto)]

pub mod byte;
mod decimal;
mod integer;
pub mod number;
pub mod quad;
pub mod space;
pub mod tokens;
pub mod utf8;
