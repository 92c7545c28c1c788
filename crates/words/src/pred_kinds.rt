// The first word of each kind of predicate.

pub const KVAR: u32 = 64;

pub const EXPR: u32 = 65;
