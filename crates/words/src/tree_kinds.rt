// The first word of each kind of tree.

pub const SYMBOL: u32 = 16;

pub const QUOTED: u32 = 17;

pub const INTEGER: u32 = 18;

pub const DECIMAL: u32 = 19;

pub const BOOLEAN: u32 = 20;

pub const LIST: u32 = 21;
