// The first word of each kind of expression.

pub const NUMERAL: u32 = 32;

pub const BOOLEAN: u32 = 33;

pub const STRING: u32 = 34;

pub const BIT_VEC: u32 = 35;

pub const FRESH: u32 = 36;

pub const NAMED: u32 = 37;

pub const APP: u32 = 38;

pub const NEG: u32 = 39;

pub const BINARY: u32 = 40;

pub const IF: u32 = 41;

pub const AND: u32 = 42;

pub const OR: u32 = 43;

pub const NOT: u32 = 44;

pub const IMP: u32 = 45;

pub const IFF: u32 = 46;

pub const ATOM: u32 = 47;

// A let of a name, in words from elsewhere: the parser makes none.
pub const LET: u32 = 48;

pub const THEORY: u32 = 49;

pub const IS_CTOR: u32 = 50;

pub const EXISTS: u32 = 51;

// A let of a fresh number, as the parser makes it.
pub const LET_FRESH: u32 = 52;

// The word behind the last kind.
pub const KINDS_END: u32 = LET_FRESH + 1;
