// The first word of each kind of sort.

pub const INT: u32 = 1;

pub const BOOL: u32 = 2;

pub const REAL: u32 = 3;

pub const STR: u32 = 4;

pub const BIT_VEC: u32 = 5;

pub const SIZE: u32 = 6;

pub const VAR: u32 = 7;

pub const FUNC: u32 = 8;

pub const ABS: u32 = 9;

pub const APP: u32 = 10;

// The constructors of an App.
pub const SET: u32 = 0;

pub const MAP: u32 = 1;

pub const DATA: u32 = 2;
