// 128-bit numbers as four words.
ghost use Rattle.words.specs.Quads.{InFour};

use crate::number::WORD;

// The words of a 128-bit number, lowest first.
#[derive(Clone, Copy, PartialEq, Eq)]
pub struct Quad {
    pub a: u32,
    pub b: u32,
    pub c: u32,
    pub d: u32,
}

impl From<u64> for Quad {
    ghost from_gives = { InFour };

    fn from(n: u64) -> Quad {
        Quad {
            a: (n % WORD) as u32,
            b: (n / WORD) as u32,
            c: 0,
            d: 0,
        }
    }
}
