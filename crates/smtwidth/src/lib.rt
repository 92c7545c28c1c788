// Numbers that are values of a width, in bits.
#![tactic(auto)]

ghost use Rattle.std.specs.Prelude.{◌≡◌, ◌<◌, ◌^◌};
ghost use Rattle.words.specs.Quads.{as_wide};
ghost use Rattle.smt.specs.Writer.{fits_width};

use words::quad::Quad;

// A power of two, below 2^32.
fn power(e: u32) -> u32
    requires { e < 32 }
    ensures { result ≡ 2 ^ e }
{
    1 << e
}

// A number is a value of a width.
pub fn fits(q: Quad, width: u32) -> bool
    ensures { result ≡ fits_width (as_wide q) width }
{
    if width == 0 {
        return false;
    }
    if 128 <= width {
        return true;
    }
    if 96 <= width {
        return q.d < power(width - 96);
    }
    if q.d != 0 {
        return false;
    }
    if 64 <= width {
        return q.c < power(width - 64);
    }
    if q.c != 0 {
        return false;
    }
    if 32 <= width {
        return q.b < power(width - 32);
    }
    if q.b != 0 {
        return false;
    }
    q.a < power(width)
}
