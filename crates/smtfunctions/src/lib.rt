// The bit-vector functions of SMT-LIB by their numbers.
#![tactic(auto)]

ghost use Rattle.std.specs.Prelude.{◌≤◌, ◌<◌};
ghost use Rattle.smtfunctions.specs.Functions.{function_text};
ghost use Rattle.smtnames.specs.Written.{TellsPiece};

use words::refusal::Refusal;
use writing::bytes;

// A theory function by its number: the bit-vector functions, from 9 to 31, have names.
pub fn function(k: u32, out: &mut [u8], place: usize) -> Result<usize, Refusal>
    ensures { TellsPiece (function_text k) out.old place out.new result }
{
    if k < 17 {
        return comparison(k, out, place);
    }
    if k < 23 {
        return division(k, out, place);
    }
    arithmetic(k, out, place)
}

// The comparisons; the functions before them have no name.
fn comparison(k: u32, out: &mut [u8], place: usize) -> Result<usize, Refusal>
    requires { k < 17 }
    ensures { TellsPiece (function_text k) out.old place out.new result }
{
    match k {
        9 => Ok(bytes(b"bvule", out, place)),
        10 => Ok(bytes(b"bvsle", out, place)),
        11 => Ok(bytes(b"bvuge", out, place)),
        12 => Ok(bytes(b"bvsge", out, place)),
        13 => Ok(bytes(b"bvugt", out, place)),
        14 => Ok(bytes(b"bvsgt", out, place)),
        15 => Ok(bytes(b"bvult", out, place)),
        16 => Ok(bytes(b"bvslt", out, place)),
        _ => Err(Refusal::Unwritable),
    }
}

// Division, remainder and the shifts to the right.
fn division(k: u32, out: &mut [u8], place: usize) -> Result<usize, Refusal>
    requires le_k { 17 ≤ k }
    requires k_bound { k < 23 }
    ensures { TellsPiece (function_text k) out.old place out.new result }
{
    match k {
        17 => Ok(bytes(b"bvudiv", out, place)),
        18 => Ok(bytes(b"bvsdiv", out, place)),
        19 => Ok(bytes(b"bvurem", out, place)),
        20 => Ok(bytes(b"bvsrem", out, place)),
        21 => Ok(bytes(b"bvlshr", out, place)),
        _ => Ok(bytes(b"bvashr", out, place)),
    }
}

// Bitwise functions, arithmetic and the shift to the left; the functions behind them have no name.
fn arithmetic(k: u32, out: &mut [u8], place: usize) -> Result<usize, Refusal>
    requires { 23 ≤ k }
    ensures { TellsPiece (function_text k) out.old place out.new result }
{
    match k {
        23 => Ok(bytes(b"bvand", out, place)),
        24 => Ok(bytes(b"bvor", out, place)),
        25 => Ok(bytes(b"bvxor", out, place)),
        26 => Ok(bytes(b"bvnot", out, place)),
        27 => Ok(bytes(b"bvadd", out, place)),
        28 => Ok(bytes(b"bvneg", out, place)),
        29 => Ok(bytes(b"bvsub", out, place)),
        30 => Ok(bytes(b"bvmul", out, place)),
        31 => Ok(bytes(b"bvshl", out, place)),
        _ => Err(Refusal::Unwritable),
    }
}
