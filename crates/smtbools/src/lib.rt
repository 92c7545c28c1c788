// And and Or of SMT-LIB in front of their operands; true and false.
#![tactic(auto)]

ghost use Rattle.writing.specs.Wrote.{WroteBytes};
ghost use Rattle.smtbools.specs.Bools.{folded_text, bool_text};

use writing::{byte, bytes};

// And and Or: what stands for no operand, nothing for one, and the operator for more.
pub fn folded(unit: &[u8], name: &[u8], n: u32, out: &mut [u8], place: usize) -> usize
    ensures { WroteBytes out.old place (folded_text unit.now name.now n) out.new result }
{
    if n == 0 {
        return bytes(unit, out, place);
    }
    if n == 1 {
        return place;
    }
    let a = byte(out, place, 40);
    let b = bytes(name, out, a);
    byte(out, b, 32)
}

// True or false.
pub fn boolean(b: bool, out: &mut [u8], place: usize) -> usize
    ensures { WroteBytes out.old place (bool_text b) out.new result }
{
    if b {
        return bytes(b"true", out, place);
    }
    bytes(b"false", out, place)
}
