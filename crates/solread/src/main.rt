// Reads a solution from standard input and prints it in lines of hexadecimal words.
#![tactic(auto)]

ghost use Rattle.std.specs.Prelude.{◌≡◌, ◌≤◌, length, take};
ghost use Rattle.solread.specs.Printed.{printed};

use reader::Reader;
use words::refusal::Refusal;

// What is printed for a text, from the start of the output on; answers how many bytes that is.
fn answer(text: &[u8], out: &mut [u8]) -> usize
    requires { 36864 ≤ length out.old }
    ensures { (result ≤ length out.new) × (take result out.new ≡ printed text.now) }
{
    if 8192 < text.len() {
        return show::refusal(u32::from(Refusal::TooLong), out);
    }
    let mut tree = [0u32; 4096];
    let mut draft = [0u32; 4096];
    let mut words = [0u32; 4096];
    let call = Reader::open(0).solution(text, &mut tree, &mut draft, &mut words);
    match call.said {
        Ok(report) => show::solution(&words[..report.first], out),
        Err(refusal) => show::refusal(u32::from(refusal), out),
    }
}

// One byte more than is read shows whether there is more.
fn main() {
    let mut text = [0u8; 8193];
    let n = io::read_full(0, &mut text);
    let mut out = [0u8; 36864];
    let k = answer(&text[..n], &mut out);
    io::write_all(1, &out[..k]);
}
