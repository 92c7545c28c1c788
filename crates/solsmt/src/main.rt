// Reads a solution from standard input and prints it as a script for an SMT-LIB solver: one function, which holds where the solution does.
#![tactic(auto)]

ghost use Rattle.std.specs.Prelude.{◌≡◌, List, ◌++◌, ℕ, ◌+◌, ◌≤◌, ◌<◌, length, take, drop};
ghost use Rattle.reading.specs.Answer.{got};
ghost use Rattle.grammar.specs.Expr.{Solution};
ghost use Rattle.judging.specs.Judge.{reads, judge_solution};
ghost use Rattle.writing.specs.Wrote.{WroteBytes};
ghost use Rattle.smt.specs.Writer.{solution_term};
ghost use Rattle.smtnames.specs.Pieces.{vars_text};
ghost use Rattle.solsmt.specs.Script.{comment_line, function_line, closed_text, script};

use nodes::kind::word_at;
use reader::Reader;
use smtlib::smtlib;
use smtvars::vars::vars;
use words::refusal::Refusal;
use writing::{byte, bytes, digit};

// The comment that begins a script, with the number of a refusal.
fn comment(n: u32, out: &mut [u8]) -> usize
    ensures { WroteBytes out.old 0 (comment_line n) out.new result }
{
    let a = bytes(b"; ", out, 0);
    let b = byte(out, a, digit(n / 16 % 16));
    let c = byte(out, b, digit(n % 16));
    byte(out, c, b'\n')
}

// The script of a solution, by its bytes and the place of the space behind its list of variables.
fn function(made: &[u8], k: usize, out: &mut [u8]) -> usize
    requires { k < length made.now }
    ensures { WroteBytes out.old 0 (comment_line 0 ++ function_line (take k made.now) (drop (k + 1) made.now)) out.new result }
{
    let behind = k + 1;
    let a = comment(0, out);
    let b = bytes(b"(define-fun solution ", out, a);
    let c = bytes(&made[..k], out, b);
    let d = bytes(b" Bool ", out, c);
    let e = bytes(&made[behind..], out, d);
    bytes(b")\n", out, e)
}

// Where the list of a solution's variables ends, if it begins at the start of the output.
fn list_end(words: &[u32], text: &[u8], out: &mut [u8]) -> usize
    ensures { (s : Solution) (n : ℕ) (xs : List ℕ) → judge_solution (length text.now) words.now ≡ reads s n → vars_text text.now s.params ≡ got xs → WroteBytes out.old 0 xs out.new result }
{
    match vars(words, 1, word_at(words, 0), text, out, 0) {
        Ok(list) => list.place,
        Err(_) => 0,
    }
}

// The script of the solution that these words are.
fn lines(words: &[u32], text: &[u8], out: &mut [u8]) -> usize
    ensures { (s : Solution) (n : ℕ) → judge_solution (length text.now) words.now ≡ reads s n → WroteBytes out.old 0 (closed_text (solution_term text.now s)) out.new result }
{
    let mut made = [0u8; 65536];
    let k = list_end(words, text, &mut made);
    match smtlib(words, text, &mut made) {
        Ok(n) => function(&made[..n], k, out),
        Err(why) => comment(u32::from(why), out),
    }
}

// What is printed for a text, from the start of the output on; answers how many bytes that is.
fn answer(text: &[u8], out: &mut [u8]) -> usize
    requires { 65600 ≤ length out.old }
    ensures { (result ≤ length out.new) × (take result out.new ≡ script text.now) }
{
    if 8192 < text.len() {
        return comment(u32::from(Refusal::TooLong), out);
    }
    let mut tree = [0u32; 4096];
    let mut draft = [0u32; 4096];
    let mut words = [0u32; 4096];
    let call = Reader::open(0).solution(text, &mut tree, &mut draft, &mut words);
    match call.said {
        Ok(report) => lines(&words[..report.first], text, out),
        Err(refusal) => comment(u32::from(refusal), out),
    }
}

// One byte more than is read shows whether there is more.
fn main() {
    let mut text = [0u8; 8193];
    let n = io::read_full(0, &mut text);
    let mut out = [0u8; 65600];
    let k = answer(&text[..n], &mut out);
    io::write_all(1, &out[..k]);
}
