// Names, strings and fresh variables. The bytes of a name are a part of the text.
ghost use Rattle.std.specs.Prelude.{◌≡◌, [], ◌∷◌, min, length};
ghost use Rattle.writing.specs.Wrote.{WroteBytes};
ghost use Rattle.smt.specs.Writer.{writable as writableByte, all_writable, bytes_of};
ghost use Rattle.smtnames.specs.Pieces.{name_text, fresh_text, string_text};
ghost use Rattle.smtnames.specs.Written.{TellsPiece};
ghost use Rattle.words.specs.Spans.{as_span};

use words::quad::Quad;
use words::refusal::Refusal;
use words::span::Span;
use writing::{byte, bytes, decimal};

// A byte that a name or a string may have.
#[tactic(auto, using(std::proofs::lemmas::Bool::Decides::nat_tests), unfolding(smt::specs::Writer::writable, reading::specs::Pick::pick))]
fn writable(b: u8) -> bool
    ensures { result ≡ writableByte b }
{
    match b {
        b'|' | b'"' | b'\\' => false,
        b' '..=b'~' => true,
        _ => false,
    }
}

// Only such bytes.
fn all_writable(part: &[u8]) -> bool
    ensures { result ≡ all_writable part.now }
{
    part.iter().all(|b| writable(*b))
}

// The bytes of a span.
pub fn span(text: &[u8], part: Span, out: &mut [u8], place: usize) -> Result<usize, Refusal>
    ensures { TellsPiece (bytes_of text.now (as_span part)) out.old place out.new result }
{
    let spelled = part.bytes(text);
    if all_writable(spelled) {
        return Ok(bytes(spelled, out, place));
    }
    Err(Refusal::Unprintable)
}

// A name in bars, behind the letter of its kind: `n` for a variable, `s` for a sort.
pub fn name(
    letter: u8,
    text: &[u8],
    part: Span,
    out: &mut [u8],
    place: usize,
) -> Result<usize, Refusal>
    ensures { TellsPiece (name_text text.now letter (as_span part)) out.old place out.new result }
{
    let a = byte(out, place, b'|');
    let b = byte(out, a, letter);
    let c = byte(out, b, b' ');
    let d = span(text, part, out, c)?;
    Ok(byte(out, d, b'|'))
}

// A string in quotes.
pub fn string(text: &[u8], part: Span, out: &mut [u8], place: usize) -> Result<usize, Refusal>
    ensures { TellsPiece (string_text text.now (as_span part)) out.old place out.new result }
{
    let a = byte(out, place, b'"');
    let b = span(text, part, out, a)?;
    Ok(byte(out, b, b'"'))
}

// A fresh variable in bars, by its number.
pub fn fresh(n: u64, out: &mut [u8], place: usize) -> usize
    ensures { WroteBytes out.old place (fresh_text n) out.new result }
{
    let a = bytes(b"|v ", out, place);
    let b = decimal(Quad::from(n), out, a);
    byte(out, b, b'|')
}
