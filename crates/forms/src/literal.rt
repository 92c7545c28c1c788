// The bits of a literal.
ghost use Rattle.std.specs.Prelude.{◌≡◌};
ghost use Rattle.reading.specs.Number.{wide_of};
ghost use Rattle.reading.specs.Answer.{got, and_then};
ghost use Rattle.grammar.specs.ParseExpr.{bits_of};
ghost use Rattle.forms.specs.FormNames.{as_bits};

use lexing::byte::begins_with;
use lexing::number::magnitude;
use words::quad::Quad;
use words::refusal::Refusal;

// The value of `#b..`. Every byte behind `#b` is a digit. Digits that are none, not binary, or 2^128 and more, are refused otherwise than a string
// that does not begin so.
pub fn bits_of(name: &[u8]) -> Result<Quad, Refusal>
    ensures { result ≡ as_bits (and_then (bits_of name.now) (λ v. got (wide_of v))) }
{
    if !begins_with(b"#b", name) {
        return Err(Refusal::Malformed);
    }
    magnitude(&name[2..], 2).ok_or(Refusal::BadLiteral)
}
