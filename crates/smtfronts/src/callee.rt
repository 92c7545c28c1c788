// The head of an application with arguments: a variable or a bit-vector function.
ghost use Rattle.std.specs.Prelude.{[], ◌∷◌};
ghost use Rattle.reading.specs.Answer.{got};
ghost use Rattle.smtnames.specs.Pieces.{joined};
ghost use Rattle.smtfronts.specs.Fronts.{callee_text};
ghost use Rattle.smtnames.specs.Written.{TellsPiece};

use nodes::kind::Node;
use smtfunctions::function;
use smtnames::names::{fresh, name};
use words::refusal::Refusal;
use writing::byte;

// A head by what is told of it.
fn named(node: Node, text: &[u8], out: &mut [u8], place: usize) -> Result<usize, Refusal>
    ensures { TellsPiece (callee_text text.now node) out.old place out.new result }
{
    match node {
        Node::Fresh(k) => Ok(fresh(k, out, place)),
        Node::Named(span) => name(b'n', text, span, out, place),
        Node::Theory(k) => function(k, out, place),
        _ => Err(Refusal::Unwritable),
    }
}

// A head behind a parenthesis and before a space.
pub fn callee(node: Node, text: &[u8], out: &mut [u8], place: usize) -> Result<usize, Refusal>
    ensures { TellsPiece (joined (got (40 ∷ [])) (joined (callee_text text.now node) (got (32 ∷ [])))) out.old place out.new result }
{
    let a = byte(out, place, b'(');
    let b = named(node, text, out, a)?;
    Ok(byte(out, b, b' '))
}
