// What stands between the operands of an SMT-LIB term and behind them.
#![tactic(auto)]

ghost use Rattle.std.specs.Prelude.{◌≡◌};
ghost use Rattle.writing.specs.Wrote.{WroteBytes};
ghost use Rattle.smtseams.specs.Seams.{seam_of, close_text, node_lets, node_closes};

use nodes::kind::Node;
use writing::{byte, bytes};

// A let's value and body stand apart otherwise than other operands.
pub fn lets(node: Node) -> bool
    ensures { result ≡ node_lets node }
{
    matches!(node, Node::Let(_) | Node::LetFresh(_))
}

// A parenthesis stands behind the operands.
pub fn closes(node: Node, n: u32) -> bool
    ensures { result ≡ node_closes node n }
{
    match node {
        Node::Num(_)
        | Node::Bool(_)
        | Node::Str(_)
        | Node::BitVec(_, _)
        | Node::Fresh(_)
        | Node::Named(_)
        | Node::Theory(_)
        | Node::Other => false,
        Node::And | Node::Or => 2 <= n,
        Node::Exists(m) => 0 < m,
        _ => true,
    }
}

// Between two operands.
pub fn seam(in_let: bool, out: &mut [u8], place: usize) -> usize
    ensures { WroteBytes out.old place (seam_of in_let) out.new result }
{
    if in_let {
        return bytes(b")) ", out, place);
    }
    byte(out, place, b' ')
}

// Behind the operands.
#[tactic(auto, using(writing::proofs::Wrote::wrote_none))]
pub fn close(closed: bool, out: &mut [u8], place: usize) -> usize
    ensures { WroteBytes out.old place (close_text closed) out.new result }
{
    if closed {
        return byte(out, place, b')');
    }
    place
}
