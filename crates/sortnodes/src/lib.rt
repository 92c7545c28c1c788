// A sort of SMT-LIB as it is told: its kind and its fields by the words at a place, how many words it takes and how many sorts are inside it.
#![tactic(auto)]

ghost use Rattle.std.specs.Prelude.{◌≡◌, ◌≤◌, length};
ghost use Rattle.sortnodes.specs.Told.{applied_at, sort_node_at, size_of, inside_of};

use nodes::kind::word_at;
use words::sort_kinds::{APP, BIT_VEC, BOOL, DATA, INT, MAP, REAL, SIZE, STR};
use words::span::Span;

// A sort that can be written: a BitVec by its width, an Array by how many sorts are inside it, a Data sort by its name and how many sorts
// are inside it; or any other.
#[derive(Clone, Copy)]
pub enum SortNode {
    Int,
    Bool,
    Real,
    Str,
    BitVec(u32),
    Array(u32),
    Data(Span, u32),
    Other,
}

// A constructor applied to sorts, by its words from a place on.
fn applied(words: &[u32], at: usize) -> SortNode
    requires { at ≤ length words.now }
    ensures { result ≡ applied_at words.now at }
{
    match word_at(words, at) {
        MAP => SortNode::Array(word_at(words, at + 1)),
        DATA => {
            let name = Span {
                start: word_at(words, at + 1),
                len: word_at(words, at + 2),
            };
            SortNode::Data(name, word_at(words, at + 3))
        }
        _ => SortNode::Other,
    }
}

// The sort at a place.
pub fn sort_at(words: &[u32], at: usize) -> SortNode
    ensures { result ≡ sort_node_at words.now at }
{
    if words.len() <= at {
        return SortNode::Other;
    }
    match words[at] {
        INT => SortNode::Int,
        BOOL => SortNode::Bool,
        REAL => SortNode::Real,
        STR => SortNode::Str,
        BIT_VEC if word_at(words, at + 1) == SIZE => SortNode::BitVec(word_at(words, at + 2)),
        APP => applied(words, at + 1),
        _ => SortNode::Other,
    }
}

// How many words it takes before the sorts inside it.
pub fn size(node: SortNode) -> usize
    ensures { result ≡ size_of node }
{
    match node {
        SortNode::BitVec(_) | SortNode::Array(_) => 3,
        SortNode::Data(_, _) => 5,
        _ => 1,
    }
}

// How many sorts are inside it.
pub fn count(node: SortNode) -> u32
    ensures { result ≡ inside_of node }
{
    match node {
        SortNode::Array(n) | SortNode::Data(_, n) => n,
        _ => 0,
    }
}
