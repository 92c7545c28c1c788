// Open scopes: entries in a slice that is lent down with a depth. Entries at or above the depth are dead, so nothing is restored.
ghost use Rattle.std.specs.Prelude.{◌≡◌, ◌+◌, ◌*◌, ◌≤◌, length};
ghost use Rattle.words.specs.Spans.{as_span};
ghost use Rattle.grammar.specs.Scope.{same_name, number_in, repeated};
ghost use Rattle.scopes.specs.Scopes.{pushed, deeper, Pairs, PlacedAt, place_among, OpenScopes, Meant};

use lexing::byte::same;
use words::limits::MAX_LISTS;
use words::span::Span;

// Room for as many entries as lists can stand inside one another.
pub const SLOTS: usize = 3 * MAX_LISTS;

// An entry is three numbers: the place of the first pair `(name ..)` in the tree, how many pairs there are, and the first fresh number.
// One entry more, unless its place is 0; the depth inside.
pub fn opened(scopes: &mut [u64], depth: usize, pairs: usize, n: u64, first: u64) -> usize
    requires { 3 * depth + 3 ≤ length scopes.old }
    ensures { (scopes.new ≡ pushed scopes.old depth pairs n first) × (result ≡ deeper depth pairs) }
{
    if pairs == 0 {
        return depth;
    }
    scopes[3 * depth] = pairs as u64;
    scopes[3 * depth + 1] = n;
    scopes[3 * depth + 2] = first;
    depth + 1
}

// Whether two names of the text are the same.
fn same_name(text: &[u8], name: Span, other: Span) -> bool
    ensures { result ≡ same_name text.now (as_span name) (as_span other) }
{
    same(name.bytes(text), other.bytes(text))
}

// The first place of a name among the names of a scope.
fn place_among(text: &[u8], tree: &[u32], at: usize, n: usize, name: Span) -> Option<usize>
    requires { Pairs tree.now at n }
    ensures { (h : Pairs tree.now at n) → PlacedAt (place_among text.now (as_span name) h.names) n result }
{
    let mut p = at;
    for i in 0..n {
        let other = Span {
            start: tree[p + 4],
            len: tree[p + 5],
        };
        if same_name(text, name, other) {
            return Some(i);
        }
        p += tree[p + 2] as usize + 3;
    }
    None
}

// The number that a name means in the open scopes, innermost first, raised by the count.
pub fn find(
    text: &[u8],
    tree: &[u32],
    scopes: &[u64],
    depth: usize,
    count: u64,
    name: Span,
) -> Option<u64>
    requires { OpenScopes tree.now scopes.now depth }
    ensures { (h : OpenScopes tree.now scopes.now depth) → Meant count (number_in text.now (as_span name) h.scopes) result }
{
    for d in (0..depth).rev() {
        let at = scopes[3 * d] as usize;
        let n = scopes[3 * d + 1] as usize;
        if let Some(i) = place_among(text, tree, at, n, name) {
            let k = scopes[3 * d + 2].wrapping_add(i as u64);
            return Some(count.wrapping_add(k));
        }
    }
    None
}

// Whether a name of some pairs stands there twice.
pub fn twice(text: &[u8], tree: &[u32], at: usize, n: usize) -> bool
    requires { Pairs tree.now at n }
    ensures { (b : Pairs tree.now at n) → result ≡ repeated text.now b.names }
{
    let mut p = at;
    for i in 0..n {
        let name = Span {
            start: tree[p + 4],
            len: tree[p + 5],
        };
        p += tree[p + 2] as usize + 3;
        if place_among(text, tree, p, n - (i + 1), name).is_some() {
            return true;
        }
    }
    false
}
