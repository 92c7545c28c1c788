// Places of trees in words.
ghost use Rattle.std.specs.Prelude.{◌≡◌, false, length, get_or, ◌+◌, eqb};
ghost use Rattle.reading.specs.Tree.{tree_words};
ghost use Rattle.reading.specs.Pick.{pick};
ghost use Rattle.places.specs.Spot.{Spot, Seen};

use words::tree::node_words;
use words::tree_kinds::LIST;

// How many words the tree at a place has.
pub fn words_at(tree: &[u32], at: usize) -> usize
    requires { Spot tree.now at }
    ensures { (p : Spot tree.now at) → result ≡ length (tree_words p.tree) }
{
    node_words(&tree[at..])
}

// A list: how many items it has, and where the first stands.
#[derive(Clone, Copy)]
pub struct List {
    pub items: u32,
    pub first: usize,
}

// The list at a place, if there is one.
pub fn list_at(tree: &[u32], at: usize) -> Option<List>
    requires { Spot tree.now at }
    ensures { result ≡ pick (eqb (get_or tree.now at 0) 21) (Some (record { items = get_or tree.now (at + 1) 0; first = at + 3 })) None }
{
    if tree[at] != LIST {
        return None;
    }
    Some(List {
        items: tree[at + 1],
        first: at + 3,
    })
}

// The place inside lists of one element.
pub fn through(text: &[u8], tree: &[u32], at: usize) -> usize
    requires { Spot tree.now at }
    ensures { (p : Spot tree.now at) → Seen text.now false tree.now at p result }
{
    let mut p = at;
    // A cursor and not a `for`: the lists say how far it goes.
    while tree[p] == LIST && tree[p + 1] == 1 {
        p += 3;
    }
    p
}

// The same, or the place itself for an operand that is not seen through.
pub fn reach(text: &[u8], tree: &[u32], at: usize, plain: bool) -> usize
    requires { Spot tree.now at }
    ensures { (p : Spot tree.now at) → Seen text.now plain tree.now at p result }
{
    if plain {
        return at;
    }
    through(text, tree, at)
}
