// The words of trees.
ghost use Rattle.std.specs.Prelude.{◌≡◌, List, ◌++◌, ℕ, length};
ghost use Rattle.reading.specs.Tree.{Tree, tree_words};
ghost use Rattle.words.specs.Begins.{Begins};

use crate::tree_kinds::{BOOLEAN, INTEGER, LIST};

// How many words the first tree has.
pub fn node_words(items: &[u32]) -> usize
    requires { Begins items.now }
    ensures { (t : Tree) (rest : List ℕ) → items.now ≡ tree_words t ++ rest → result ≡ length (tree_words t) }
{
    match items[0] {
        LIST => items[2] as usize + 3,
        INTEGER => 5,
        BOOLEAN => 2,
        _ => 3,
    }
}
