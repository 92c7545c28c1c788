// The tree that a text begins with, for every operation that parses it.
ghost use Rattle.parse.specs.TreeOf.{TreeOf};

use text::read_one;
use words::refusal::Refusal;

// How many words of the tree slice are the tree's; no slice is cleared.
pub fn tree_of(text: &[u8], tree: &mut [u32]) -> Result<usize, Refusal>
    ensures { TreeOf text.now tree.old tree.new result }
{
    let read = read_one(text, tree)?;
    Ok(read.first)
}
