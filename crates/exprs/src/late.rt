// What is done between the binding of a let and its body.
ghost use Rattle.std.specs.Prelude.{◌≡◌, ◌+◌};
ghost use Rattle.scopes.specs.Scopes.{pushed, deeper};
ghost use Rattle.plans.specs.Late.{filled, taken, LateRoom};

use places::expr_words::put2;
use scopes::entries::opened;
use words::number::{high, low};

// How many scopes are open, and the next fresh number.
#[derive(Clone, Copy)]
pub struct Deep {
    pub depth: usize,
    pub next: u64,
}

// The next number is laid at a place, and a scope opened whose one pair it is the number of. Nothing where the pair's place is 0.
pub fn late(
    scopes: &mut [u64],
    depth: usize,
    pair: usize,
    count: u64,
    next: u64,
    out: &mut [u32],
    at: usize,
) -> Deep
    requires { LateRoom scopes.old depth pair next at }
    ensures { (scopes.new ≡ pushed scopes.old depth pair 1 next) × (out.new ≡ filled pair at (count + next) out.old) × (result.depth ≡ deeper depth pair) × (result.next ≡ next + taken pair) }
{
    if pair == 0 {
        return Deep { depth, next };
    }
    let k = count.wrapping_add(next);
    put2(out, at, low(k), high(k));
    Deep {
        depth: opened(scopes, depth, pair, 1, next),
        next: next + 1,
    }
}
