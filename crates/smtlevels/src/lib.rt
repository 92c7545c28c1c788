// The innermost lists that are open around a sort, as many at most as lists may stand inside one another in a text: an array has how many sorts are to come when each ends, the innermost list's
// last.
#![tactic(auto)]

ghost use Rattle.std.specs.Prelude.{◌≡◌, List, ◌∷◌, ℕ, suc, ◌≤◌, ◌<◌, length};
ghost use Rattle.reading.specs.Limits.{max_lists};
ghost use Rattle.smtlevels.specs.Open.{total, settled};
ghost use Rattle.smtlevels.specs.Levels.{Within, Known, standing, below};

use words::limits::MAX_LISTS;

// How many lists are left where the others are forgotten.
const HALF: usize = MAX_LISTS / 2;

// How many of the known lists do not end where just so many sorts are to come.
pub fn standing(bases: &[u64; MAX_LISTS], known: usize, left: u64) -> usize
    requires { known ≤ max_lists }
    ensures few { result ≤ known }
    ensures lists { result ≡ standing bases.now left known }
{
    for k in (0..known).rev() {
        if bases[k] != left {
            return k + 1;
        }
    }
    0
}

// Room for one list more: where there is none, the outer half of the known lists is forgotten.
fn halved(bases: &mut [u64; MAX_LISTS], known: usize) -> usize
    requires { Within bases.old known }
    ensures room { (length bases.new ≡ max_lists) × (result < max_lists) }
    ensures lists { (cs : List ℕ) → Known bases.old known cs → Known bases.new result cs }
{
    if known < MAX_LISTS {
        return known;
    }
    // No `copy_within`: with it an archive for C needs `memmove` from outside.
    for i in 0..HALF {
        bases[i] = bases[i + HALF];
    }
    HALF
}

// One list more is known, with so many sorts to come when it ends.
pub fn entered(bases: &mut [u64; MAX_LISTS], known: usize, base: u64) -> usize
    requires { Within bases.old known }
    ensures room { Within bases.new result }
    ensures lists { (c : ℕ) (cs : List ℕ) → base ≡ total cs → Known bases.old known cs → Known bases.new result (c ∷ cs) }
{
    let k = halved(bases, known);
    bases[k] = base;
    k + 1
}

// How many of the known lists do not end, where only lists are known that end with fewer sorts to come than so many.
pub fn standing_below(bases: &[u64; MAX_LISTS], known: usize, pending: u64, left: u64) -> usize
    requires { known ≤ max_lists }
    ensures few { result ≤ known }
    ensures lists { (c : ℕ) (cs ds : List ℕ) → settled cs ≡ suc c ∷ ds → pending ≡ total cs → Known bases.now known (below left cs) → Known bases.now result (below left (c ∷ ds)) }
{
    if pending < left {
        return standing(bases, known, pending);
    }
    known
}

// One list more is known, unless it ends with so many sorts to come or more.
pub fn entered_below(bases: &mut [u64; MAX_LISTS], known: usize, base: u64, left: u64) -> usize
    requires { Within bases.old known }
    ensures room { Within bases.new result }
    ensures lists { (c : ℕ) (cs : List ℕ) → base ≡ total cs → Known bases.old known (below left cs) → Known bases.new result (below left (c ∷ cs)) }
{
    if base < left {
        return entered(bases, known, base);
    }
    known
}
