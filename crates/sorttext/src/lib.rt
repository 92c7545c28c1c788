// A sort in SMT-LIB, written from words that were judged before, into a slice of bytes that the caller lends. It is written by a loop, since
// sorts nest without limit.
#![tactic(auto)]

ghost use Rattle.std.specs.Prelude.{◌≡◌, List, [], ◌∷◌, ℕ, replicate};
ghost use Rattle.grammar.specs.Sort.{Sort};
ghost use Rattle.judging.specs.Judge.{reads, sort_at};
ghost use Rattle.writing.specs.Wrote.{WroteBytes};
ghost use Rattle.smtnames.specs.Pieces.{sort_text};
ghost use Rattle.smtlevels.specs.Open.{total, ending, settled};
ghost use Rattle.sorttext.specs.SortWalk.{Walk, end_text};
ghost use Rattle.smtlevels.specs.Levels.{Within, Known};
ghost use Rattle.smtnames.specs.Written.{TellsPart};

use smtlevels::{entered, entered_below, standing, standing_below};
use smtsorts::sort_node::opened;
use sortnodes::{count, size, sort_at};
use words::limits::MAX_LISTS;
use words::refusal::Refusal;
use words::walked::Walked;
use writing::byte;

// How many lists end behind a sort without sorts inside it, and how many of the others are known.
#[derive(Clone, Copy)]
struct Ends {
    lists: u64,
    known: usize,
}

// The same of the sort at a place, with so many sorts to come, by walking there again from the first place. Those lists end that were opened
// when just so many sorts were to come, and none fewer since; of the others, which were opened when fewer were to come, the innermost are known.
fn endings(words: &[u32], from: usize, at: usize, left: u64, bases: &mut [u64; MAX_LISTS]) -> Ends
    requires { Within bases.old 0 }
    ensures room { Within bases.new result.known }
    ensures lists { (cs : List ℕ) → Walk words.now from [] at cs → result.lists ≡ ending left cs }
    ensures known { (cs : List ℕ) → Walk words.now from [] at cs → left ≡ total cs → Known bases.new result.known (settled cs) }
{
    let mut a = from;
    let mut pending: u64 = 0;
    let mut k: u64 = 0;
    let mut known: usize = 0;
    // A cursor and not a `for`: each sort says how many words it has.
    while a < at {
        // Never, where the words are a sort: each sort takes at least one.
        if words.len() <= a {
            return Ends { lists: 0, known: 0 };
        }
        if (words.len() as u64) < pending {
            return Ends { lists: 0, known: 0 };
        }
        let node = sort_at(words, a);
        let n = count(node) as u64;
        if n == 0 {
            if pending == left {
                k = 0;
            }
            if pending == 0 {
                return Ends { lists: 0, known: 0 };
            }
            known = standing_below(bases, known, pending, left);
            pending -= 1;
        } else {
            if pending == left {
                k += 1;
            }
            known = entered_below(bases, known, pending, left);
            pending = pending + n - 1;
        }
        a += size(node);
    }
    Ends {
        lists: k,
        known: known,
    }
}

// The same where so many lists were known: it is told by these, if any of them stands.
fn endings_known(
    words: &[u32],
    from: usize,
    at: usize,
    left: u64,
    known: usize,
    bases: &mut [u64; MAX_LISTS],
) -> Ends
    requires { Within bases.old known }
    ensures room { Within bases.new result.known }
    ensures lists { (cs : List ℕ) → Walk words.now from [] at cs → left ≡ total cs → Known bases.old known cs → result.lists ≡ ending left cs }
    ensures known { (cs : List ℕ) → Walk words.now from [] at cs → left ≡ total cs → Known bases.old known cs → Known bases.new result.known (settled cs) }
{
    let rest = standing(bases, known, left);
    if rest == 0 {
        return endings(words, from, at, left, bases);
    }
    let lists = (known - rest) as u64;
    Ends {
        lists: lists,
        known: rest,
    }
}

// So many closing parentheses.
fn closed(k: u64, out: &mut [u8], place: usize) -> usize
    ensures { WroteBytes out.old place (replicate k 41) out.new result }
{
    let mut p = place;
    for _ in 0..k {
        p = byte(out, p, b')');
    }
    p
}

// What stands behind a sort that has none inside it: so many lists end, and so many sorts are to come.
fn ended(k: u64, left: u64, out: &mut [u8], place: usize) -> usize
    ensures { (cs : List ℕ) → k ≡ ending left cs → left ≡ total cs → WroteBytes out.old place (end_text cs) out.new result }
{
    let p = closed(k, out, place);
    if left == 0 {
        return p;
    }
    byte(out, p, b' ')
}

// The sort at a place, which was judged.
pub fn sort(
    words: &[u32],
    at: usize,
    text: &[u8],
    out: &mut [u8],
    place: usize,
) -> Result<Walked, Refusal>
    ensures { (limit : ℕ) (s : Sort) (n : ℕ) → sort_at limit words.now at ≡ reads s n → TellsPart n (sort_text text.now s) out.old place out.new result }
{
    let mut a = at;
    let mut p = place;
    let mut left: u64 = 1;
    let mut bases = [0u64; MAX_LISTS];
    let mut known: usize = 0;
    // A walk and not a `for`: a sort may bring more sorts that are still to come.
    while 0 < left {
        // Never, where the words are a sort.
        if words.len() <= a || (words.len() as u64) < left {
            return Err(Refusal::NotWords);
        }
        let node = sort_at(words, a);
        let q = opened(node, text, out, p)?;
        let n = count(node) as u64;
        let base = left - 1;
        left = base + n;
        if n == 0 {
            let e = endings_known(words, at, a, base, known, &mut bases);
            p = ended(e.lists, base, out, q);
            known = e.known;
        } else {
            known = entered(&mut bases, known, base);
            p = q;
        }
        a += size(node);
    }
    Ok(Walked { next: a, place: p })
}
