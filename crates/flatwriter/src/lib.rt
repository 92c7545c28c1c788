// Flattened words, written from a place of the output on. A place behind the output's end stands for words that do not fit there, or for
// a joined count that does not fit in a word.
#![tactic(auto)]

ghost use Rattle.std.specs.Prelude.{◌≡◌, List, ℕ, ◌≤◌, min, ◌+◌};
ghost use Rattle.reading.specs.Bytes.{Maybe};
ghost use Rattle.grammar.specs.Sort.{Sort};
ghost use Rattle.grammar.specs.Expr.{Expr, Exprs, enil, econs};
ghost use Rattle.flattening.specs.Uncurry.{join};
ghost use Rattle.flattening.specs.Flat.{gathered, spine};
ghost use Rattle.judging.specs.Judge.{reads, several, sort_if, expr_deep};
ghost use Rattle.flattening.specs.Operations.{no_text};
ghost use Rattle.judging.specs.Spelled.{Spelled};
ghost use Rattle.writing.specs.Wrote.{Wrote, most_count};
ghost use Rattle.flatwriter.specs.Writing.{WroteExpr, WroteExprs, Patched, Chained};

use heads::{Header, head};
use judge::expr_words::{NO_TEXT, exprs_end, out_sort};
use judging::behind;
use words::output::put;
use words::walked::Walked;

// One more than the largest count that a word holds.
const TOO_MANY: u64 = 4294967296;

// A chain of heads: where the head at its end stands, with room there for so many expressions inside one another; how many arguments
// are joined, and the place behind their words; and from where to where the outermost output sort stands.
#[derive(Clone, Copy)]
pub struct Joined {
    pub head: usize,
    pub room: u32,
    pub count: u64,
    pub place: usize,
    pub from: usize,
    pub to: usize,
}

// The words from one place to another, as they are.
fn copy(words: &[u32], from: usize, to: usize, out: &mut [u32], place: usize) -> usize
    ensures { (xs : List ℕ) → Spelled words.now from to xs → Wrote out.old place xs 0 out.new result }
{
    let Some(part) = words.get(from..to) else {
        return out.len() + 1;
    };
    if out.len() < place || out.len() - place < part.len() {
        return out.len() + 1;
    }
    // No `copy_from_slice`: with it an archive for C needs `memmove` from outside.
    for i in 0..part.len() {
        out[place + i] = part[i];
    }
    place + part.len()
}

// So many arguments more; no count grows past one that is too large.
fn added(count: u64, n: u32) -> u64
    requires { count ≤ most_count }
    ensures { result ≡ min (count + n) most_count }
{
    (count + n as u64).min(TOO_MANY)
}

// The joined count, in front of the place where the arguments begin.
fn patch(out: &mut [u32], place: usize, count: u64, behind: usize) -> usize
    ensures { Patched out.old place count behind out.new result }
{
    let Ok(word) = u32::try_from(count) else {
        return out.len() + 1;
    };
    if 0 < place {
        put(out, place - 1, word);
    }
    behind
}

// A head that is no application: nothing is joined.
fn lone(at: usize, room: u32, place: usize) -> Joined
    ensures { (result.head ≡ at) × (result.room ≡ room) × (result.count ≡ 0) × (result.place ≡ place) }
{
    Joined {
        head: at,
        room,
        count: 0,
        place,
        from: at,
        to: at,
    }
}

// An expression that was judged: its flattened words.
#[cycle(all_arguments_chain_flat_flats)]
pub fn flat(words: &[u32], at: usize, room: u32, out: &mut [u32], place: usize) -> Walked
    ensures { (e : Expr) (n : ℕ) → expr_deep no_text room words.now at ≡ reads e n → WroteExpr out.old place e n out.new result }
{
    if room == 0 {
        return Walked { next: at, place };
    }
    match head(words, at, NO_TEXT) {
        Ok(Header::Operands(a, n)) => {
            let p = copy(words, at, a, out, place);
            flats(words, a, n, room - 1, out, p)
        }
        Ok(Header::Arguments(a, flag, n)) => {
            let p = copy(words, at, a, out, place);
            let c = all_arguments(words, a, flag, n, room - 1, out, p);
            let q = patch(out, p, c.count, c.place);
            let s = copy(words, c.from, c.to, out, q);
            flat(words, c.head, c.room, out, s)
        }
        Err(_) => Walked { next: at, place },
    }
}

// So many expressions, one after the other.
#[cycle(all_arguments_chain_flat_flats)]
fn flats(words: &[u32], at: usize, n: u32, room: u32, out: &mut [u32], place: usize) -> Walked
    ensures { (es : Exprs) (m : ℕ) → several (expr_deep no_text room) enil econs n words.now at ≡ reads es m → WroteExprs out.old place es m out.new result }
{
    let mut walked = Walked { next: at, place };
    for _ in 0..n {
        walked = flat(words, walked.next, room, out, walked.place);
    }
    walked
}

// The arguments of an application, which begin at a place: first those that its head brings, then its own.
#[cycle(all_arguments_chain_flat_flats)]
fn all_arguments(
    words: &[u32],
    at: usize,
    flag: bool,
    n: u32,
    room: u32,
    out: &mut [u32],
    place: usize,
) -> Joined
    ensures bounds { (result.room ≤ room) × (result.count ≤ most_count) }
    ensures chained { (es : Exprs) (b : ℕ) (o : Maybe Sort) (d : ℕ) (h : Expr) (m : ℕ) → several (expr_deep no_text room) enil econs n words.now at ≡ reads es b → sort_if no_text flag words.now b ≡ reads o d → expr_deep no_text room words.now d ≡ reads h m → (Chained words.now out.old place (join (gathered h) es) (spine h) m out.new result) × (result.from ≡ b) × (result.to ≡ d) }
{
    let b = behind(exprs_end(words, at, n, NO_TEXT, room), at);
    let d = behind(out_sort(words, b, NO_TEXT, flag), b);
    let c = chain(words, d, room, out, place);
    let own = flats(words, at, n, room, out, c.place);
    Joined {
        head: c.head,
        room: c.room,
        count: added(c.count, n),
        place: own.place,
        from: b,
        to: d,
    }
}

// The arguments that a head brings if it is an application, the innermost first.
#[cycle(all_arguments_chain_flat_flats)]
fn chain(words: &[u32], at: usize, room: u32, out: &mut [u32], place: usize) -> Joined
    ensures bounds { (result.room ≤ room) × (result.count ≤ most_count) }
    ensures chained { (e : Expr) (m : ℕ) → expr_deep no_text room words.now at ≡ reads e m → Chained words.now out.old place (gathered e) (spine e) m out.new result }
{
    if room == 0 {
        return lone(at, room, place);
    }
    match head(words, at, NO_TEXT) {
        Ok(Header::Arguments(a, flag, n)) => {
            all_arguments(words, a, flag, n, room - 1, out, place)
        }
        _ => lone(at, room, place),
    }
}
