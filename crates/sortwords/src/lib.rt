// Words judged as sorts and binders: where they end that begin at a place, or the refusal of words that are none.
#![tactic(auto)]

ghost use Rattle.std.specs.Prelude.{◌≡◌, ◌<◌, ◌^◌};
ghost use Rattle.judging.specs.Judge.{two_words, span_within, sort_at, binders_at};
ghost use Rattle.sortwords.specs.SortFields.{one_field, ctor_at, app_fields, sort_head, inside_of};
ghost use Rattle.judging.specs.Ends.{end_of};
ghost use Rattle.words.specs.Answered.{answered};

use words::refusal::Refusal;
use words::sort_kinds::{ABS, APP, BIT_VEC, BOOL, DATA, FUNC, INT, MAP, REAL, SET, SIZE, STR, VAR};

// The place behind the kind and the fields of a sort, and how many sorts follow inside it.
#[derive(Clone, Copy)]
pub struct Inside {
    pub next: usize,
    pub sorts: u32,
}

// A number of 64 bits.
pub fn two_end(words: &[u32], at: usize) -> Result<usize, Refusal>
    ensures { answered result ≡ end_of (two_words words.now at) }
{
    if words.len().saturating_sub(at) < 2 {
        return Err(Refusal::NotWords);
    }
    Ok(at + 2)
}

// A span, which ends at most at the limit.
pub fn span_end(words: &[u32], at: usize, limit: u64) -> Result<usize, Refusal>
    ensures { answered result ≡ end_of (span_within limit words.now at) }
{
    if words.len().saturating_sub(at) < 2 {
        return Err(Refusal::NotWords);
    }
    let end = words[at] as u64 + words[at + 1] as u64;
    if limit < end {
        return Err(Refusal::NotWords);
    }
    Ok(at + 2)
}

// A constructor.
fn ctor_end(words: &[u32], at: usize, limit: u64) -> Result<usize, Refusal>
    ensures { answered result ≡ end_of (ctor_at limit words.now at) }
{
    let Some(&k) = words.get(at) else {
        return Err(Refusal::NotWords);
    };
    match k {
        SET | MAP => Ok(at + 1),
        DATA => span_end(words, at + 1, limit),
        _ => Err(Refusal::NotWords),
    }
}

// A constructor and the number of its sorts.
fn app_fields(words: &[u32], at: usize, limit: u64) -> Result<Inside, Refusal>
    ensures { answered result ≡ inside_of (app_fields limit words.now at) }
{
    let a = ctor_end(words, at, limit)?;
    let Some(&sorts) = words.get(a) else {
        return Err(Refusal::NotWords);
    };
    Ok(Inside { next: a + 1, sorts })
}

// A word of any value, then so many sorts.
fn one_field(words: &[u32], at: usize, n: u32) -> Result<Inside, Refusal>
    ensures { answered result ≡ inside_of (one_field n words.now at) }
{
    if words.len() <= at {
        return Err(Refusal::NotWords);
    }
    Ok(Inside {
        next: at + 1,
        sorts: n,
    })
}

// The kind and the fields of the sort at a place.
fn sort_head(words: &[u32], at: usize, limit: u64) -> Result<Inside, Refusal>
    ensures { answered result ≡ inside_of (sort_head limit words.now at) }
{
    let Some(&k) = words.get(at) else {
        return Err(Refusal::NotWords);
    };
    let a = at + 1;
    match k {
        INT | BOOL | REAL | STR => Ok(Inside { next: a, sorts: 0 }),
        BIT_VEC => Ok(Inside { next: a, sorts: 1 }),
        SIZE => one_field(words, a, 0),
        VAR => Ok(Inside {
            next: two_end(words, a)?,
            sorts: 0,
        }),
        FUNC => Ok(Inside { next: a, sorts: 2 }),
        ABS => one_field(words, a, 1),
        APP => app_fields(words, a, limit),
        _ => Err(Refusal::NotWords),
    }
}

// The sort at a place. Sorts nest without limit: the loop counts the sorts that are still to come, and ends where there are more of them
// than words, since each sort takes at least one.
pub fn sort_end(words: &[u32], at: usize, limit: u64) -> Result<usize, Refusal>
    ensures { answered result ≡ end_of (sort_at limit words.now at) }
{
    let mut a = at;
    let mut left = words.len() as u64;
    let mut pending: u64 = 1;
    // No `for`: each sort says how many more are to come.
    while 0 < pending {
        if left < pending {
            return Err(Refusal::NotWords);
        }
        let inside = sort_head(words, a, limit)?;
        a = inside.next;
        pending = pending - 1 + inside.sorts as u64;
        left -= 1;
    }
    Ok(a)
}

// So many binders: of each a number and a sort.
pub fn binders_end(words: &[u32], at: usize, n: u32, limit: u64) -> Result<usize, Refusal>
    ensures { answered result ≡ end_of (binders_at limit n words.now at) }
{
    let mut a = at;
    for _ in 0..n {
        let sort = two_end(words, a)?;
        a = sort_end(words, sort, limit)?;
    }
    Ok(a)
}
