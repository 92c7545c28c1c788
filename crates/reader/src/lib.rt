// The reader: one count, and the operations of document 01 as its methods. The count is the next fresh number, and one reader may serve for
// years: each call takes it by value and gives it back inside the answer, with the count raised by the numbers that the answer binds, so
// that no number is bound twice. Each contract is `Promised` (crates/replies/specs/Sessions.antt): the reply is the `outcome` of the call, at
// the reader's count (crates/session/specs/Session.antt). What is said is decided in crates/replies, where demand 3 is proved of those very
// replies, for every list of calls.
//
// No method asks anything of its caller. An accepted call writes its words from the start of the output, and nothing behind them. A refused
// one gives the reader back as it came, and zeroes every slice that it was lent. Tree and draft are working slices, and zero after
// every call.
#![tactic(auto)]

ghost use Rattle.std.specs.Prelude.{◌≡◌, []};
ghost use Rattle.replies.specs.Calls.{one_call, all_call, sort_call, expr_call, bind_call, solution_call};
ghost use Rattle.replies.specs.Sessions.{Promised};
ghost use Rattle.reader.specs.Replied.{replied};

use replies::{count_after, counted, sized};
use words::refusal::Refusal;
use words::report::Report;

// The next fresh number.
#[derive(Clone, Copy)]
pub struct Reader {
    pub next: u64,
}

// What a call says, and the reader for the next call.
#[derive(Clone, Copy)]
pub struct Answer {
    pub reader: Reader,
    pub said: Result<Report, Refusal>,
}

impl Reader {
    // A reader whose first fresh number is the count: 0 for a new one, or where another left off.
    pub fn open(count: u64) -> Reader
        ensures { result.next ≡ count }
    {
        Reader { next: count }
    }

    // Reads the first expression of a text, and reports how many words it has and the byte behind it. Refusals: 1 for a text that is too
    // long, 2 if it is not UTF-8, 3 if it ends early, 4 for a `)` too many, 5 for a string or an `@` that does not end, 6 for too many lists
    // inside one another, 7 if the output lacks room.
    pub fn read_one(self, text: &[u8], out: &mut [u32]) -> Answer
        ensures { Promised (one_call text.now out.old) self.next (replied result [] [] out.new) }
    {
        Answer {
            said: text::read_one(text, out),
            reader: self,
        }
    }

    // Reads all expressions of a text, and reports how many there are and how many words they have. The refusals are those of `read_one`.
    pub fn read_all(self, text: &[u8], out: &mut [u32]) -> Answer
        ensures { Promised (all_call text.now out.old) self.next (replied result [] [] out.new) }
    {
        Answer {
            said: text::read_all(text, out),
            reader: self,
        }
    }

    // The sort that a text begins with; reports how many words it has, and 0. Refusals: those of `read_one`, 7 also if the tree slice lacks
    // room for the tree, 8 for a tree that is no sort, 12 for the number of a `func` that is out of range.
    pub fn sort(self, text: &[u8], tree: &mut [u32], out: &mut [u32]) -> Answer
        ensures { Promised (sort_call text.now tree.old out.old) self.next (replied result tree.new [] out.new) }
    {
        Answer {
            said: sized(parse::sort::sort(text, tree, out)),
            reader: self,
        }
    }

    // The expression that a text begins with, not flattened; reports how many words it has, and 0. Refusals: those of `sort`, 9 for a decimal
    // as an expression, 10 for a repeated name in an exists, 11 for the digits of a `lit`, 17 if there are not as many as its size says, 13 if
    // the fresh numbers run out.
    pub fn expression(self, text: &[u8], tree: &mut [u32], out: &mut [u32]) -> Answer
        ensures { Promised (expr_call text.now tree.old out.old) self.next (replied result tree.new [] out.new) }
    {
        let answer = parse::expression::expression(text, tree, out, self.next);
        Answer {
            reader: Reader {
                next: count_after(answer, self.next),
            },
            said: counted(answer),
        }
    }

    // The bind that a text begins with, a name, its sort and predicates; reports how many words it has, and 0. The refusals are those of
    // `expression`.
    pub fn bind(self, text: &[u8], tree: &mut [u32], out: &mut [u32]) -> Answer
        ensures { Promised (bind_call text.now tree.old out.old) self.next (replied result tree.new [] out.new) }
    {
        let answer = parse::bind::bind(text, tree, out, self.next);
        Answer {
            reader: Reader {
                next: count_after(answer, self.next),
            },
            said: counted(answer),
        }
    }

    // The solution that a text begins with, flattened: parameters and a body; reports how many words it has, and 0. The draft takes the body
    // before flattening. Refusals: those of `expression`, 10 also for a repeated name among the parameters, 7 also if the draft slice lacks
    // room for the body.
    pub fn solution(
        self,
        text: &[u8],
        tree: &mut [u32],
        draft: &mut [u32],
        out: &mut [u32],
    ) -> Answer
        ensures { Promised (solution_call text.now tree.old draft.old out.old) self.next (replied result tree.new draft.new out.new) }
    {
        let answer = flatten::solution(text, tree, draft, out, self.next);
        Answer {
            reader: Reader {
                next: count_after(answer, self.next),
            },
            said: counted(answer),
        }
    }
}
