// The library's functions for C and Rust, each but the last three a call on a reader that is opened at a count. Each returns the refusal's number, 0 if
// accepted; a slice passes as a pointer and a length in elements. After a refusal the reported numbers are 0, and the count is as it was.
// The contracts are `Promised`, of flattening `Flattened` and of SMT-LIB `Spoken`: the reply is the outcome of the call. They stand in
// crates/boundary, which decides what is reported, and where demand 3 is proved of a session of these functions.
#![tactic(auto)]

ghost use Rattle.std.specs.Prelude.{[], ◌≡◌};
ghost use Rattle.replies.specs.Calls.{one_call, all_call, sort_call, expr_call, bind_call, solution_call};
ghost use Rattle.boundary.specs.Reply.{uncounted, counted, Promised, flat, Flattened};
ghost use Rattle.boundary.specs.Smtlib.{spoken, Spoken};
ghost use Rattle.boundary.specs.Version.{version as versionOf};

use boundary::{Reported, version};
use reader::Reader;
use replies::sized;

// Reads the first expression of the text: how many words it has, and the byte behind it.
#[unsafe(no_mangle)]
pub extern "C" fn pinhkray_read_one(
    text: &[u8],
    out: &mut [u32],
    words: &mut u64,
    next: &mut u64,
) -> u32
    ensures { Promised (one_call text.now out.old) 0 (uncounted result words.new next.new [] out.new) }
{
    let answer = Reader::open(0).read_one(text, out);
    let told = Reported::from(answer.said);
    *words = told.first;
    *next = told.second;
    told.refusal
}

// Reads all expressions of the text: how many there are, and how many words they have.
#[unsafe(no_mangle)]
pub extern "C" fn pinhkray_read_all(
    text: &[u8],
    out: &mut [u32],
    expressions: &mut u64,
    words: &mut u64,
) -> u32
    ensures { Promised (all_call text.now out.old) 0 (uncounted result expressions.new words.new [] out.new) }
{
    let answer = Reader::open(0).read_all(text, out);
    let told = Reported::from(answer.said);
    *expressions = told.first;
    *words = told.second;
    told.refusal
}

// The sort that the text begins with: how many words it has. The tree is a working slice, and zero afterwards.
#[unsafe(no_mangle)]
pub extern "C" fn pinhkray_sort(
    text: &[u8],
    tree: &mut [u32],
    out: &mut [u32],
    words: &mut u64,
) -> u32
    ensures { Promised (sort_call text.now tree.old out.old) 0 (uncounted result words.new 0 tree.new out.new) }
{
    let answer = Reader::open(0).sort(text, tree, out);
    let told = Reported::from(answer.said);
    *words = told.first;
    told.refusal
}

// The expression that the text begins with, not flattened: how many words it has, and the count of the reader afterwards.
#[unsafe(no_mangle)]
pub extern "C" fn pinhkray_expression(
    text: &[u8],
    tree: &mut [u32],
    out: &mut [u32],
    count: u64,
    words: &mut u64,
    count_after: &mut u64,
) -> u32
    ensures { Promised (expr_call text.now tree.old out.old) count (counted result words.new count_after.new tree.new [] out.new) }
{
    let answer = Reader::open(count).expression(text, tree, out);
    *count_after = answer.reader.next;
    let told = Reported::from(answer.said);
    *words = told.first;
    told.refusal
}

// The bind that the text begins with: how many words it has, and the count of the reader afterwards.
#[unsafe(no_mangle)]
pub extern "C" fn pinhkray_bind(
    text: &[u8],
    tree: &mut [u32],
    out: &mut [u32],
    count: u64,
    words: &mut u64,
    count_after: &mut u64,
) -> u32
    ensures { Promised (bind_call text.now tree.old out.old) count (counted result words.new count_after.new tree.new [] out.new) }
{
    let reply = Reader::open(count).bind(text, tree, out);
    *count_after = reply.reader.next;
    let told = Reported::from(reply.said);
    *words = told.first;
    told.refusal
}

// The solution that the text begins with, flattened: how many words it has, and the count of the reader afterwards. The tree and the draft
// are working slices, and zero afterwards.
#[unsafe(no_mangle)]
pub extern "C" fn pinhkray_solution(
    text: &[u8],
    tree: &mut [u32],
    draft: &mut [u32],
    out: &mut [u32],
    count: u64,
    words: &mut u64,
    count_after: &mut u64,
) -> u32
    ensures { Promised (solution_call text.now tree.old draft.old out.old) count (counted result words.new count_after.new tree.new draft.new out.new) }
{
    let solved = Reader::open(count).solution(text, tree, draft, out);
    *count_after = solved.reader.next;
    let told = Reported::from(solved.said);
    *words = told.first;
    told.refusal
}

// Flattens the words of an expression: how many words there are then. It takes no reader, and changes none of the words read.
#[unsafe(no_mangle)]
pub extern "C" fn pinhkray_flatten(words_in: &[u32], out: &mut [u32], words: &mut u64) -> u32
    ensures { Flattened words_in.now out.old (flat result words.new out.new) }
{
    let told = Reported::from(sized(flatten::flatten(words_in, out)));
    *words = told.first;
    told.refusal
}

// Writes the words of a solution as SMT-LIB's list of sorted variables, a space and one term: how many bytes there are. The spans of the words
// point into the text. It takes no reader, and changes neither the words nor the text.
#[unsafe(no_mangle)]
pub extern "C" fn pinhkray_smtlib(
    words: &[u32],
    text: &[u8],
    out: &mut [u8],
    bytes: &mut u64,
) -> u32
    ensures { Spoken words.now text.now out.old (spoken result bytes.new out.new) }
{
    let told = Reported::from(sized(smtlib::smtlib(words, text, out)));
    *bytes = told.first;
    told.refusal
}

// The version of the interface.
#[unsafe(no_mangle)]
pub extern "C" fn pinhkray_version() -> u32
    ensures { result ≡ versionOf }
{
    version()
}
