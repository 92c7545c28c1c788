// Replays recorded answers from standard input, a call and its answer a line (crates/recorded/src/line.rt), and says how many there were and how many differ.
// A call is made on the reader that the last call returned if that one's count is where the line starts, and on a new one if not.
// What it counts is proved: how many lines there are, and how many record another answer than the definitions give (specs/Tally.antt).
#![tactic(auto)]

ghost use Rattle.std.specs.Prelude.{◌≡◌, true, min, length};
ghost use Rattle.recorded.specs.Numbers.{most};
ghost use Rattle.replay.specs.Tally.{more as more_of, Told, Stepped, lines_of, wrong};

mod call;
mod flat;

use crate::call::{Done, text_line};
use crate::flat::flatten_line;
use recorded::line::{Line, line_at};

// What was replayed so far, and the reader that the last call returned.
#[derive(Clone, Copy)]
struct State {
    reader: reader::Reader,
    opened: bool,
    answers: u64,
    kept: u64,
    differing: u64,
    first: u64,
}

// Fewer bytes than these are read.
const ROOM: usize = 524288;

fn main() {
    let mut data = [0u8; ROOM];
    replayed(&mut data);
}

// Reads all lines, replays them, and says what came of it. An array as long as this is not looked into in the function that makes it.
fn replayed(data: &mut [u8; ROOM]) {
    let n = io::read_full(0, data);
    if n == ROOM {
        io::write_all(1, b"there are more lines than can be read\n");
    }
    let state = replay(&data[..n]);
    io::print_decimal(1, state.answers);
    io::write_all(1, b" answers replayed\n");
    io::print_decimal(1, state.kept);
    io::write_all(1, b" of them on a reader that an earlier call returned\n");
    io::print_decimal(1, state.differing);
    io::write_all(1, b" differ\n");
    if 0 < state.differing {
        io::write_all(1, b"the first is line ");
        io::print_decimal(1, state.first);
        io::write_all(1, b"\n");
    }
}

// All lines: how many there are, and how many have another answer than the recorded one.
fn replay(lines: &[u8]) -> State
    ensures { (result.answers ≡ min most (length (lines_of lines.now))) × (result.differing ≡ min most (wrong lines.now (lines_of lines.now))) }
{
    let mut at: usize = 0;
    let mut state = State {
        reader: reader::Reader::open(0),
        opened: false,
        answers: 0,
        kept: 0,
        differing: 0,
        first: 0,
    };
    // A cursor and not a `for`: each line says where the next begins.
    while at < lines.len() {
        let line = line_at(lines, at);
        state = step(lines, line, state);
        if line.next <= at {
            break;
        }
        at = line.next;
    }
    state
}

// One line. Flattening takes no reader.
fn step(lines: &[u8], line: Line, state: State) -> State
    ensures { Stepped lines.now line state result }
{
    if line.op == b'F' {
        return told(state, flatten_line(lines, line));
    }
    let reader = state.reader;
    if state.opened && reader.next == line.start {
        return returned(state, text_line(lines, line, reader), more(state.kept));
    }
    returned(
        state,
        text_line(lines, line, reader::Reader::open(line.start)),
        state.kept,
    )
}

// One call of a reader more.
fn returned(state: State, done: Done, kept: u64) -> State
    ensures { Told (record { reader = done.reader; opened = true; answers = state.answers; kept = kept; differing = state.differing; first = state.first }) done.same result }
{
    let reader = done.reader;
    let next = State {
        reader: reader,
        opened: true,
        answers: state.answers,
        kept: kept,
        differing: state.differing,
        first: state.first,
    };
    told(next, done.same)
}

// One answer more, and whether it was the recorded one.
fn told(state: State, same: bool) -> State
    ensures { Told state same result }
{
    let mut next = state;
    next.answers = more(state.answers);
    if same {
        return next;
    }
    next.differing = more(state.differing);
    if state.differing == 0 {
        next.first = next.answers;
    }
    next
}

// One more.
fn more(n: u64) -> u64
    ensures { result ≡ more_of n }
{
    if n < u64::MAX {
        return n + 1;
    }
    n
}
