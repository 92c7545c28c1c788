// Words judged: specs/Judge.antt says which words are a sort, an expression or a solution, and with what refusal any others are refused; the
// proofs say that the words of a term are read as that term, and that judged words are the words of what was read. The crates above answer where
// what is judged ends.
#![tactic(auto)]

ghost use Rattle.std.specs.Prelude.{◌≡◌};
ghost use Rattle.std.specs.Result.{result_unwrap_or};

// The place behind what was judged before, or the place before it.
pub fn behind<E: Copy>(end: Result<usize, E>, at: usize) -> usize
    ensures { result ≡ result_unwrap_or end at }
{
    end.unwrap_or(at)
}
