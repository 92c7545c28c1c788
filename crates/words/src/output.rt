// Words written to an output. A word that does not fit is dropped: the caller counts the words and
// compares the count with the output's length at the end.
ghost use Rattle.std.specs.Prelude.{◌≡◌, ◌^◌, ◌<◌, [], ◌∷◌, set};
ghost use Rattle.std.proofs.lemmas.List.Edits.{sets};
ghost use Rattle.reading.specs.Answer.{zeros};

// One word.
pub fn put(out: &mut [u32], at: usize, w: u32)
    ensures { out.new ≡ set out.old at w }
{
    if at < out.len() {
        out[at] = w;
    }
}

// Three words, in one test where all of them fit.
pub fn put_three(out: &mut [u32], at: usize, a: u32, b: u32, c: u32)
    requires { at < 2 ^ 32 }
    ensures { out.new ≡ sets out.old at (a ∷ b ∷ c ∷ []) }
{
    if at + 3 <= out.len() {
        out[at] = a;
        out[at + 1] = b;
        out[at + 2] = c;
        return;
    }
    put(out, at, a);
    put(out, at + 1, b);
    put(out, at + 2, c);
}

// Zeros throughout.
pub fn clear(out: &mut [u32])
    ensures { out.new ≡ zeros out.old }
{
    out.fill(0);
}
