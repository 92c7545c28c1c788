// Byte strings compared with one another, and found in a text.
ghost use Rattle.std.specs.Prelude.{◌≡◌, ◌≤◌, length};
ghost use Rattle.reading.specs.Bytes.{same_bytes, begins_with, starts_with};
ghost use Rattle.lexing.specs.Found.{FoundAt};

// Whether two slices hold the same bytes. Names of one length often begin alike, so the last bytes are compared first.
pub fn same(a: &[u8], b: &[u8]) -> bool
    ensures { result ≡ same_bytes a.now b.now }
{
    let n = a.len();
    if n != b.len() {
        return false;
    }
    if n == 0 {
        return true;
    }
    let last = n - 1;
    if a[last] != b[last] {
        return false;
    }
    for i in 0..last {
        if a[i] != b[i] {
            return false;
        }
    }
    true
}

// Whether s begins with w.
pub fn begins_with(w: &[u8], s: &[u8]) -> bool
    ensures { result ≡ begins_with w.now s.now }
{
    let n = w.len();
    if s.len() < n {
        return false;
    }
    same(w, &s[0..n])
}

// The place of the first such byte from `from` on.
pub fn find(text: &[u8], from: usize, byte: u8) -> Option<usize>
    requires { from ≤ length text.now }
    ensures { FoundAt (starts_with byte) text.now from result }
{
    for i in from..text.len() {
        if text[i] == byte {
            return Some(i);
        }
    }
    None
}
