// A lent slice of any length.
ghost use Rattle.std.specs.Prelude.{◌≡◌, min, set};

pub fn least(a: usize, b: usize) -> usize
    ensures { result ≡ min a b }
{
    a.min(b)
}

// A word written; nothing past the end.
pub fn store(s: &mut [u32], i: usize, v: u32)
    ensures { s.new ≡ set s.old i v }
{
    if i < s.len() {
        s[i] = v;
    }
}
