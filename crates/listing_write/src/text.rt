// Texts and decimal numbers, put into a buffer from a place on.
ghost use Rattle.std.specs.Prelude.{◌≡◌, ◌+◌, ◌≤◌, ◌∷◌, ◌++◌, length};
ghost use Rattle.listing_text.specs.Printing.{decimal};
ghost use Rattle.listing_write.specs.Written.{Written};

use itoa::Buffer;

// The text as it is.
pub fn put_text(out: &mut [u8], to: usize, text: &[u8]) -> usize
    requires { to + length text.now ≤ length out.old }
    ensures { Written out.old to text.now out.new result }
{
    let end = to + text.len();
    out[to..end].copy_from_slice(text);
    end
}

// n in decimal: no 32-bit number has more than ten digits.
pub fn put_number(out: &mut [u8], to: usize, n: u32) -> usize
    requires { to + 10 ≤ length out.old }
    ensures written { Written out.old to (decimal n) out.new result }
    ensures near { result ≤ to + 10 }
{
    let mut digits = Buffer::new();
    put_text(out, to, digits.format(n).as_bytes())
}

// A space and a number.
pub fn put_word(out: &mut [u8], to: usize, n: u32) -> usize
    requires { to + 11 ≤ length out.old }
    ensures written { Written out.old to (32 ∷ decimal n) out.new result }
    ensures near { result ≤ to + 11 }
{
    let a = put_text(out, to, b" ");
    put_number(out, a, n)
}

// Four numbers, a space before each.
pub fn put_words(out: &mut [u8], to: usize, a: u32, b: u32, c: u32, d: u32) -> usize
    requires { to + 44 ≤ length out.old }
    ensures written { Written out.old to ((32 ∷ decimal a) ++ ((32 ∷ decimal b) ++ ((32 ∷ decimal c) ++ (32 ∷ decimal d)))) out.new result }
    ensures near { result ≤ to + 44 }
{
    let p = put_word(out, to, a);
    let q = put_word(out, p, b);
    let s = put_word(out, q, c);
    put_word(out, s, d)
}
