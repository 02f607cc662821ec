// The lines of the listing, and a number alone, put into a buffer from a place on. Each function answers the place after what it put; the caller has checked that there is room.
#![tactic(auto)]

mod text;

ghost use Rattle.std.specs.Prelude.{◌+◌, ◌≤◌, ◌∷◌, length};
ghost use Rattle.calls.specs.Listing.{side_line, state_line, tr_line, end_line, refused_line};
ghost use Rattle.listing_text.specs.Printing.{line_bytes, final_word};
ghost use Rattle.listing_text.specs.FanOutText.{count_bytes};
ghost use Rattle.listing_write.specs.Written.{Written};

use text::{put_number, put_text, put_word, put_words};

// `side input`, `side output` or `side both`, by the number in the session.
pub fn put_side(out: &mut [u8], to: usize, side: u32) -> usize
    requires { to + 64 ≤ length out.old }
    ensures written { Written out.old to (line_bytes (side_line side)) out.new result }
    ensures near { result ≤ to + 64 }
{
    match side {
        0 => put_text(out, to, b"side input\n"),
        1 => put_text(out, to, b"side output\n"),
        _ => put_text(out, to, b"side both\n"),
    }
}

// A space, and the final weight or `-`.
fn put_final(out: &mut [u8], to: usize, weight: Option<u32>) -> usize
    requires { to + 11 ≤ length out.old }
    ensures written { Written out.old to (32 ∷ final_word weight) out.new result }
    ensures near { result ≤ to + 11 }
{
    match weight {
        Some(w) => put_word(out, to, w),
        None => put_text(out, to, b" -"),
    }
}

// `s`: the state's number, its triple, and its final weight or `-`.
pub fn put_state(
    out: &mut [u8],
    to: usize,
    n: u32,
    s1: u32,
    s2: u32,
    f: u32,
    weight: Option<u32>,
) -> usize
    requires { to + 64 ≤ length out.old }
    ensures written { Written out.old to (line_bytes (state_line n (record { s1 = s1; s2 = s2; f = f }) weight)) out.new result }
    ensures near { result ≤ to + 64 }
{
    let a = put_text(out, to, b"s");
    let b = put_words(out, a, n, s1, s2, f);
    let c = put_final(out, b, weight);
    put_text(out, c, b"\n")
}

// `t`: input, output, weight, target.
pub fn put_tr(out: &mut [u8], to: usize, input: u32, output: u32, weight: u32, target: u32) -> usize
    requires { to + 64 ≤ length out.old }
    ensures written { Written out.old to (line_bytes (tr_line input output weight target)) out.new result }
    ensures near { result ≤ to + 64 }
{
    let a = put_text(out, to, b"t");
    let b = put_words(out, a, input, output, weight, target);
    put_text(out, b, b"\n")
}

// `end`: the counts of states and of transitions.
pub fn put_end(out: &mut [u8], to: usize, states: u32, trs: u32) -> usize
    requires { to + 64 ≤ length out.old }
    ensures written { Written out.old to (line_bytes (end_line states trs)) out.new result }
    ensures near { result ≤ to + 64 }
{
    let a = put_text(out, to, b"end");
    let b = put_word(out, a, states);
    let c = put_word(out, b, trs);
    put_text(out, c, b"\n")
}

// `refused` and the number.
pub fn put_refused(out: &mut [u8], to: usize, n: u32) -> usize
    requires { to + 64 ≤ length out.old }
    ensures written { Written out.old to (line_bytes (refused_line n)) out.new result }
    ensures near { result ≤ to + 64 }
{
    let a = put_text(out, to, b"refused");
    let b = put_word(out, a, n);
    put_text(out, b, b"\n")
}

// A number alone.
pub fn put_count(out: &mut [u8], to: usize, n: u32) -> usize
    requires { to + 64 ≤ length out.old }
    ensures written { Written out.old to (count_bytes n) out.new result }
    ensures near { result ≤ to + 64 }
{
    let a = put_number(out, to, n);
    put_text(out, a, b"\n")
}
