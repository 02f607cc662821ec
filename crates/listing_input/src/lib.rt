// An input, as standard input, read into the listing's lines and a query. Where a read fails, the line that is being read is never taken for a whole one.
#![tactic(auto)]

ghost use Rattle.std.specs.Prelude.{◌≡◌, ◌≤◌, [], ◌∷◌, IfSome, length};
ghost use Rattle.listing_text.specs.Chunks.{in_rooms, read_bytes};
ghost use Rattle.listing_read.specs.Meaning.{read_input, rooms_of};
ghost use Rattle.listing_read.specs.Held.{held, held_bytes};
ghost use Rattle.listing_input.specs.Read.{handed_on, reads_on, Reads, ReadsFrom, Took};

use listing_read::{Reader, new_reader, read_chunk};
use std::io::Read;

// A byte that is of no word: the line that is being read is not of words, and never taken for a whole one.
fn spoil(
    r: Reader,
    settings: &mut [u32],
    first: &mut [u32],
    second: &mut [u32],
    query: &mut [u32],
) -> Reader
    ensures input_after { let rooms = rooms_of settings.old first.old second.old query.old in
        let input = read_input r settings.old first.old second.old query.old in
        let input' = read_input result settings.new first.new second.new query.new in
        input' ≡ in_rooms rooms (read_bytes input (33 ∷ [])) }
    ensures stored { let words = held r settings.old first.old second.old query.old in
        let words' = held result settings.new first.new second.new query.new in
        words' ≡ held_bytes words (33 ∷ []) }
{
    read_chunk(r, b"!", settings, first, second, query)
}

// What a read hands on, read: the bytes of the chunk that came, or a byte of no word where it failed.
fn after_read(
    r: Reader,
    got: Option<usize>,
    chunk: &[u8],
    settings: &mut [u32],
    first: &mut [u32],
    second: &mut [u32],
    query: &mut [u32],
) -> Reader
    requires { IfSome got (λ n. n ≤ length chunk.now) }
    ensures input_after { let rooms = rooms_of settings.old first.old second.old query.old in
        let input = read_input r settings.old first.old second.old query.old in
        let input' = read_input result settings.new first.new second.new query.new in
        input' ≡ in_rooms rooms (read_bytes input (handed_on got chunk.now)) }
    ensures stored { let words = held r settings.old first.old second.old query.old in
        let words' = held result settings.new first.new second.new query.new in
        words' ≡ held_bytes words (handed_on got chunk.now) }
{
    let Some(n) = got else {
        return spoil(r, settings, first, second, query);
    };
    read_chunk(r, &chunk[..n], settings, first, second, query)
}

// Whether to read on for so many lines, where the reader is in line `at` after a read.
fn reads_on(lines: u32, at: u32, got: Option<usize>) -> bool
    ensures { result ≡ reads_on lines at got }
{
    at < lines && got.is_some_and(|n| n > 0)
}

// A read of the input: how many bytes came, 0 at its end, or None where it failed.
fn read_some<R: Read>(input: &mut R, chunk: &mut [u8]) -> Option<usize>
    ensures took { Took (R.remaining input.old) (R.remaining input.new) result chunk.new }
    ensures in_chunk { IfSome result (λ n. n ≤ length chunk.new) }
{
    input.read(chunk).ok()
}

// Reads up to line feed number `lines`, the end of the input or a read that fails. Where the chunks are used up, the line that is being read is spoiled.
pub fn read_lines<R: Read>(
    input: &mut R,
    lines: u32,
    settings: &mut [u32],
    first: &mut [u32],
    second: &mut [u32],
    query: &mut [u32],
) -> Reader
    ensures reads { let rooms = rooms_of settings.old first.old second.old query.old in
        Reads rooms (read_input result settings.new first.new second.new query.new) }
    ensures bytes { let rooms = rooms_of settings.old first.old second.old query.old in
        let i = read_input result settings.new first.new second.new query.new in
        IfSome (R.remaining input.old) (λ xs. ReadsFrom lines xs rooms i) }
{
    let mut chunk = io::large_buffer();
    let mut r = new_reader();
    // More reads than can be made: at a thousand million a second they take 584 years.
    for _ in 0..u64::MAX {
        let got = read_some(input, &mut chunk);
        r = after_read(r, got, &chunk, settings, first, second, query);
        if !reads_on(lines, r.at, got) {
            return r;
        }
    }
    spoil(r, settings, first, second, query)
}
