// The lines of a case, read byte by byte; the case is answered when its last line ends.
ghost use Rattle.std.specs.Prelude.{◌≡◌, length};
ghost use Rattle.replay.specs.Places.{new_place, room_at, place_ended, place_byte, place_after};

use crate::order::print_order;
use lazy_fst::AllowedLists;
use listing::listing;
use listing_read::{LineReader, MACHINE_WORDS, new_line, step_byte};

// The lines of a case, and the words that there is room for in each.
pub const LINES: usize = 7;

const ROOM: usize = MACHINE_WORDS;

pub const WORDS: usize = LINES * ROOM;

// The number of standard output.
pub const STDOUT: i32 = 1;

// The line of the case that is being read, and whether a byte of the case was read.
#[derive(Clone, Copy)]
pub struct Place {
    pub at: u32,
    pub begun: bool,
    pub line: LineReader,
}

// Before the first byte of a case.
pub fn new_place() -> Place
    ensures { result ≡ new_place }
{
    Place {
        at: 0,
        begun: false,
        line: new_line(),
    }
}

// The room of line k.
fn room_of<'a>(words: &'a mut [u32], k: u32) -> &'a mut [u32]
    ensures { length result.now ≡ room_at (length words.old) k }
{
    let from = words.len().min(ROOM * k as usize);
    let to = from + ROOM.min(words.len() - from);
    &mut words[from..to]
}

// The end of line k, None where it is not of words; 0 where none is kept.
fn end_of(ends: &[Option<usize>], k: u32) -> Option<usize> {
    ends.get(k as usize).copied().unwrap_or(Some(0))
}

// The words of line k, none where it is not of words.
fn words_of<'a>(words: &'a [u32], ends: &[Option<usize>], k: u32) -> &'a [u32] {
    let from = words.len().min(ROOM * k as usize);
    let to = from + end_of(ends, k).unwrap_or(0).min(words.len() - from);
    &words[from..to]
}

// The whole listing of the case, or its expansions in order.
fn answer(words: &[u32], ends: &[Option<usize>]) {
    let order = words_of(words, ends, 0);
    let settings = words_of(words, ends, 1);
    let allowed1 = words_of(words, ends, 2);
    let allowed2 = words_of(words, ends, 3);
    let ignored = words_of(words, ends, 4);
    let m1 = words_of(words, ends, 5);
    let m2 = words_of(words, ends, 6);
    let listed = AllowedLists {
        first: end_of(ends, 2).is_some(),
        second: end_of(ends, 3).is_some(),
    };
    let mut out = [0u8; 131200];
    if end_of(ends, 0).is_some() {
        print_order(order, settings, m1, m2, allowed1, allowed2, ignored, listed);
    } else {
        let n = listing(
            settings, m1, m2, allowed1, allowed2, ignored, listed, &mut out,
        );
        io::write_all(STDOUT, &out[..n]);
    }
    io::write_all(STDOUT, b"--\n");
}

// The line ends, as if a blank came: how many words it has is kept, none where it is not of words, and after the seventh line the case is answered.
fn end_line(place: Place, words: &mut [u32], ends: &mut [Option<usize>]) -> Place
    ensures { result ≡ place_ended place }
{
    let line = step_byte(place.line, b' ', room_of(words, place.at));
    if let Some(end) = ends.get_mut(place.at as usize) {
        *end = if line.bad { None } else { Some(line.count) };
    }
    if place.at < 6 {
        return Place {
            at: place.at + 1,
            begun: true,
            line: new_line(),
        };
    }
    answer(words, ends);
    new_place()
}

fn read_byte(place: Place, b: u8, words: &mut [u32], ends: &mut [Option<usize>]) -> Place
    ensures { result ≡ place_byte (length words.old) place b }
{
    if b == b'\n' {
        return end_line(place, words, ends);
    }
    Place {
        begun: true,
        line: step_byte(place.line, b, room_of(words, place.at)),
        ..place
    }
}

// The bytes of a chunk, one after the other; each case is answered as its last line ends.
#[tactic(auto, using(crate::proofs::PlaceLaws::none_read, crate::proofs::PlaceLaws::one_more, crate::proofs::PlaceLaws::all_read))]
pub fn read_bytes(
    start: Place,
    chunk: &[u8],
    words: &mut [u32],
    ends: &mut [Option<usize>],
) -> Place
    ensures { result ≡ place_after (length words.old) start chunk.now }
{
    let mut place = start;
    for b in chunk {
        place = read_byte(place, *b, words, ends);
    }
    place
}

// The input has ended: a case that was begun is answered, its missing lines being empty.
pub fn finish(start: Place, words: &mut [u32], ends: &mut [Option<usize>]) {
    let mut place = start;
    for _ in 0..LINES {
        if !place.begun {
            return;
        }
        place = end_line(place, words, ends);
    }
}
