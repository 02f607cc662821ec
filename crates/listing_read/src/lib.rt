// The input of the listing, and a query after it, read in chunks: four lines of decimal words, each into its own slice. Every function takes any bytes and any reader.
#![tactic(auto)]

mod line;

ghost use Rattle.std.specs.Prelude.{◌≡◌};
ghost use Rattle.listing_text.specs.Chunks.{read_byte, read_bytes, in_rooms};
ghost use Rattle.listing_read.specs.Meaning.{read_input, rooms_of, new_reader};
ghost use Rattle.listing_read.specs.Held.{held, held_byte, held_bytes};

pub use line::{LineReader, line_words, new_line, step_byte};

// "A machine line above 4096 words .. is malformed": more words of a line are not stored.
pub const MACHINE_WORDS: usize = 4096;

// "machine, state and label": no more words of a query matter.
pub const QUERY_WORDS: usize = 3;

// How far the reading of the input is: the number of the line that is being read, and the four lines.
#[derive(Clone, Copy)]
pub struct Reader {
    pub at: u32,
    pub settings: LineReader,
    pub first: LineReader,
    pub second: LineReader,
    pub query: LineReader,
}

// The reader before the first byte.
pub fn new_reader() -> Reader
    ensures { result ≡ new_reader }
{
    Reader {
        at: 0,
        settings: new_line(),
        first: new_line(),
        second: new_line(),
        query: new_line(),
    }
}

// One byte more.
#[tactic(auto, unfolding(listing_text::specs::Chunks::read_byte, crate::specs::Held::held_byte), using(crate::proofs::ScanLaws::scan_within))]
pub fn read_byte(
    r: Reader,
    b: u8,
    settings: &mut [u32],
    first: &mut [u32],
    second: &mut [u32],
    query: &mut [u32],
) -> Reader
    ensures input_after { let rooms = rooms_of settings.old first.old second.old query.old in
        let input = read_input r settings.old first.old second.old query.old in
        let input' = read_input result settings.new first.new second.new query.new in
        input' ≡ in_rooms rooms (read_byte input b) }
    ensures stored { let words = held r settings.old first.old second.old query.old in
        held result settings.new first.new second.new query.new ≡ held_byte words b }
{
    if 3 < r.at {
        return r;
    }
    if b == b'\n' {
        return Reader { at: r.at + 1, ..r };
    }
    match r.at {
        0 => Reader {
            settings: step_byte(r.settings, b, settings),
            ..r
        },
        1 => Reader {
            first: step_byte(r.first, b, first),
            ..r
        },
        2 => Reader {
            second: step_byte(r.second, b, second),
            ..r
        },
        _ => Reader {
            query: step_byte(r.query, b, query),
            ..r
        },
    }
}

// The bytes of a chunk, one after the other.
pub fn read_chunk(
    start: Reader,
    chunk: &[u8],
    settings: &mut [u32],
    first: &mut [u32],
    second: &mut [u32],
    query: &mut [u32],
) -> Reader
    ensures input_after { let rooms = rooms_of settings.old first.old second.old query.old in
        let input = read_input start settings.old first.old second.old query.old in
        let input' = read_input result settings.new first.new second.new query.new in
        input' ≡ in_rooms rooms (read_bytes input chunk.now) }
    ensures stored { let words = held start settings.old first.old second.old query.old in
        let words' = held result settings.new first.new second.new query.new in
        words' ≡ held_bytes words chunk.now }
{
    let mut r = start;
    for &b in chunk {
        r = read_byte(r, b, settings, first, second, query);
    }
    r
}
