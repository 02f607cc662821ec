// Lines of decimal words: a count, a code, and the code's words.
ghost use Rattle.std.specs.Prelude.{◌≡◌, take, drop};
ghost use Rattle.call_lists.specs.Lines.{arg_of, args_of, next_line};

use fst::word;
use store_records::store;

// A part of the words that were read.
#[derive(Clone, Copy)]
pub struct Span {
    pub at: u32,
    pub count: u32,
}

// A number with one more digit, by its last 32 bits.
fn with_digit(value: u32, digit: u8) -> u32 {
    value.wrapping_mul(10).wrapping_add(u32::from(digit % 48))
}

// How many words are read, the one being read, and whether there is one.
#[derive(Clone, Copy)]
struct Reading {
    count: u32,
    value: u32,
    inside: bool,
}

// One byte more. A byte below the digits ends a word.
fn read_byte(reading: Reading, b: u8, words: &mut [u32]) -> Reading {
    if b'0' <= b {
        return Reading {
            value: with_digit(reading.value, b),
            inside: true,
            ..reading
        };
    }
    if !reading.inside {
        return reading;
    }
    store(words, reading.count as usize, reading.value);
    Reading {
        count: reading.count.wrapping_add(1),
        value: 0,
        inside: false,
    }
}

// The words of a text, from the first on.
pub fn read_words(text: &[u8], words: &mut [u32]) {
    let mut reading = Reading {
        count: 0,
        value: 0,
        inside: false,
    };
    for b in text {
        reading = read_byte(reading, *b, words);
    }
}

// The words of a part, cut where the words end.
pub fn words_of<'a>(words: &'a [u32], part: Span) -> &'a [u32]
    ensures { result.now ≡ take part.count (drop part.at words.now) }
{
    let start = words.len().min(part.at as usize);
    let count = (words.len() - start).min(part.count as usize);
    &words[start..start + count]
}

// The first words of a slice.
pub fn first<'a>(slice: &'a mut [u32], count: u32) -> &'a mut [u32]
    ensures { result.now ≡ take count slice.old }
{
    let n = slice.len().min(count as usize);
    &mut slice[..n]
}

// Word k of the line at a place: 0 its code.
pub fn arg(words: &[u32], at: u32, k: u32) -> u32
    ensures { result ≡ arg_of words.now at k }
{
    word(words, at as usize + 1 + k as usize)
}

// The words of the line from the k-th on.
pub fn args(words: &[u32], at: u32, k: u32) -> Span
    ensures { result ≡ args_of words.now at k }
{
    let count = word(words, at as usize);
    if count < k {
        return Span { at: 0, count: 0 };
    }
    Span {
        at: at.wrapping_add(1).wrapping_add(k),
        count: count - k,
    }
}

// The next line.
pub fn after(words: &[u32], at: u32) -> u32
    ensures { result ≡ next_line words.now at }
{
    let count = word(words, at as usize);
    at.wrapping_add(1).wrapping_add(count)
}
