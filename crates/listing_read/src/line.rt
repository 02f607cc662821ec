// One line of decimal words, byte by byte.
ghost use Rattle.std.specs.Prelude.{◌≡◌, length, take};
ghost use Rattle.io.specs.Counts.{IsPrefixLen};
ghost use Rattle.listing_text.specs.Reading.{is_blank, word_ended, step};
ghost use Rattle.listing_text.specs.Chunks.{within};
ghost use Rattle.listing_read.specs.Meaning.{scan_of, left_words, new_line, failed_line};
ghost use Rattle.listing_read.specs.Held.{ended_line, ended_words, stepped_line, stepped_words};

// How far the reading of a line is: the words stored, the word that is being read, and whether there is one; bad where the line is not of decimal words, or has more than fit.
#[derive(Clone, Copy)]
pub struct LineReader {
    pub count: usize,
    pub value: u32,
    pub inside: bool,
    pub bad: bool,
}

pub fn new_line() -> LineReader
    ensures { result ≡ new_line }
{
    LineReader {
        count: 0,
        value: 0,
        inside: false,
        bad: false,
    }
}

fn failed() -> LineReader
    ensures { result ≡ failed_line }
{
    LineReader {
        count: 0,
        value: 0,
        inside: false,
        bad: true,
    }
}

// A tab, a carriage return or a space.
fn is_blank(b: u8) -> bool
    ensures { result ≡ is_blank b }
{
    b == b'\t' || b == b'\r' || b == b' '
}

// The word that is being read is stored, if there is one and there is room.
fn put_word(line: LineReader, words: &mut [u32]) -> LineReader
    ensures result_after { scan_of words.new result ≡ within (length words.old) (word_ended (scan_of words.old line)) }
    ensures fields { result ≡ ended_line (length words.old) line }
    ensures stored { words.new ≡ ended_words line words.old }
{
    if line.bad || !line.inside {
        return line;
    }
    if words.len() <= line.count {
        return failed();
    }
    words[line.count] = line.value;
    LineReader {
        count: line.count + 1,
        value: 0,
        inside: false,
        ..line
    }
}

// One byte more of a line.
#[tactic(auto, unfolding(listing_text::specs::Reading::step), using(crate::proofs::ScanLaws::scan_within))]
pub fn step_byte(line: LineReader, b: u8, words: &mut [u32]) -> LineReader
    ensures result_after { scan_of words.new result ≡ within (length words.old) (step (scan_of words.old line) b) }
    ensures fields { result ≡ stepped_line (length words.old) line b }
    ensures stored { words.new ≡ stepped_words line words.old b }
{
    if line.bad {
        return line;
    }
    if is_blank(b) {
        return put_word(line, words);
    }
    if !b.is_ascii_digit() {
        return failed();
    }
    let v = u64::from(line.value) * 10 + u64::from(b - b'0');
    let Ok(value) = u32::try_from(v) else {
        return failed();
    };
    LineReader {
        value,
        inside: true,
        ..line
    }
}

// The line has ended: how many words it is left with, at the start of the slice. None, where it is bad.
pub fn line_words(line: LineReader, words: &mut [u32]) -> usize
    ensures words_after { take result words.new ≡ left_words words.old line }
    ensures counts { IsPrefixLen result words.new }
    ensures stored { words.new ≡ ended_words line words.old }
{
    let last = put_word(line, words);
    if last.bad {
        return 0;
    }
    last.count.min(words.len())
}
