// The listing of document 01: from the words of its lines, or from a reader that has read them, to its bytes. No function of this file has a precondition.
#![tactic(auto)]

mod lines;
mod stages;

ghost use Rattle.std.specs.Prelude.{◌≡◌};
ghost use Rattle.io.specs.Counts.{IsPrefixLen};
ghost use Rattle.calls.specs.Listing.{listing_on};
ghost use Rattle.listing_text.specs.Printing.{bytes_of};
ghost use Rattle.listing_text.specs.Ended.{ended_bytes};
ghost use Rattle.listing_read.specs.Meaning.{left_words};
ghost use Rattle.listing_read.specs.Held.{ended_words};
ghost use Rattle.listing_write.specs.Written.{Written};
ghost use Rattle.lazy_fst.specs.Meaning.{lent_with};

use fst::Refusal;
use lazy_fst::AllowedLists;
use listing_read::{Reader, line_words};
use listing_write::put_refused;
use session_checks::{SETTINGS_WORDS, read_settings};
pub use stages::no_session;
use stages::open_listing;
use store_records::{STATE_SIZE, TR_SIZE};

// "room is 1024 records of each sort and 64 heads"
pub const HEADS: usize = 64;

const ROOM: usize = 1024;

pub const STATE_WORDS: usize = STATE_SIZE * ROOM;

pub const TR_WORDS: usize = TR_SIZE * ROOM;

// The listing of the machines under the settings of six words, with the allowed lists that are lent: its bytes stand at the start of `out`, and the answer is their number.
pub fn listing(
    words: &[u32],
    m1: &[u32],
    m2: &[u32],
    allowed1: &[u32],
    allowed2: &[u32],
    ignored: &[u32],
    listed: AllowedLists,
    out: &mut [u8; 131200],
) -> usize
    ensures fact { let l = lent_with m1.now m2.now allowed1.now allowed2.now ignored.now listed in
        Written out.old 0 (bytes_of (listing_on words.now l)) out.new result }
    ensures counts { IsPrefixLen result out.new }
{
    if words.len() != SETTINGS_WORDS {
        return put_refused(out, 0, u32::from(Refusal::Settings));
    }
    let mut heads = [0u32; HEADS];
    let mut states = [0u32; STATE_WORDS];
    let mut trs = [0u32; TR_WORDS];
    open_listing(
        read_settings(words),
        m1,
        m2,
        allowed1,
        allowed2,
        ignored,
        listed,
        &mut heads,
        &mut states,
        &mut trs,
        out,
    )
}

// What is printed when the input that the reader has read has ended: the words that were being read are stored, and the lines' words are listed.
pub fn answer(
    r: Reader,
    settings: &mut [u32],
    first: &mut [u32],
    second: &mut [u32],
    out: &mut [u8; 131200],
) -> usize
    ensures fact { let words = left_words settings.old r.settings in
        let m1 = left_words first.old r.first in
        let m2 = left_words second.old r.second in
        Written out.old 0 (ended_bytes words m1 m2) out.new result }
    ensures counts { IsPrefixLen result out.new }
    ensures stored { (settings.new ≡ ended_words r.settings settings.old)
        × (first.new ≡ ended_words r.first first.old)
        × (second.new ≡ ended_words r.second second.old) }
{
    let a = line_words(r.settings, settings);
    let b = line_words(r.first, first);
    let c = line_words(r.second, second);
    let words = &settings[..a];
    let m1 = &first[..b];
    let m2 = &second[..c];
    let none = AllowedLists {
        first: false,
        second: false,
    };
    listing(words, m1, m2, m1, m2, &m1[0..0], none, out)
}
