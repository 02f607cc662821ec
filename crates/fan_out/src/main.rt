// Reads settings, two machines and a query (machine, state, label), a line each, and prints how many matches the look-up of the label gives, or `refused n`.
#![tactic(auto)]

ghost use Rattle.std.specs.Prelude.{◌≡◌, [], IfSome, None};
ghost use Rattle.io.specs.Counts.{IsPrefixLen};
ghost use Rattle.words.specs.Settings.{Settings, Lent};
ghost use Rattle.fan_outs.specs.FanOut.{fan_out_at, queried, fan_out_line};
ghost use Rattle.listing_text.specs.FanOutText.{fan_out_bytes, ended_fan_out};
ghost use Rattle.listing_read.specs.Meaning.{left_words};
ghost use Rattle.listing_read.specs.Held.{ended_words};
ghost use Rattle.listing_write.specs.Written.{Written};
ghost use Rattle.session_checks.specs.Meaning.{lent_slices};
ghost use Rattle.fst.specs.Refusals.{checked_by};
ghost use Rattle.fan_out.specs.Prints.{Prints, PrintsOf};

use fan_out_call::fan_out;
use fst::{Label, Refusal, StateId};
use lazy_fst::AllowedLists;
use listing_input::read_lines;
use listing_read::{MACHINE_WORDS, QUERY_WORDS, Reader, line_words};
use listing_write::{put_count, put_refused};
use session_checks::{SETTINGS_WORDS, read_settings};
use std::io::Read;

// A machine that is neither 1 nor 2: a query not of three words names it.
const NO_MACHINE: u32 = 0;

// The machine, the state and the label that a query asks for; no machine, where it is not of three words.
#[tactic(auto, using(crate::proofs::QueryLaws::unasked))]
fn asked(query: &[u32]) -> (u32, StateId, Label)
    ensures { (s : Settings) (l : Lent) →
        fan_out_at s l result.0 result.1.0 result.2.0 ≡ queried s l query.now }
{
    if let [machine, state, label] = query {
        (*machine, StateId(*state), Label(*label))
    } else {
        (NO_MACHINE, StateId(0), Label(0))
    }
}

// The fan-out that the words of the four lines ask for, without allowed lists and ignored labels.
fn look_up(settings: &[u32], m1: &[u32], m2: &[u32], query: &[u32]) -> Result<u32, Refusal>
    ensures { let l = lent_slices m1.now m2.now None None [] in
        checked_by (λ n. n) result ≡ fan_out_line settings.now l query.now }
{
    if settings.len() != SETTINGS_WORDS {
        return Err(Refusal::Settings);
    }
    let wanted = read_settings(settings);
    let listed = AllowedLists {
        first: false,
        second: false,
    };
    let (machine, state, label) = asked(query);
    fan_out(wanted, m1, m2, &[], &[], &[], listed, machine, state, label)
}

// The number alone, or the refusal, at the start of `out`.
fn put_found(out: &mut [u8; 64], found: Result<u32, Refusal>) -> usize
    ensures written { Written out.old 0 (fan_out_bytes (checked_by (λ n. n) found)) out.new result }
    ensures counts { IsPrefixLen result out.new }
{
    match found {
        Ok(n) => put_count(out, 0, n),
        Err(refusal) => put_refused(out, 0, u32::from(refusal)),
    }
}

// What is printed when the input that the reader has read has ended: the words that were being read are stored, and the lines' words are looked up.
fn answer(
    r: Reader,
    settings: &mut [u32],
    first: &mut [u32],
    second: &mut [u32],
    query: &mut [u32],
    out: &mut [u8; 64],
) -> usize
    ensures fact { let words = left_words settings.old r.settings in
        let m1 = left_words first.old r.first in
        let m2 = left_words second.old r.second in
        let asked = left_words query.old r.query in
        Written out.old 0 (ended_fan_out words m1 m2 asked) out.new result }
    ensures counts { IsPrefixLen result out.new }
    ensures stored { (settings.new ≡ ended_words r.settings settings.old)
        × (first.new ≡ ended_words r.first first.old)
        × (second.new ≡ ended_words r.second second.old)
        × (query.new ≡ ended_words r.query query.old) }
{
    let a = line_words(r.settings, settings);
    let b = line_words(r.first, first);
    let c = line_words(r.second, second);
    let d = line_words(r.query, query);
    let found = look_up(&settings[..a], &first[..b], &second[..c], &query[..d]);
    put_found(out, found)
}

// What is printed of the input, at the start of `out`.
fn printed<R: Read>(input: &mut R, out: &mut [u8; 64]) -> usize
    ensures prints { Prints out.old out.new result }
    ensures bytes { IfSome (R.remaining input.old) (λ xs. PrintsOf xs out.old out.new result) }
    ensures counts { IsPrefixLen result out.new }
{
    let mut settings = [0u32; SETTINGS_WORDS];
    let mut first = [0u32; MACHINE_WORDS];
    let mut second = [0u32; MACHINE_WORDS];
    let mut query = [0u32; QUERY_WORDS];
    let r = read_lines(input, 4, &mut settings, &mut first, &mut second, &mut query);
    answer(r, &mut settings, &mut first, &mut second, &mut query, out)
}

fn main(rt: HostRuntime) -> std::io::Result<()> {
    let mut out = [0u8; 64];
    let n = printed(&mut rt.reader(), &mut out);
    rt.write_all(&out[..n])
}
