// "It opens, runs, then takes final weights in number order; the first refusal n prints `refused n` and nothing more."
ghost use Rattle.std.specs.Prelude.{◌≡◌, ◌≤◌, length};
ghost use Rattle.calls.specs.Listing.{printed, listed as listed_of, no_session};
ghost use Rattle.calls.specs.Checks.{Passes};
ghost use Rattle.calls.specs.Calls.{run_of};
ghost use Rattle.session_checks.specs.Meaning.{settings_means};
ghost use Rattle.store_records.specs.Meaning.{memory_of};
ghost use Rattle.lazy_fst.specs.Meaning.{lent_with, session_means};
ghost use Rattle.listing_text.specs.Printing.{bytes_of};
ghost use Rattle.listing_write.specs.Written.{Written};
ghost use Rattle.listing.specs.Stages.{lines_from, Room, Sized, FewLines, ran_of, opened_of, opened_memory};

use crate::lines::put_listing;
use final_weights::take_weights;
use lazy_fst::{AllowedLists, Session};
use listing_write::put_refused;
use session_checks::Settings;
use store_records::Used;

// The session that the opening gets, unread.
pub fn no_session(settings: Settings) -> Session
    ensures { session_means result ≡ no_session (settings_means settings) }
{
    Session {
        settings,
        side: 0,
        used: Used { states: 0, trs: 0 },
    }
}

// Opens, and goes on.
#[tactic(auto, unfolding(crate::specs::Stages::opened_of, crate::specs::Stages::opened_memory))]
pub fn open_listing(
    settings: Settings,
    m1: &[u32],
    m2: &[u32],
    allowed1: &[u32],
    allowed2: &[u32],
    ignored: &[u32],
    listed: AllowedLists,
    heads: &mut [u32],
    states: &mut [u32],
    trs: &mut [u32],
    out: &mut [u8],
) -> usize
    requires { Sized states.old trs.old out.old }
    ensures fact { let l = lent_with m1.now m2.now allowed1.now allowed2.now ignored.now listed in
        let m = memory_of heads.old states.old trs.old in
        Written out.old 0 (bytes_of (printed (opened_of (settings_means settings) l (no_session (settings_means settings)) m))) out.new result }
    ensures counts { result ≤ length out.new }
    ensures memory { let l = lent_with m1.now m2.now allowed1.now allowed2.now ignored.now listed in
        let m = memory_of heads.old states.old trs.old in
        let m' = memory_of heads.new states.new trs.new in
        m' ≡ opened_memory (settings_means settings) l (no_session (settings_means settings)) m }
{
    let got = no_session(settings);
    let answer = got.open(
        settings, m1, m2, allowed1, allowed2, ignored, listed, heads, states, trs,
    );
    match answer {
        Ok(session) => run_listing(
            session, m1, m2, allowed1, allowed2, ignored, listed, heads, states, trs, out,
        ),
        Err((refusal, _)) => put_refused(out, 0, u32::from(refusal)),
    }
}

// Runs, and goes on.
#[tactic(auto, unfolding(crate::specs::Stages::ran_of))]
fn run_listing(
    session: Session,
    m1: &[u32],
    m2: &[u32],
    allowed1: &[u32],
    allowed2: &[u32],
    ignored: &[u32],
    listed: AllowedLists,
    heads: &mut [u32],
    states: &mut [u32],
    trs: &mut [u32],
    out: &mut [u8],
) -> usize
    requires sized { Sized states.old trs.old out.old }
    requires few { let l = lent_with m1.now m2.now allowed1.now allowed2.now ignored.now listed in
        FewLines l (session_means session) (memory_of heads.old states.old trs.old) }
    ensures fact { let l = lent_with m1.now m2.now allowed1.now allowed2.now ignored.now listed in
        let m = memory_of heads.old states.old trs.old in
        Written out.old 0 (bytes_of (printed (ran_of l (session_means session) m))) out.new result }
    ensures counts { result ≤ length out.new }
    ensures memory { let l = lent_with m1.now m2.now allowed1.now allowed2.now ignored.now listed in
        let m = memory_of heads.old states.old trs.old in
        let m' = memory_of heads.new states.new trs.new in
        m' ≡ (run_of l (session_means session) m).memory }
{
    let answer = session.run(
        m1, m2, allowed1, allowed2, ignored, listed, heads, states, trs,
    );
    match answer {
        Ok(next) => weigh_listing(
            next, m1, m2, allowed1, allowed2, ignored, listed, heads, states, trs, out,
        ),
        Err((refusal, _)) => put_refused(out, 0, u32::from(refusal)),
    }
}

// Takes all final weights, and only then puts a line. After the run the checks 1 to 8 pass: they are not made again.
fn weigh_listing(
    session: Session,
    m1: &[u32],
    m2: &[u32],
    allowed1: &[u32],
    allowed2: &[u32],
    ignored: &[u32],
    listed: AllowedLists,
    heads: &[u32],
    states: &[u32],
    trs: &[u32],
    out: &mut [u8],
) -> usize
    requires fact { let l = lent_with m1.now m2.now allowed1.now allowed2.now ignored.now listed in
        let m = memory_of heads.now states.now trs.now in
        Room out.old 128 (length (lines_from l (session_means session) m 0 session.used.states)) }
    requires passes { let l = lent_with m1.now m2.now allowed1.now allowed2.now ignored.now listed in
        Passes l (session_means session) (memory_of heads.now states.now trs.now) }
    ensures fact_2 { let l = lent_with m1.now m2.now allowed1.now allowed2.now ignored.now listed in
        let m = memory_of heads.now states.now trs.now in
        Written out.old 0 (bytes_of (printed (listed_of l (session_means session) m))) out.new result }
    ensures counts { result ≤ length out.new }
{
    let weights = take_weights(
        session, m1, m2, allowed1, allowed2, ignored, listed, heads, states, trs,
    );
    match weights {
        Ok(()) => put_listing(
            session, m1, m2, allowed1, allowed2, ignored, listed, heads, states, trs, out,
        ),
        Err(refusal) => put_refused(out, 0, u32::from(refusal)),
    }
}
