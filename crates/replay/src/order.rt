// Expansions in any order: the side; for each number `e n` and its transitions, or the refusal; at the end the found states and the counts.
ghost use Rattle.std.specs.Prelude.{◌/◌, ◌<◌, ◌≤◌, length};
ghost use Rattle.calls.specs.Store.{tr_size};

use crate::cases::STDOUT;
use compose_state_tuple::ComposeStateTuple;
use final_weights::found;
use fst::{Refusal, StateId};
use lazy_fst::{AllowedLists, Session, WeightAnswer};
use listing::{HEADS, STATE_WORDS, TR_WORDS, no_session};
use listing_write::{put_end, put_refused, put_side, put_state, put_tr};
use session_checks::{SETTINGS_WORDS, Settings, read_settings};
use store_records::{TR_SIZE, get_tuple, stored_tr};

// The first n bytes of a line.
fn show(line: &[u8], n: usize) {
    if n <= line.len() {
        io::write_all(STDOUT, &line[0..n]);
    }
}

fn print_refused(line: &mut [u8], refusal: Refusal)
    requires { 64 ≤ length line.old }
{
    let n = put_refused(line, 0, u32::from(refusal));
    show(line, n);
}

fn print_tr(line: &mut [u8], records: &[u32], i: usize)
    requires { (64 ≤ length line.old) × (i < length records.now / tr_size) }
{
    let tr = stored_tr(records, i);
    let n = put_tr(line, 0, tr.ilabel.0, tr.olabel.0, tr.weight, tr.nextstate.0);
    show(line, n);
}

fn print_records(line: &mut [u8], records: &[u32])
    requires { 64 ≤ length line.old }
{
    for i in 0..records.len() / TR_SIZE {
        print_tr(line, records, i);
    }
}

// `s`, with `refused 12` in the place of a final weight that is refused.
fn print_state(line: &mut [u8], n: u32, tuple: ComposeStateTuple, weight: WeightAnswer)
    requires { 64 ≤ length line.old }
{
    let ComposeStateTuple { s1, s2, fs } = tuple;
    match weight {
        Ok((w, _)) => {
            let k = put_state(line, 0, n, s1.0, s2.0, fs, w);
            show(line, k);
        }
        Err((refusal, _)) => {
            let k = put_state(line, 0, n, s1.0, s2.0, fs, None);
            show(line, k.saturating_sub(2));
            print_refused(line, refusal);
        }
    }
}

// An accepted expansion, and the records as they are then handed back.
fn print_expanded(
    session: Session,
    m1: &[u32],
    m2: &[u32],
    allowed1: &[u32],
    allowed2: &[u32],
    ignored: &[u32],
    listed: AllowedLists,
    heads: &[u32],
    states: &[u32],
    trs: &[u32],
    line: &mut [u8],
    n: u32,
)
    requires { 64 ≤ length line.old }
{
    io::write_all(STDOUT, b"e ");
    io::print_decimal(STDOUT, n as u64);
    io::write_all(STDOUT, b"\n");
    let s = StateId(n);
    let records = session.records(
        m1, m2, allowed1, allowed2, ignored, listed, heads, states, trs, s,
    );
    print_records(line, records);
}

// One expansion.
fn expand(
    session: Session,
    m1: &[u32],
    m2: &[u32],
    allowed1: &[u32],
    allowed2: &[u32],
    ignored: &[u32],
    listed: AllowedLists,
    heads: &mut [u32],
    states: &mut [u32],
    trs: &mut [u32],
    line: &mut [u8],
    n: u32,
) -> Session
    requires { 64 ≤ length line.old }
{
    let s = StateId(n);
    let answer = session.expand(
        m1, m2, allowed1, allowed2, ignored, listed, heads, states, trs, s,
    );
    match answer {
        Err((refusal, next)) => {
            print_refused(line, refusal);
            next
        }
        Ok((_, next)) => {
            print_expanded(
                next, m1, m2, allowed1, allowed2, ignored, listed, heads, states, trs, line, n,
            );
            next
        }
    }
}

// The expansions.
fn expand_all(
    opened: Session,
    order: &[u32],
    m1: &[u32],
    m2: &[u32],
    allowed1: &[u32],
    allowed2: &[u32],
    ignored: &[u32],
    listed: AllowedLists,
    heads: &mut [u32],
    states: &mut [u32],
    trs: &mut [u32],
    line: &mut [u8],
) -> Session
    requires { 64 ≤ length line.old }
{
    let mut session = opened;
    for n in order {
        session = expand(
            session, m1, m2, allowed1, allowed2, ignored, listed, heads, states, trs, line, *n,
        );
    }
    session
}

// The found states.
fn print_states(
    session: Session,
    m1: &[u32],
    m2: &[u32],
    allowed1: &[u32],
    allowed2: &[u32],
    ignored: &[u32],
    listed: AllowedLists,
    heads: &[u32],
    states: &[u32],
    trs: &[u32],
    line: &mut [u8],
)
    requires { 64 ≤ length line.old }
{
    for n in 0..found(session) {
        let s = StateId(n);
        let weight = session.final_weight(
            m1, m2, allowed1, allowed2, ignored, listed, heads, states, trs, s,
        );
        print_state(line, n, get_tuple(states, s), weight);
    }
}

fn print_side(line: &mut [u8], side: u32)
    requires { 64 ≤ length line.old }
{
    let n = put_side(line, 0, side);
    show(line, n);
}

fn print_end(line: &mut [u8], states: u32, trs: u32)
    requires { 64 ≤ length line.old }
{
    let n = put_end(line, 0, states, trs);
    show(line, n);
}

// An accepted opening: the side, the expansions, the found states, the counts.
fn print_opened(
    session: Session,
    order: &[u32],
    m1: &[u32],
    m2: &[u32],
    allowed1: &[u32],
    allowed2: &[u32],
    ignored: &[u32],
    listed: AllowedLists,
    heads: &mut [u32],
    states: &mut [u32],
    trs: &mut [u32],
    line: &mut [u8],
)
    requires { 64 ≤ length line.old }
{
    print_side(line, session.side);
    let last = expand_all(
        session, order, m1, m2, allowed1, allowed2, ignored, listed, heads, states, trs, line,
    );
    print_states(
        last, m1, m2, allowed1, allowed2, ignored, listed, heads, states, trs, line,
    );
    print_end(line, last.used.states, last.used.trs);
}

// The expansions of a case, in lent memory.
fn print_in(
    order: &[u32],
    settings: Settings,
    m1: &[u32],
    m2: &[u32],
    allowed1: &[u32],
    allowed2: &[u32],
    ignored: &[u32],
    listed: AllowedLists,
    heads: &mut [u32],
    states: &mut [u32],
    trs: &mut [u32],
    line: &mut [u8],
)
    requires { 64 ≤ length line.old }
{
    let got = no_session(settings);
    let answer = got.open(
        settings, m1, m2, allowed1, allowed2, ignored, listed, heads, states, trs,
    );
    match answer {
        Err((refusal, _)) => print_refused(line, refusal),
        Ok(session) => print_opened(
            session, order, m1, m2, allowed1, allowed2, ignored, listed, heads, states, trs, line,
        ),
    }
}

// The expansions of a case, in memory of the listing's size.
pub fn print_order(
    order: &[u32],
    words: &[u32],
    m1: &[u32],
    m2: &[u32],
    allowed1: &[u32],
    allowed2: &[u32],
    ignored: &[u32],
    listed: AllowedLists,
) {
    let mut line = [0u8; 64];
    if words.len() != SETTINGS_WORDS {
        print_refused(&mut line, Refusal::Settings);
        return;
    }
    let mut heads = [0u32; HEADS];
    let mut states = [0u32; STATE_WORDS];
    let mut trs = [0u32; TR_WORDS];
    print_in(
        order,
        read_settings(words),
        m1,
        m2,
        allowed1,
        allowed2,
        ignored,
        listed,
        &mut heads,
        &mut states,
        &mut trs,
        &mut line,
    );
}
