// Lists of calls. A line's code, and its words:
// 1 the lengths of heads, states and transitions, and the word that fills them: a list begins; 2, 3 the words of machine 1, 2; 4, 5 whether machine 1, 2 has an allowed list, and the list;
// 6 a session, its nine words; 7 a slice from 0 to 2, an index, a word: written to memory; 8 open, the six settings; 9 expand; 10 final weight; 11 run; 12 records; 13 memory is printed;
// 14 the fan-out of a look-up, the six settings, a machine, a state and a label; 15 the ignored labels, none where a list has no such line.
ghost use Rattle.std.specs.Prelude.{◌≡◌};
ghost use Rattle.call_lists.specs.Lines.{next_line, list_end};

use crate::lines::{Span, after, arg, args, first, words_of};
use crate::show;
use fan_out_call::fan_out;
use fst::{Label, StateId};
use lazy_fst::{AllowedLists, Session};
use session_checks::Settings;
use store_records::{Used, store};

// What is lent at every call.
#[derive(Clone, Copy)]
struct Lending {
    m1: Span,
    m2: Span,
    allowed1: Span,
    allowed2: Span,
    listed: AllowedLists,
    ignored: Span,
}

fn nothing() -> Lending {
    let none = Span { at: 0, count: 0 };
    Lending {
        m1: none,
        m2: none,
        allowed1: none,
        allowed2: none,
        listed: AllowedLists {
            first: false,
            second: false,
        },
        ignored: none,
    }
}

// Codes 2 to 5 and 15.
fn lend(words: &[u32], at: u32, before: Lending) -> Lending {
    match arg(words, at, 0) {
        2 => Lending {
            m1: args(words, at, 1),
            ..before
        },
        3 => Lending {
            m2: args(words, at, 1),
            ..before
        },
        4 => Lending {
            allowed1: args(words, at, 2),
            listed: AllowedLists {
                first: arg(words, at, 1) == 1,
                ..before.listed
            },
            ..before
        },
        5 => Lending {
            allowed2: args(words, at, 2),
            listed: AllowedLists {
                second: arg(words, at, 1) == 1,
                ..before.listed
            },
            ..before
        },
        15 => Lending {
            ignored: args(words, at, 1),
            ..before
        },
        _ => before,
    }
}

fn settings_at(words: &[u32], at: u32) -> Settings {
    Settings {
        kind: arg(words, at, 1),
        filter: arg(words, at, 2),
        sigma1: Label(arg(words, at, 3)),
        mode1: arg(words, at, 4),
        sigma2: Label(arg(words, at, 5)),
        mode2: arg(words, at, 6),
    }
}

fn session_at(words: &[u32], at: u32) -> Session {
    Session {
        settings: settings_at(words, at),
        side: arg(words, at, 7),
        used: Used {
            states: arg(words, at, 8),
            trs: arg(words, at, 9),
        },
    }
}

fn open(
    words: &[u32],
    at: u32,
    l: Lending,
    session: Session,
    heads: &mut [u32],
    states: &mut [u32],
    trs: &mut [u32],
) -> Session {
    io::write_all(1, b"o");
    let m1 = words_of(words, l.m1);
    let m2 = words_of(words, l.m2);
    let a1 = words_of(words, l.allowed1);
    let a2 = words_of(words, l.allowed2);
    let ignored = words_of(words, l.ignored);
    let settings = settings_at(words, at);
    show::answer(session.open(
        settings, m1, m2, a1, a2, ignored, l.listed, heads, states, trs,
    ))
}

fn expand(
    words: &[u32],
    l: Lending,
    session: Session,
    heads: &mut [u32],
    states: &mut [u32],
    trs: &mut [u32],
    n: StateId,
) -> Session {
    io::write_all(1, b"e");
    let m1 = words_of(words, l.m1);
    let m2 = words_of(words, l.m2);
    let a1 = words_of(words, l.allowed1);
    let a2 = words_of(words, l.allowed2);
    let ignored = words_of(words, l.ignored);
    show::part(session.expand(m1, m2, a1, a2, ignored, l.listed, heads, states, trs, n))
}

fn final_weight(
    words: &[u32],
    l: Lending,
    session: Session,
    heads: &[u32],
    states: &[u32],
    trs: &[u32],
    n: StateId,
) -> Session {
    io::write_all(1, b"f");
    let m1 = words_of(words, l.m1);
    let m2 = words_of(words, l.m2);
    let a1 = words_of(words, l.allowed1);
    let a2 = words_of(words, l.allowed2);
    let ignored = words_of(words, l.ignored);
    show::weight(session.final_weight(m1, m2, a1, a2, ignored, l.listed, heads, states, trs, n))
}

fn run(
    words: &[u32],
    l: Lending,
    session: Session,
    heads: &mut [u32],
    states: &mut [u32],
    trs: &mut [u32],
) -> Session {
    io::write_all(1, b"r");
    let m1 = words_of(words, l.m1);
    let m2 = words_of(words, l.m2);
    let a1 = words_of(words, l.allowed1);
    let a2 = words_of(words, l.allowed2);
    let ignored = words_of(words, l.ignored);
    show::answer(session.run(m1, m2, a1, a2, ignored, l.listed, heads, states, trs))
}

fn records(
    words: &[u32],
    l: Lending,
    session: Session,
    heads: &[u32],
    states: &[u32],
    trs: &[u32],
    n: StateId,
) -> Session {
    io::write_all(1, b"p");
    let m1 = words_of(words, l.m1);
    let m2 = words_of(words, l.m2);
    let a1 = words_of(words, l.allowed1);
    let a2 = words_of(words, l.allowed2);
    let ignored = words_of(words, l.ignored);
    show::words(session.records(m1, m2, a1, a2, ignored, l.listed, heads, states, trs, n));
    session
}

// Takes no session and no memory.
fn look_up(words: &[u32], at: u32, l: Lending) {
    io::write_all(1, b"c");
    let m1 = words_of(words, l.m1);
    let m2 = words_of(words, l.m2);
    let a1 = words_of(words, l.allowed1);
    let a2 = words_of(words, l.allowed2);
    let ignored = words_of(words, l.ignored);
    let settings = settings_at(words, at);
    let machine = arg(words, at, 7);
    let s = StateId(arg(words, at, 8));
    let label = Label(arg(words, at, 9));
    show::count(fan_out(
        settings, m1, m2, a1, a2, ignored, l.listed, machine, s, label,
    ));
}

// Codes 8 to 12 and 14: a call, and what it answers. The session that it hands back; records and fan-outs hand none back, and the given one stays the latest.
fn call(
    words: &[u32],
    at: u32,
    l: Lending,
    session: Session,
    heads: &mut [u32],
    states: &mut [u32],
    trs: &mut [u32],
) -> Session {
    let code = arg(words, at, 0);
    let n = StateId(arg(words, at, 1));
    match code {
        8 => open(words, at, l, session, heads, states, trs),
        9 => expand(words, l, session, heads, states, trs, n),
        10 => final_weight(words, l, session, heads, states, trs, n),
        11 => run(words, l, session, heads, states, trs),
        14 => {
            look_up(words, at, l);
            session
        }
        _ => records(words, l, session, heads, states, trs, n),
    }
}

// Code 7.
fn damage(words: &[u32], at: u32, heads: &mut [u32], states: &mut [u32], trs: &mut [u32]) {
    let which = arg(words, at, 1);
    let i = arg(words, at, 2) as usize;
    let w = arg(words, at, 3);
    match which {
        0 => store(heads, i, w),
        1 => store(states, i, w),
        _ => store(trs, i, w),
    }
}

// Codes 6 to 14; the others lend. Answers the latest session.
fn step(
    words: &[u32],
    at: u32,
    l: Lending,
    session: Session,
    heads: &mut [u32],
    states: &mut [u32],
    trs: &mut [u32],
) -> Session {
    match arg(words, at, 0) {
        6 => session_at(words, at),
        7 => {
            damage(words, at, heads, states, trs);
            session
        }
        8..=12 | 14 => {
            let latest = call(words, at, l, session, heads, states, trs);
            show::left(latest, heads, states, trs);
            latest
        }
        13 => {
            show::memory(heads, states, trs);
            session
        }
        _ => session,
    }
}

// So many lines of a list are read.
const LINES: u32 = 1024;

// The lines from a place on, up to the first line of the next list. Answers where that stands.
#[tactic(auto, using(crate::proofs::ListEnd::no_line, crate::proofs::ListEnd::end_here, crate::proofs::ListEnd::line_on))]
fn steps(words: &[u32], at: u32, heads: &mut [u32], states: &mut [u32], trs: &mut [u32]) -> u32
    ensures { result ≡ list_end words.now 1024 at }
{
    let mut place = at;
    let mut lending = nothing();
    let mut session = session_at(words, u32::MAX);
    for _ in 0..LINES {
        if arg(words, place, 0) < 2 {
            return place;
        }
        lending = lend(words, place, lending);
        session = step(words, place, lending, session, heads, states, trs);
        place = after(words, place);
    }
    place
}

// The first line of a list, and the lines after it.
fn list_on(words: &[u32], at: u32, heads: &mut [u32], states: &mut [u32], trs: &mut [u32]) -> u32
    ensures { result ≡ list_end words.now 1024 (next_line words.now at) }
{
    let w = arg(words, at, 4);
    heads.fill(w);
    states.fill(w);
    trs.fill(w);
    steps(words, after(words, at), heads, states, trs)
}

// The list that begins at a place. Answers where the next one stands.
pub fn one_list(words: &[u32], at: u32) -> u32
    ensures { result ≡ list_end words.now 1024 (next_line words.now at) }
{
    let mut heads = [0u32; 16];
    let mut states = [0u32; 128];
    let mut trs = [0u32; 128];
    list_on(
        words,
        at,
        first(&mut heads, arg(words, at, 1)),
        first(&mut states, arg(words, at, 2)),
        first(&mut trs, arg(words, at, 3)),
    )
}
