// One step of the search for useful states, depth first from state 0. A status is 0: not seen; 4: not seen and final; 1: open; 2: alive; 3: dead.
#![tactic(auto)]

ghost use Rattle.std.specs.Prelude.{◌≡◌, List, ℕ, ◌-◌};
ghost use Rattle.calls.specs.Store.{target_at};
ghost use Rattle.store_records.specs.Meaning.{stored};
ghost use Rattle.searches.specs.UsefulSearch.{place_in, on_white, on_final, on_dead, on_open, on_alive, state_at, back, killed, on_end, by_status, step_of, start_of};
ghost use Rattle.searches.specs.StoreLinks.{links_of};
ghost use Rattle.useful_steps.specs.Meaning.{place_means, found_means};

use store_links::{below, first_record, next_record, target_record};
use useful_marks::{enter_state, merge_frames, open_state, settle_open};
use work_words::{high_of, low_of, middle_of, up_of};

// Where the search is: depth, state, record of its list (0: past the last), open states, frames.
#[derive(Clone, Copy)]
pub struct Place {
    pub d: u32,
    pub s: u32,
    pub r: u32,
    pub o: u32,
    pub b: u32,
}

// Where a step leads, and whether the search is done.
#[derive(Clone, Copy)]
pub struct Found {
    pub at: Place,
    pub done: bool,
}

// Record p.r leads to a state t that is not seen.
#[tactic(auto, unfolding(searches::specs::UsefulSearch::on_white))]
fn on_white(states: &[u32], used: u32, work: &mut [u64], p: Place, t: u32) -> Found
    ensures { (heads trs : List ℕ) (u : ℕ) →
        t ≡ target_at trs (p.r - 1) →
        found_means result work.new ≡ on_white (links_of (stored heads states.now trs u used)) work.old (place_means p) }
{
    enter_state(work, p.d, p.r, t, p.o, p.b);
    let at = Place {
        d: up_of(p.d),
        s: t,
        r: first_record(states, used, t),
        o: up_of(p.o),
        b: up_of(p.b),
    };
    Found { at, done: false }
}

// The same where t is final: every open state is alive.
#[tactic(auto, unfolding(searches::specs::UsefulSearch::on_final))]
fn on_final(states: &[u32], used: u32, work: &mut [u64], p: Place, t: u32) -> Found
    ensures { (heads trs : List ℕ) (u : ℕ) →
        t ≡ target_at trs (p.r - 1) →
        found_means result work.new ≡ on_final (links_of (stored heads states.now trs u used)) work.old (place_means p) }
{
    enter_state(work, p.d, p.r, t, p.o, p.b);
    settle_open(work, 0, up_of(p.o), 2);
    let at = Place {
        d: up_of(p.d),
        s: t,
        r: first_record(states, used, t),
        o: 0,
        b: 0,
    };
    Found { at, done: false }
}

// It leads to a dead state.
#[tactic(auto, unfolding(searches::specs::UsefulSearch::on_dead))]
fn on_dead(trs: &[u32], used: u32, p: Place) -> Found
    ensures { (heads states w : List ℕ) (u : ℕ) →
        found_means result w ≡ on_dead (links_of (stored heads states trs.now u used)) w (place_means p) }
{
    let at = Place {
        r: next_record(trs, used, p.r),
        ..p
    };
    Found { at, done: false }
}

// It leads to an open state t.
#[tactic(auto, unfolding(searches::specs::UsefulSearch::on_open))]
fn on_open(trs: &[u32], used: u32, work: &[u64], p: Place, t: u32) -> Found
    ensures { (heads states : List ℕ) (u : ℕ) →
        t ≡ target_at trs.now (p.r - 1) →
        found_means result work.now ≡ on_open (links_of (stored heads states trs.now u used)) work.now (place_means p) }
{
    let place = low_of(work, 2 * (t as usize) + 1);
    let at = Place {
        r: next_record(trs, used, p.r),
        b: merge_frames(work, p.b, place),
        ..p
    };
    Found { at, done: false }
}

// It leads to a state that is alive: so is every open one, if p.s is open.
#[tactic(auto, unfolding(searches::specs::UsefulSearch::on_alive))]
fn on_alive(trs: &[u32], used: u32, work: &mut [u64], p: Place) -> Found
    ensures { (heads states : List ℕ) (u : ℕ) →
        found_means result work.new ≡ on_alive (links_of (stored heads states trs.now u used)) work.old (place_means p) }
{
    if high_of(work, 2 * (p.s as usize)) != 1 {
        return on_dead(trs, used, p);
    }
    settle_open(work, 0, p.o, 2);
    let at = Place {
        r: next_record(trs, used, p.r),
        o: 0,
        b: 0,
        ..p
    };
    Found { at, done: false }
}

// The state of the path at depth d.
#[tactic(auto, using(crate::proofs::StepLaws::state_on), unfolding(searches::specs::UsefulSearch::state_at))]
fn state_at(trs: &[u32], work: &[u64], d: u32) -> u32
    ensures { (heads states : List ℕ) (u used : ℕ) →
        result ≡ state_at (links_of (stored heads states trs.now u used)) work.now d }
{
    if d == 0 {
        return 0;
    }
    let k = d - 1;
    target_record(trs, low_of(work, 2 * (k as usize)))
}

// One step back along the path.
#[tactic(auto, using(crate::proofs::StepLaws::back_on), unfolding(searches::specs::UsefulSearch::back))]
fn step_back(trs: &[u32], used: u32, work: &[u64], p: Place) -> Found
    ensures { (heads states : List ℕ) (u : ℕ) →
        found_means result work.now ≡ back (links_of (stored heads states trs.now u used)) work.now (place_means p) p.d }
{
    if p.d == 0 {
        return Found { at: p, done: true };
    }
    let k = p.d - 1;
    let r = low_of(work, 2 * (k as usize));
    let at = Place {
        d: k,
        s: state_at(trs, work, k),
        r: next_record(trs, used, r),
        ..p
    };
    Found { at, done: false }
}

// No final state is reached from the open states from the place of p.s on: they are dead, and the last frame is gone.
#[tactic(auto, unfolding(searches::specs::UsefulSearch::killed))]
fn killed(trs: &[u32], used: u32, work: &mut [u64], p: Place, place: u32) -> Found
    ensures { (heads states : List ℕ) (u : ℕ) →
        place ≡ place_in work.old p.s →
        found_means result work.new ≡ killed (links_of (stored heads states trs.now u used)) work.old (place_means p) }
{
    settle_open(work, place, p.o, 3);
    let left = Place {
        o: place,
        b: below(p.b),
        ..p
    };
    step_back(trs, used, work, left)
}

// The list of p.s is at its end.
#[tactic(auto, unfolding(searches::specs::UsefulSearch::on_end))]
fn on_end(trs: &[u32], used: u32, work: &mut [u64], p: Place) -> Found
    ensures { (heads states : List ℕ) (u : ℕ) →
        found_means result work.new ≡ on_end (links_of (stored heads states trs.now u used)) work.old (place_means p) }
{
    let i = 2 * (p.s as usize);
    let place = low_of(work, i + 1);
    let top = below(p.b) as usize;
    if high_of(work, i) != 1 || place != middle_of(work, 2 * top + 1) {
        return step_back(trs, used, work, p);
    }
    killed(trs, used, work, p, place)
}

// Record p.r leads to state t, whose status is v.
#[tactic(auto, unfolding(searches::specs::UsefulSearch::by_status))]
fn by_status(
    states: &[u32],
    trs: &[u32],
    used: u32,
    work: &mut [u64],
    p: Place,
    t: u32,
    v: u32,
) -> Found
    ensures { (heads : List ℕ) (u : ℕ) →
        t ≡ target_at trs.now (p.r - 1) →
        found_means result work.new ≡ by_status (links_of (stored heads states.now trs.now u used)) work.old (place_means p) v }
{
    match v {
        0 => on_white(states, used, work, p, t),
        4 => on_final(states, used, work, p, t),
        1 => on_open(trs, used, work, p, t),
        2 => on_alive(trs, used, work, p),
        _ => on_dead(trs, used, p),
    }
}

#[tactic(auto, unfolding(searches::specs::UsefulSearch::step_of))]
pub fn step(states: &[u32], trs: &[u32], used: u32, work: &mut [u64], p: Place) -> Found
    ensures { (heads : List ℕ) (u : ℕ) →
        found_means result work.new ≡ step_of (links_of (stored heads states.now trs.now u used)) work.old (place_means p) }
{
    if p.r == 0 {
        return on_end(trs, used, work, p);
    }
    let t = target_record(trs, p.r);
    let v = high_of(work, 2 * (t as usize));
    by_status(states, trs, used, work, p, t, v)
}

// State 0 is entered first.
#[tactic(auto, unfolding(searches::specs::UsefulSearch::start_of))]
pub fn start(states: &[u32], used: u32, work: &mut [u64]) -> Found
    ensures { (heads trs : List ℕ) (u : ℕ) →
        found_means result work.new ≡ start_of (links_of (stored heads states.now trs u used)) work.old }
{
    let v = high_of(work, 0);
    let r = first_record(states, used, 0);
    open_state(work, 0, 0, 0);
    if v == 4 {
        settle_open(work, 0, 1, 2);
        let at = Place {
            d: 0,
            s: 0,
            r,
            o: 0,
            b: 0,
        };
        return Found { at, done: false };
    }
    let at = Place {
        d: 0,
        s: 0,
        r,
        o: 1,
        b: 1,
    };
    Found { at, done: false }
}
