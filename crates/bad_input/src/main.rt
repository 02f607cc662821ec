// Runs each public function of the leaves on words that are no machine, and on one machine; prints what it answers.
// Lines: p, what holds in fact; h, the header; s, a state; r, a record; f, the filters' facts; m, the side; w, weights; c, cells of the table.
#![tactic(auto)]

mod show;

use show::{cells, machine, weights};

const MAX: u32 = u32::MAX;

// Slices that are too short for what their header says, or for a header.
fn short() {
    let words = [MAX, MAX, 1, 1, 1, 1];
    machine(&words[..0]);
    machine(&words[..1]);
    machine(&words[..2]);
    machine(&words);
    let lie = [0u32, 1, 0, 0, 0, 0];
    machine(&lie);
    let all = [MAX; 30];
    machine(&all);
}

// A machine of 25 words, and the same cut short.
fn cut() {
    let good = [
        3u32, 2, 1, 0, 0, 0, 1, 0, 0, 2, 0, 0, 0, 1, 0, 1, 0, 1, 1, 0, 2, 5, 2, 2, 0,
    ];
    machine(&good);
    machine(&good[..24]);
    machine(&good[..18]);
}

// The same with a count of states that lies.
fn lying_states() {
    let many = [
        MAX, 2, 1, 0, 0, 0, 1, 0, 0, 2, 0, 0, 0, 1, 0, 1, 0, 1, 1, 0, 2, 5, 2, 2, 0,
    ];
    machine(&many);
}

// The same with a count of records that lies.
fn lying_records() {
    let many = [
        3, MAX, 1, 0, 0, 0, 1, 0, 0, 2, 0, 0, 0, 1, 0, 1, 0, 1, 1, 0, 2, 5, 2, 2, 0,
    ];
    machine(&many);
}

// One state whose list goes wrong: a next that is its own number, one that falls, one outside; a first outside; a target outside; labels MAX.
fn links() {
    let own = [1u32, 2, 1, 1, 1, 0, 1, 1, 0, 0, 0, 4, 0, 1, 2, 2, 5, 0, 0];
    machine(&own);
    let back = [1u32, 2, 1, 1, 1, 0, 1, 1, 0, 0, 0, 4, 0, 2, 2, 2, 5, 0, 1];
    machine(&back);
    let outside = [1u32, 2, 1, 1, 1, 0, 1, 1, 0, 0, 0, 4, 0, 3, 2, 2, 5, 0, MAX];
    machine(&outside);
    let first = [1u32, 2, 1, 1, 1, 0, 3, 1, 0, 0, 0, 4, 0, 2, 2, 2, 5, 0, 0];
    machine(&first);
    let target = [1u32, 2, 1, 1, 1, 0, 1, 1, 0, 0, 0, 4, MAX, 2, 2, 2, 5, 1, 0];
    machine(&target);
    let label = [
        1u32, 2, 1, 1, 1, 0, 1, 1, 0, 0, 0, 4, 0, 2, MAX, MAX, 5, 0, 0,
    ];
    machine(&label);
}

// Two machines whose marks are true although a record falls against its next: it stands in no list. In the second the lists share a tail.
fn unlisted() {
    let alone = [1u32, 2, 1, 1, 1, 0, 2, 1, 0, 5, 6, 4, 0, 2, 2, 2, 5, 0, 0];
    machine(&alone);
    let shared = [
        2u32, 3, 1, 1, 2, 0, 2, 1, 0, 3, 0, 0, 9, 9, 4, 0, 3, 1, 2, 4, 0, 3, 1, 1, 5, 1, 0,
    ];
    machine(&shared);
}

// Two lists that share a tail: the second, walked after the first, falls where it meets it.
fn joint() {
    let falls = [
        2u32, 3, 1, 2, 2, 0, 2, 1, 0, 1, 0, 0, 9, 9, 4, 0, 2, 1, 2, 4, 0, 3, 5, 1, 5, 1, 0,
    ];
    machine(&falls);
}

// One state with marks, a start or a finality that is false or out of range.
fn marks() {
    let sorted = [1u32, 2, 1, 2, 0, 0, 1, 1, 0, 1, 1, 4, 0, 2, 2, 2, 5, 0, 0];
    machine(&sorted);
    let falls = [1u32, 2, 1, 0, 1, 0, 1, 1, 0, 2, 2, 4, 0, 2, 1, 1, 5, 0, 0];
    machine(&falls);
    let range = [1u32, 2, 1, 3, 0, 0, 1, 1, 0, 1, 1, 4, 0, 2, 2, 2, 5, 0, 0];
    machine(&range);
    let differs = [1u32, 2, 1, 0, 0, 1, 1, 1, 0, 1, 1, 4, 0, 2, 2, 3, 5, 0, 0];
    machine(&differs);
    let start = [1u32, 2, 2, 0, 0, 0, 1, 1, 0, 1, 1, 4, 0, 2, 2, 2, 5, 0, 0];
    machine(&start);
    let finality = [1u32, 2, 1, 0, 0, 0, 1, 2, 0, 1, 1, 4, 0, 2, 2, 2, 5, 0, 0];
    machine(&finality);
    let weight = [1u32, 2, 1, 0, 0, 0, 1, 0, 7, 1, 1, 4, 0, 2, 2, 2, 5, 0, 0];
    machine(&weight);
}

fn main() {
    short();
    cut();
    lying_states();
    lying_records();
    links();
    unlisted();
    joint();
    marks();
    for kind in [0, 1, MAX] {
        weights(kind);
    }
    for filter in [0, 1, 2, 3, 4, 5, MAX] {
        cells(filter);
    }
}
