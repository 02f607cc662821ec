// The look-up of a label in a list in which no label falls: a binary search where the records are consecutive, else a scan that stops at the first larger label.
#![tactic(auto)]

ghost use Rattle.std.specs.Prelude.{◌≡◌, true, ◌+◌, ◌*◌, ◌<◌, length};
ghost use Rattle.words.specs.Labels.{eps_label};
ghost use Rattle.words.specs.Machines.{tr_words};
ghost use Rattle.fst.specs.Meaning.{on_of};
ghost use Rattle.matchers.specs.Cursors.{with_label, head0};
ghost use Rattle.sorted_lists.specs.Seeks.{NoFalls, Sought};
ghost use Rattle.sorted_lists.specs.Known.{Known};

use fst::{Label, MatchType, TR_WORDS};
use fst_reads::{next_at, word_at, word_on};

// A state's list, with what is known of it.
#[derive(Clone, Copy)]
pub struct SortedList {
    // The side on which it is looked up.
    pub on: MatchType,
    // Where record 0 of the machine would begin.
    pub base: usize,
    // Its first record; 0: it is empty.
    pub first: u32,
    pub len: u32,
    // Its epsilons, which come first.
    pub eps: u32,
    // Its records are consecutive.
    pub straight: bool,
}

// The place of the first of `count` records, in steps of a record's words from `from` on, whose label is not below x; the place after them: none.
fn seek(m: &[u32], from: usize, count: u32, x: u32) -> usize
    requires { (from + tr_words * count < length m.now + tr_words) × NoFalls m.now from count }
    ensures { Sought m.now from count x result }
{
    let mut p = from;
    let mut n = count as usize;
    while n > 0 {
        let half = n / 2;
        let mid = p + TR_WORDS * half;
        if m[mid] < x {
            p = mid + TR_WORDS;
            n = n - half - 1;
        } else {
            n = half;
        }
    }
    p
}

// The first record with the label x, where the records are consecutive; 0: none. The epsilons are passed over.
fn find_straight(m: &[u32], l: SortedList, x: Label) -> u32
    requires { Known m.now l × (eps_label < x.0) × (l.straight ≡ true) }
    ensures { result ≡ head0 (with_label (on_of l.on) m.now x.0 l.first) }
{
    let zero = l.base + word_on(l.on);
    let from = zero + TR_WORDS * ((l.first + l.eps) as usize);
    let count = l.len - l.eps;
    let p = seek(m, from, count, x.0);
    if p == from + TR_WORDS * count as usize || m[p] != x.0 {
        return 0;
    }
    ((p - zero) / TR_WORDS) as u32
}

// The same along any links.
fn scan(m: &[u32], l: SortedList, x: Label) -> u32
    requires { Known m.now l }
    ensures { result ≡ head0 (with_label (on_of l.on) m.now x.0 l.first) }
{
    let k = word_on(l.on);
    let mut u = l.first;
    while u != 0 {
        let y = word_at(m, l.base, u, k);
        if x.0 < y {
            return 0;
        }
        if y == x.0 {
            return u;
        }
        u = next_at(m, l.base, u);
    }
    0
}

// The first record with the label x, which is no epsilon; 0: none.
pub fn find(m: &[u32], l: SortedList, x: Label) -> u32
    requires { Known m.now l × (eps_label < x.0) }
    ensures { result ≡ head0 (with_label (on_of l.on) m.now x.0 l.first) }
{
    if l.straight {
        return find_straight(m, l, x);
    }
    scan(m, l, x)
}
