// A memo of the facts of lists, for one machine: the entry of state s stands at place s mod 1024 and says of which state it is.
ghost use Rattle.std.specs.Prelude.{◌≡◌, true, ◌+◌, ◌*◌, ◌<◌, ◌^◌};
ghost use Rattle.lists.specs.Lists.{put};
ghost use Rattle.words.specs.Weights.{kind_of};
ghost use Rattle.words.specs.Machines.{state_count, well_formed};
ghost use Rattle.fst.specs.Meaning.{on_of};
ghost use Rattle.list_facts.specs.Facts.{TrueOf};
ghost use Rattle.list_facts.specs.Memo.{entries, entry_words, packed_of, entry_at, entry_of, Remembers, asked_for};

use crate::{ListFacts, list_facts};
use fst::{MatchType, StateId};

// The words of an entry: state + 1 (0: no entry), length, 2 * epsilons + consecutive, largest weight, longest run.
const ENTRY_WORDS: usize = 5;

const ENTRIES: u32 = 1024;

pub const MEMO_WORDS: usize = 5120;

// The facts that entry c holds.
#[tactic(auto, unfolding(crate::specs::Memo::entry_at))]
fn recalled(memo: &[u32; MEMO_WORDS], c: u32) -> ListFacts
    requires { c < entries }
    ensures { result ≡ entry_at memo.now c }
{
    let at = ENTRY_WORDS * (c as usize);
    let e = memo[at + 2];
    ListFacts {
        len: memo[at + 1],
        eps: e / 2,
        straight: e % 2 == 1,
        most: memo[at + 3],
        run: memo[at + 4],
    }
}

// Two facts in one word.
fn packed(eps: u32, straight: bool) -> u32
    requires { 2 * eps + 1 < 2 ^ 32 }
    ensures { result ≡ packed_of eps straight }
{
    if straight { 2 * eps + 1 } else { 2 * eps }
}

// Entry c is that of state s, with its facts.
#[tactic(auto, using(crate::proofs::Entries::five_words))]
fn remember(memo: &mut [u32; MEMO_WORDS], c: u32, s: StateId, told: ListFacts)
    requires { (c < entries) × (s.0 + 1 < 2 ^ 32) × (2 * told.eps + 1 < 2 ^ 32) }
    ensures { memo.new ≡ put memo.old (entry_words * c) (entry_of s.0 told) }
{
    let at = ENTRY_WORDS * (c as usize);
    memo[at] = s.0 + 1;
    memo[at + 1] = told.len;
    memo[at + 2] = packed(told.eps, told.straight);
    memo[at + 3] = told.most;
    memo[at + 4] = told.run;
}

// The facts of the list of state s: as remembered, else told now and remembered.
#[tactic(auto, using(words::proofs::FormLaws::form, crate::proofs::FactLaws::eps_few, crate::proofs::FactLaws::len_few, crate::proofs::Entries::now_remembered))]
pub fn remembered(
    m: &[u32],
    on: MatchType,
    kind: u32,
    memo: &mut [u32; MEMO_WORDS],
    s: StateId,
) -> ListFacts
    requires { (well_formed m.now ≡ true) × (s.0 < state_count m.now) × Remembers (on_of on) (kind_of kind) m.now memo.old }
    ensures true_of { TrueOf (on_of on) (kind_of kind) m.now s.0 result }
    ensures remembers { Remembers (on_of on) (kind_of kind) m.now memo.new }
    ensures memo_after { memo.new ≡ asked_for memo.old s.0 result }
{
    let c = s.0 % ENTRIES;
    let key = s.0 + 1;
    if memo[ENTRY_WORDS * (c as usize)] == key {
        return recalled(memo, c);
    }
    let told = list_facts(m, on, kind, s);
    remember(memo, c, s, told);
    told
}
