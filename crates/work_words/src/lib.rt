// A 64-bit work word as three fields, of 24, 24 and 16 bits; a work slice of any length.
#![tactic(auto)]

ghost use Rattle.std.specs.Prelude.{◌≡◌, ◌<◌, get_or, set, replicate};
ghost use Rattle.lists.specs.Lists.{put};
ghost use Rattle.searches.specs.WorkWords.{low, middle, high, with_low, with_middle, with_high, up};

// One more than the largest value of the low and of the middle field.
const FIELD: u64 = 16777216;

// The same for the two together.
const TWO_FIELDS: u64 = 281474976710656;

pub fn word64(s: &[u64], i: usize) -> u64
    ensures { result ≡ get_or s.now i 0 }
{
    if i < s.len() { s[i] } else { 0 }
}

// A word written; nothing past the end.
pub fn store64(s: &mut [u64], i: usize, v: u64)
    ensures { s.new ≡ set s.old i v }
{
    if i < s.len() {
        s[i] = v;
    }
}

#[tactic(auto, unfolding(searches::specs::WorkWords::low))]
pub fn low_of(work: &[u64], i: usize) -> u32
    ensures { result ≡ low (get_or work.now i 0) }
{
    (word64(work, i) % FIELD) as u32
}

#[tactic(auto, unfolding(searches::specs::WorkWords::middle))]
pub fn middle_of(work: &[u64], i: usize) -> u32
    ensures { result ≡ middle (get_or work.now i 0) }
{
    (word64(work, i) / FIELD % FIELD) as u32
}

#[tactic(auto, unfolding(searches::specs::WorkWords::high))]
pub fn high_of(work: &[u64], i: usize) -> u32
    ensures { (result ≡ high (get_or work.now i 0)) × (result < 65536) }
{
    (word64(work, i) / FIELD / FIELD) as u32
}

// A field written, its value cut to the field; the other two stay.
#[tactic(auto, using(crate::proofs::FieldLaws::low_changed), unfolding(searches::specs::WorkWords::with_low))]
pub fn set_low(work: &mut [u64], i: usize, v: u32)
    ensures { work.new ≡ with_low work.old i v }
{
    let w = word64(work, i);
    let cut = v as u64 % FIELD;
    store64(work, i, cut + FIELD * (w / FIELD));
}

#[tactic(auto, using(crate::proofs::FieldLaws::middle_changed), unfolding(searches::specs::WorkWords::with_middle))]
pub fn set_middle(work: &mut [u64], i: usize, v: u32)
    ensures { work.new ≡ with_middle work.old i v }
{
    let w = word64(work, i);
    let cut = v as u64 % FIELD;
    store64(
        work,
        i,
        w % FIELD + FIELD * (cut + FIELD * (w / FIELD / FIELD)),
    );
}

#[tactic(auto, using(crate::proofs::FieldLaws::high_changed), unfolding(searches::specs::WorkWords::with_high))]
pub fn set_high(work: &mut [u64], i: usize, v: u32)
    requires { v < 65536 }
    ensures { work.new ≡ with_high work.old i v }
{
    let w = word64(work, i);
    let hi = v as u64;
    store64(work, i, w % TWO_FIELDS + TWO_FIELDS * hi);
}

// A counter that stops at the field's width.
#[tactic(auto, using(crate::proofs::FieldLaws::up_below, crate::proofs::FieldLaws::up_not))]
pub fn up_of(x: u32) -> u32
    ensures { result ≡ up x }
{
    if x < 16777216 { x + 1 } else { x }
}

// The first words made 0; nothing past the end.
pub fn clear(work: &mut [u64], count: usize)
    ensures { work.new ≡ put work.old 0 (replicate count 0) }
{
    let end = count.min(work.len());
    work[..end].fill(0);
}
