// The two kinds of weight (semirings/semiring.rs): one, zero, times. Kind 0 is cost, any other number count.
#![tactic(auto)]

ghost use Rattle.std.specs.Prelude.{◌≡◌};
ghost use Rattle.words.specs.Weights.{cost, count, kind_of, one as one_of, zero_of, is_zero, times as timesOf};

const MAX: u32 = u32::MAX;

pub fn one(kind: u32) -> u32
    ensures { result ≡ one_of (kind_of kind) }
{
    if kind == 0 { 0 } else { 1 }
}

pub fn zero(kind: u32) -> u32
    ensures { result ≡ zero_of (kind_of kind) }
{
    if kind == 0 { MAX } else { 0 }
}

pub fn is_zero(kind: u32, w: u32) -> bool
    ensures { result ≡ is_zero (kind_of kind) w }
{
    w == zero(kind)
}

// The sum of two costs, if it is not too large. MAX absorbs before a sum can be.
fn times_cost(a: u32, b: u32) -> Option<u32>
    ensures { result ≡ timesOf cost a b }
{
    if a == MAX || b == MAX {
        return Some(MAX);
    }
    let sum = a.checked_add(b)?;
    if sum < MAX { Some(sum) } else { None }
}

// The product of two counts, if it is not too large.
fn times_count(a: u32, b: u32) -> Option<u32>
    ensures { result ≡ timesOf count a b }
{
    a.checked_mul(b)
}

// The product of two weights; none: it is too large.
pub fn times(kind: u32, a: u32, b: u32) -> Option<u32>
    ensures { result ≡ timesOf (kind_of kind) a b }
{
    if kind == 0 {
        times_cost(a, b)
    } else {
        times_count(a, b)
    }
}
