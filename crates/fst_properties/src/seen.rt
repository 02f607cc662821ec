// The records that were walked, in 65536 bits: 8 KiB, which a small stack holds. Of up to 65535 records each has a bit, of more every second, every
// third and so on, at the limit every 256th; a record between is never seen.
ghost use Rattle.std.specs.Prelude.{◌≡◌};
ghost use Rattle.fst_properties.specs.Seen.{bit_of, seen_in, seen_with};

// How many bits there are, and the words that hold them.
const SEEN: u32 = 65536;

pub const SEEN_WORDS: usize = 2048;

// The number of record t's bit, of n records; SEEN where it has none.
#[tactic(auto, unfolding(crate::specs::Seen::bit_of, crate::specs::Seen::step_of))]
fn bit_of(n: u32, t: u32) -> u32
    ensures { result ≡ bit_of n t }
{
    let k = n / SEEN + 1;
    if t % k == 0 { t / k } else { SEEN }
}

// Whether record t was walked, of n records.
#[tactic(auto, unfolding(crate::specs::Seen::seen_in, crate::specs::Seen::bit_in))]
pub fn is_seen(seen: &[u32; SEEN_WORDS], n: u32, t: u32) -> bool
    ensures { result ≡ seen_in n seen.now t }
{
    let i = bit_of(n, t);
    i < SEEN && (seen[(i / 32) as usize] >> (i % 32)) % 2 == 1
}

// Record t was walked, of n records.
#[tactic(auto, unfolding(crate::specs::Seen::seen_with, crate::specs::Seen::bit_with), using(crate::proofs::Bits::shifted))]
pub fn see(seen: &mut [u32; SEEN_WORDS], n: u32, t: u32)
    ensures { seen.new ≡ seen_with n seen.old t }
{
    let bit = bit_of(n, t);
    if bit < SEEN {
        seen[(bit / 32) as usize] |= 1 << (bit % 32);
    }
}
