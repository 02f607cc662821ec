// Many cases, one after the other. A case has seven lines:
// 1 `-` for the whole listing, or state numbers, which are expanded in this order; 2 the settings; 3, 4 the allowed lists of machine 1 and 2, `-` for no list; 5 the ignored labels; 6, 7 the machines.
// The answer to a case ends in a line `--`. A line has room for 4096 words; for line 1, 3 and 4, any line that is not of words stands for `-`, and for line 5 for an empty one.
#![tactic(auto)]

mod cases;
mod order;

use cases::{LINES, WORDS, finish, new_place, read_bytes};
use std::io::Read;

// Reads to the end of the input, chunk by chunk, and answers each case as its last line ends.
fn read_cases<R: Read>(
    input: &mut R,
    words: &mut [u32],
    ends: &mut [Option<usize>],
    chunk: &mut [u8],
) {
    let mut place = new_place();
    for _ in 0..u64::MAX {
        let n = input.read(chunk).unwrap_or(0);
        if n == 0 {
            finish(place, words, ends);
            return;
        }
        place = read_bytes(place, &chunk[..n], words, ends);
    }
}

fn main(rt: HostRuntime) {
    let mut words = [0u32; WORDS];
    let mut ends = [Some(0); LINES];
    let mut chunk = io::large_buffer();
    read_cases(&mut rt.reader(), &mut words, &mut ends, &mut chunk);
}
