// Reads lines of decimal words, each with the count of its words first, makes the calls that they name and prints what each answers. drive.rt says what a line means.
#![tactic(auto)]

mod drive;
mod lines;
mod show;

use drive::one_list;
use lines::read_words;

fn main() {
    let mut text = [0u8; 131072];
    let n = io::read_full(0, &mut text);
    let mut words = [0u32; 49152];
    read_words(&text[..n], &mut words);
    let mut at: u32 = 0;
    for _ in 0..1024 {
        at = one_list(&words, at);
    }
}
