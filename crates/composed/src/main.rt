// Reads settings and two machines, a line each, and prints the composed machine, or `refused n` and nothing more.
#![tactic(auto)]

ghost use Rattle.std.specs.Prelude.{IfSome};
ghost use Rattle.io.specs.Counts.{IsPrefixLen};
ghost use Rattle.composed.specs.Prints.{Prints, PrintsOf};

use listing::answer;
use listing_input::read_lines;
use listing_read::{MACHINE_WORDS, QUERY_WORDS};
use session_checks::SETTINGS_WORDS;
use std::io::Read;

// What is printed of the input, at the start of `out`. A fourth line plays no part.
fn composed<R: Read>(input: &mut R, out: &mut [u8; 131200]) -> usize
    ensures prints { Prints out.old out.new result }
    ensures bytes { IfSome (R.remaining input.old) (λ xs. PrintsOf xs out.old out.new result) }
    ensures counts { IsPrefixLen result out.new }
{
    let mut settings = [0u32; SETTINGS_WORDS];
    let mut first = [0u32; MACHINE_WORDS];
    let mut second = [0u32; MACHINE_WORDS];
    let mut query = [0u32; QUERY_WORDS];
    let r = read_lines(input, 3, &mut settings, &mut first, &mut second, &mut query);
    answer(r, &mut settings, &mut first, &mut second, out)
}

fn main(rt: HostRuntime) -> std::io::Result<()> {
    let mut out = [0u8; 131200];
    let n = composed(&mut rt.reader(), &mut out);
    rt.write_all(&out[..n])
}
