// The fan-out of a look-up for C.
ghost use Rattle.std.specs.Prelude.{◌≡◌};
ghost use Rattle.rinkolza.specs.Exported.{lent_words};
ghost use Rattle.rinkolza.specs.FanOutWords.{count_left, fan_out_words};

// How many matches a label has at a state of machine 1 or 2.
#[unsafe(no_mangle)]
pub extern "C" fn rinkolza_fan_out(
    settings: &[u32],
    m1: &[u32],
    m2: &[u32],
    allowed1: &[u32],
    has1: u32,
    allowed2: &[u32],
    has2: u32,
    ignored: &[u32],
    machine: u32,
    state: u32,
    label: u32,
    answer: &mut [u32],
) -> u32
    ensures { let l = lent_words m1.now m2.now allowed1.now has1 allowed2.now has2 ignored.now in
        count_left result answer.new ≡ fan_out_words settings.now l machine state label answer.old }
{
    rinkolza::fan_out::rinkolza_fan_out(
        settings, m1, m2, allowed1, has1, allowed2, has2, ignored, machine, state, label, answer,
    )
}
