// The library for C: what `include/rinkolza.h` declares. Each function has the clauses of the function of `rinkolza` that has its name, and calls it.
#![tactic(auto)]

mod fan_out;
mod trusted;

ghost use Rattle.std.specs.Prelude.{◌≡◌, []};
ghost use Rattle.store_records.specs.Meaning.{memory_of};
ghost use Rattle.rinkolza.specs.Exported.{lent_words, leaves, open_words, expand_words, final_weight_words, run_words, records_words};

// Opens a session with six settings.
#[unsafe(no_mangle)]
pub extern "C" fn rinkolza_open(
    settings: &[u32],
    session: &mut [u32],
    m1: &[u32],
    m2: &[u32],
    allowed1: &[u32],
    has1: u32,
    allowed2: &[u32],
    has2: u32,
    ignored: &[u32],
    heads: &mut [u32],
    states: &mut [u32],
    trs: &mut [u32],
) -> u32
    ensures { let l = lent_words m1.now m2.now allowed1.now has1 allowed2.now has2 ignored.now in
        let m = memory_of heads.old states.old trs.old in
        let m' = memory_of heads.new states.new trs.new in
        leaves result session.new [] m' ≡ open_words settings.now l session.old m }
{
    rinkolza::rinkolza_open(
        settings, session, m1, m2, allowed1, has1, allowed2, has2, ignored, heads, states, trs,
    )
}

// Expands state n.
#[unsafe(no_mangle)]
pub extern "C" fn rinkolza_expand(
    session: &mut [u32],
    m1: &[u32],
    m2: &[u32],
    allowed1: &[u32],
    has1: u32,
    allowed2: &[u32],
    has2: u32,
    ignored: &[u32],
    heads: &mut [u32],
    states: &mut [u32],
    trs: &mut [u32],
    n: u32,
    answer: &mut [u32],
) -> u32
    ensures { let l = lent_words m1.now m2.now allowed1.now has1 allowed2.now has2 ignored.now in
        let m = memory_of heads.old states.old trs.old in
        let m' = memory_of heads.new states.new trs.new in
        leaves result session.new answer.new m' ≡ expand_words l session.old answer.old m n }
{
    rinkolza::rinkolza_expand(
        session, m1, m2, allowed1, has1, allowed2, has2, ignored, heads, states, trs, n, answer,
    )
}

// The final weight of state n.
#[unsafe(no_mangle)]
pub extern "C" fn rinkolza_final_weight(
    session: &[u32],
    m1: &[u32],
    m2: &[u32],
    allowed1: &[u32],
    has1: u32,
    allowed2: &[u32],
    has2: u32,
    ignored: &[u32],
    heads: &[u32],
    states: &[u32],
    trs: &[u32],
    n: u32,
    answer: &mut [u32],
) -> u32
    ensures { let l = lent_words m1.now m2.now allowed1.now has1 allowed2.now has2 ignored.now in
        let m = memory_of heads.now states.now trs.now in
        leaves result session.now answer.new m ≡ final_weight_words l session.now answer.old m n }
{
    rinkolza::rinkolza_final_weight(
        session, m1, m2, allowed1, has1, allowed2, has2, ignored, heads, states, trs, n, answer,
    )
}

// Expands in number order until none is left or one is refused.
#[unsafe(no_mangle)]
pub extern "C" fn rinkolza_run(
    session: &mut [u32],
    m1: &[u32],
    m2: &[u32],
    allowed1: &[u32],
    has1: u32,
    allowed2: &[u32],
    has2: u32,
    ignored: &[u32],
    heads: &mut [u32],
    states: &mut [u32],
    trs: &mut [u32],
) -> u32
    ensures { let l = lent_words m1.now m2.now allowed1.now has1 allowed2.now has2 ignored.now in
        let m = memory_of heads.old states.old trs.old in
        let m' = memory_of heads.new states.new trs.new in
        leaves result session.new [] m' ≡ run_words l session.old m }
{
    rinkolza::rinkolza_run(
        session, m1, m2, allowed1, has1, allowed2, has2, ignored, heads, states, trs,
    )
}

// The first and the count of an expanded state's records; no number.
#[unsafe(no_mangle)]
pub extern "C" fn rinkolza_records(
    session: &[u32],
    m1: &[u32],
    m2: &[u32],
    allowed1: &[u32],
    has1: u32,
    allowed2: &[u32],
    has2: u32,
    ignored: &[u32],
    heads: &[u32],
    states: &[u32],
    trs: &[u32],
    n: u32,
    answer: &mut [u32],
)
    ensures { let l = lent_words m1.now m2.now allowed1.now has1 allowed2.now has2 ignored.now in
        let m = memory_of heads.now states.now trs.now in
        answer.new ≡ records_words l session.now answer.old m n }
{
    rinkolza::rinkolza_records(
        session, m1, m2, allowed1, has1, allowed2, has2, ignored, heads, states, trs, n, answer,
    );
}
