// The calls for C without their checks 1 to 8, for a caller that owns its memory.
ghost use Rattle.std.specs.Prelude.{◌≡◌, true};
ghost use Rattle.words.specs.Matches.{inputs, outputs};
ghost use Rattle.calls.specs.Checks.{Passes};
ghost use Rattle.store_records.specs.Meaning.{memory_of};
ghost use Rattle.rinkolza.specs.Exported.{session_at, nine, lent_words, leaves, expand_words, final_weight_words, records_words};
ghost use Rattle.rinkolza.specs.Trusted.{piece_words, final_weights_words, Memos, expand_memo, piece_memo};

use list_facts::MEMO_WORDS;

// Expands state n.
#[unsafe(no_mangle)]
pub extern "C" fn rinkolza_trusted_expand(
    session: &mut [u32],
    m1: &[u32],
    m2: &[u32],
    allowed1: &[u32],
    has1: u32,
    allowed2: &[u32],
    has2: u32,
    ignored: &[u32],
    heads: &mut [u32],
    states: &mut [u32],
    trs: &mut [u32],
    memo1: &mut [u32; MEMO_WORDS],
    memo2: &mut [u32; MEMO_WORDS],
    n: u32,
    answer: &mut [u32],
) -> u32
    requires { let l = lent_words m1.now m2.now allowed1.now has1 allowed2.now has2 ignored.now in
        (nine session.old ≡ true → Passes l (session_at session.old) (memory_of heads.old states.old trs.old))
        × Memos l session.old memo1.old memo2.old }
    ensures m_after { let l = lent_words m1.now m2.now allowed1.now has1 allowed2.now has2 ignored.now in
        let m = memory_of heads.old states.old trs.old in
        let m' = memory_of heads.new states.new trs.new in
        leaves result session.new answer.new m' ≡ expand_words l session.old answer.old m n }
    ensures asked { let l = lent_words m1.now m2.now allowed1.now has1 allowed2.now has2 ignored.now in
        let m = memory_of heads.old states.old trs.old in
        (memo1.new ≡ expand_memo outputs l session.old answer.old m n memo1.old)
        × (memo2.new ≡ expand_memo inputs l session.old answer.old m n memo2.old) }
    ensures remembered { let l = lent_words m1.now m2.now allowed1.now has1 allowed2.now has2 ignored.now in
        Memos l session.old memo1.new memo2.new }
{
    rinkolza::trusted::rinkolza_trusted_expand(
        session, m1, m2, allowed1, has1, allowed2, has2, ignored, heads, states, trs, memo1, memo2,
        n, answer,
    )
}

// The final weight of state n.
#[unsafe(no_mangle)]
pub extern "C" fn rinkolza_trusted_final_weight(
    session: &[u32],
    m1: &[u32],
    m2: &[u32],
    allowed1: &[u32],
    has1: u32,
    allowed2: &[u32],
    has2: u32,
    ignored: &[u32],
    heads: &[u32],
    states: &[u32],
    trs: &[u32],
    n: u32,
    answer: &mut [u32],
) -> u32
    requires { let l = lent_words m1.now m2.now allowed1.now has1 allowed2.now has2 ignored.now in
        nine session.now ≡ true → Passes l (session_at session.now) (memory_of heads.now states.now trs.now) }
    ensures { let l = lent_words m1.now m2.now allowed1.now has1 allowed2.now has2 ignored.now in
        let m = memory_of heads.now states.now trs.now in
        leaves result session.now answer.new m ≡ final_weight_words l session.now answer.old m n }
{
    rinkolza::trusted::rinkolza_trusted_final_weight(
        session, m1, m2, allowed1, has1, allowed2, has2, ignored, heads, states, trs, n, answer,
    )
}

// The final weights of all found states, two words for each in number order.
#[unsafe(no_mangle)]
pub extern "C" fn rinkolza_trusted_final_weights(
    session: &[u32],
    m1: &[u32],
    m2: &[u32],
    allowed1: &[u32],
    has1: u32,
    allowed2: &[u32],
    has2: u32,
    ignored: &[u32],
    heads: &[u32],
    states: &[u32],
    trs: &[u32],
    answer: &mut [u32],
) -> u32
    requires { let l = lent_words m1.now m2.now allowed1.now has1 allowed2.now has2 ignored.now in
        nine session.now ≡ true → Passes l (session_at session.now) (memory_of heads.now states.now trs.now) }
    ensures { let l = lent_words m1.now m2.now allowed1.now has1 allowed2.now has2 ignored.now in
        let m = memory_of heads.now states.now trs.now in
        leaves result session.now answer.new m ≡ final_weights_words l session.now answer.old m }
{
    rinkolza::trusted::rinkolza_trusted_final_weights(
        session, m1, m2, allowed1, has1, allowed2, has2, ignored, heads, states, trs, answer,
    )
}

// A piece of a run: from state n on, in number order, at most k states, until none is left or one is refused.
#[unsafe(no_mangle)]
pub extern "C" fn rinkolza_trusted_run(
    session: &mut [u32],
    m1: &[u32],
    m2: &[u32],
    allowed1: &[u32],
    has1: u32,
    allowed2: &[u32],
    has2: u32,
    ignored: &[u32],
    heads: &mut [u32],
    states: &mut [u32],
    trs: &mut [u32],
    memo1: &mut [u32; MEMO_WORDS],
    memo2: &mut [u32; MEMO_WORDS],
    n: u32,
    k: u32,
    answer: &mut [u32],
) -> u32
    requires { let l = lent_words m1.now m2.now allowed1.now has1 allowed2.now has2 ignored.now in
        (nine session.old ≡ true → Passes l (session_at session.old) (memory_of heads.old states.old trs.old))
        × Memos l session.old memo1.old memo2.old }
    ensures m_after { let l = lent_words m1.now m2.now allowed1.now has1 allowed2.now has2 ignored.now in
        let m = memory_of heads.old states.old trs.old in
        let m' = memory_of heads.new states.new trs.new in
        leaves result session.new answer.new m' ≡ piece_words l session.old answer.old m n k }
    ensures asked { let l = lent_words m1.now m2.now allowed1.now has1 allowed2.now has2 ignored.now in
        let m = memory_of heads.old states.old trs.old in
        (memo1.new ≡ piece_memo outputs l session.old answer.old m n k memo1.old)
        × (memo2.new ≡ piece_memo inputs l session.old answer.old m n k memo2.old) }
    ensures remembered { let l = lent_words m1.now m2.now allowed1.now has1 allowed2.now has2 ignored.now in
        Memos l session.old memo1.new memo2.new }
{
    rinkolza::trusted::rinkolza_trusted_run(
        session, m1, m2, allowed1, has1, allowed2, has2, ignored, heads, states, trs, memo1, memo2,
        n, k, answer,
    )
}

// The first and the count of an expanded state's records; no number.
#[unsafe(no_mangle)]
pub extern "C" fn rinkolza_trusted_records(
    session: &[u32],
    m1: &[u32],
    m2: &[u32],
    allowed1: &[u32],
    has1: u32,
    allowed2: &[u32],
    has2: u32,
    ignored: &[u32],
    heads: &[u32],
    states: &[u32],
    trs: &[u32],
    n: u32,
    answer: &mut [u32],
)
    requires { let l = lent_words m1.now m2.now allowed1.now has1 allowed2.now has2 ignored.now in
        nine session.now ≡ true → Passes l (session_at session.now) (memory_of heads.now states.now trs.now) }
    ensures { let l = lent_words m1.now m2.now allowed1.now has1 allowed2.now has2 ignored.now in
        let m = memory_of heads.now states.now trs.now in
        answer.new ≡ records_words l session.now answer.old m n }
{
    rinkolza::trusted::rinkolza_trusted_records(
        session, m1, m2, allowed1, has1, allowed2, has2, ignored, heads, states, trs, n, answer,
    );
}
