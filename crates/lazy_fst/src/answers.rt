// Between a session and the composition below it: the composition's settings, and the answers with the session in them.
ghost use Rattle.std.specs.Prelude.{◌≡◌, List, ℕ};
ghost use Rattle.words.specs.Labels.{and_then, good};
ghost use Rattle.words.specs.Steps.{final_at};
ghost use Rattle.calls.specs.Store.{Memory, triple_at};
ghost use Rattle.calls.specs.Calls.{settle, unchanged};
ghost use Rattle.compose_fst_op.specs.Composing.{composition_for};
ghost use Rattle.compose_fst_op.specs.declared.ComposeFstOpOptions.{ComposeFstOpOptions as Options};
ghost use Rattle.compose_store.specs.Meaning.{session_under, left_by};
ghost use Rattle.compose_run.specs.Meaning.{ran_left};
ghost use Rattle.fst.specs.Meaning.{on_of, ignored_under};
ghost use Rattle.store_records.specs.Meaning.{memory_of};
ghost use Rattle.lazy_fst.specs.Meaning.{session_means, options_with, sigma_mark, options_of, left, part_left, weight_left};

use crate::{AllowedLists, Answer, PartAnswer, Session, WeightAnswer};
use compose_fst_op::{ComposeFstOpOptions, compute_final_weight};
use compose_run::Ran;
use compose_store::Expansion;
use fst::{Label, Machines, Matched, NO_LABEL, Sigmas, StateId};
use fst_properties::inner_acceptor_mark;
use match_type::Side;
use matchers::Sigma;
use session_checks::Settings;
use store_records::get_tuple;

// The settings of the composition that a call goes on with, with the acceptor marks of the two machines.
pub fn options_with(
    settings: Settings,
    listed: AllowedLists,
    side: Side,
    acceptor1: u32,
    acceptor2: u32,
) -> ComposeFstOpOptions
    ensures { result ≡ options_with settings listed side acceptor1 acceptor2 }
{
    ComposeFstOpOptions {
        kind: settings.kind,
        filter: settings.filter,
        side,
        sigma1: Sigma {
            label: settings.sigma1,
            mode: settings.mode1,
            listed: listed.first,
            acceptor: acceptor1,
        },
        sigma2: Sigma {
            label: settings.sigma2,
            mode: settings.mode2,
            listed: listed.second,
            acceptor: acceptor2,
        },
    }
}

// The acceptor mark as it is read, where it plays a part: with a sigma label, under mode 0. Else 0. Where labels are ignored, all records are looked at: so this is asked once in a call.
#[tactic(auto, unfolding(crate::specs::Meaning::sigma_mark))]
fn sigma_mark(m: Matched<'_>, label: Label, mode: u32) -> u32
    ensures { let m = m.entry in
        result ≡ sigma_mark (on_of m.on) (ignored_under m.sigmas m.ignored.now) m.words.now label.0 mode }
{
    if label == NO_LABEL || mode != 0 {
        return 0;
    }
    inner_acceptor_mark(m)
}

// The same with the marks that the lent machines have.
pub fn options_of(
    settings: Settings,
    listed: AllowedLists,
    side: Side,
    m1: &[u32],
    m2: &[u32],
    ignored: &[u32],
) -> ComposeFstOpOptions
    ensures { result ≡ options_of settings listed side m1.now m2.now ignored.now }
{
    let machines = Machines {
        m1,
        m2,
        sigmas: Sigmas {
            first: settings.sigma1,
            second: settings.sigma2,
        },
        ignored,
    };
    let acceptor1 = sigma_mark(machines.first(), settings.sigma1, settings.mode1);
    let acceptor2 = sigma_mark(machines.second(), settings.sigma2, settings.mode2);
    options_with(settings, listed, side, acceptor1, acceptor2)
}

// The final weight of state n, with the session as it came. Inlined, so that a caller who takes many does not copy it for each.
#[inline(always)]
pub fn final_of(
    session: Session,
    options: ComposeFstOpOptions,
    m1: &[u32],
    m2: &[u32],
    states: &[u32],
    n: StateId,
) -> WeightAnswer
    ensures { (a1 a2 ignored heads trs : List ℕ) →
        let m = memory_of heads states.now trs in
        let c = composition_for options m1.now m2.now a1 a2 ignored in
        weight_left result m
        ≡ settle (session_means session) m (and_then (final_at c (triple_at states.now n.0)) (λ w. good (unchanged (session_means session) m w))) }
{
    let answered = compute_final_weight(m1, m2, options, get_tuple(states, n));
    let weight = answered.map_err(|refusal| (refusal, session))?;
    Ok((weight, session))
}

// An expansion with the session that goes on; refused, the one that was given.
pub fn part_answer(session: Session, expanded: Expansion) -> PartAnswer
    ensures { (o : Options) (m : Memory) → session_means session ≡ session_under o session.used
        → part_left result m ≡ left_by o session.used m expanded }
{
    match expanded {
        Ok((part, used)) => Ok((part, Session { used, ..session })),
        Err(refusal) => Err((refusal, session)),
    }
}

// A run with the session that goes on; refused at a state, the one of the expansions kept.
pub fn run_answer(session: Session, ran: Ran) -> Answer
    ensures { (o : Options) (m : Memory) → session_means session ≡ session_under o session.used → left result m ≡ ran_left o m ran }
{
    match ran {
        Ok(used) => Ok(Session { used, ..session }),
        Err((refusal, kept)) => Err((
            refusal,
            Session {
                used: kept,
                ..session
            },
        )),
    }
}
