// Arbitration: the settling of the competing cards, and the grant. (A width of at most 6, a card that waits, and a winner below 64 are what `arbitrate_in` and the
// settling found. No type keeps them, since an event takes every state: it would be made and taken apart at each call.)
ghost use Rattle.std.specs.Prelude.{◌%◌, ◌^◌, ◌≤◌, ◌<◌, not, MatchOption, Ok, ◌≡◌};
ghost use Rattle.arbiter.specs.Arbitrate.{arbitrated, some_preferred, value_now, won_by};
ghost use Rattle.arbiter.specs.Outcome.{as_outcome};
ghost use Rattle.lines.specs.Settled.{as_settled};

use super::Reported;
use super::marks::won_bus;
use super::sets::inhibit;
use contest::{settling_of, some_first};
use lines::Settling;
use refusals::Refusal;
use rules::{clear_inhibitions, grow_counts, renew_batch, some_loser_full, span};
use state::RackState;

// The outcome where w wins with these settled lines: refused where a loser's count is full. Else w stops waiting, its count becomes 0, it leaves the
// batch, is the last winner, and holds a free bus or is elected.
fn won(s: &mut RackState, anew: bool, w: u8, t: Settling) -> Result<Reported, Refusal>
    requires { ((w < 64) × ((s.old.table.k ≤ 6) × (0 < s.old.waiters)))
        × ((anew ≡ not (some_preferred s.old)) × (t.lines ≡ value_now s.old)) }
    ensures { as_outcome s.new result ≡ won_by s.old w (as_settled (Ok t)) }
{
    let rule = s.table.rule;
    if some_loser_full(s.table.k, rule, &s.waiting, &s.counts, w) {
        return Err(Refusal::FullLoser);
    }
    renew_batch(rule, anew, &s.waiting, &mut s.batch);
    clear_inhibitions(rule, anew, &mut s.inhibited);
    let i = usize::from(w);
    s.waiting[i] = false;
    s.counts[i] = 0;
    s.batch[i] = false;
    inhibit(rule, &mut s.inhibited, w);
    s.last = w;
    s.bus = won_bus(s.bus, w);
    s.waiters -= 1;
    s.value = t.lines;
    grow_counts(rule, &s.waiting, &mut s.counts);
    Ok(Reported {
        winner: w,
        lines: t.lines,
        stages: t.stages,
        matches: t.matches,
    })
}

// The card that settled lines name: their value modulo 2 ^ k, where that is not 0, which is no card's number.
#[tactic(auto, using(rules::proofs::Laws::span_of_lem))]
fn card_named(k: u8, lines: u16) -> Option<u8>
    requires { k ≤ 6 }
    ensures { MatchOption result (lines % 2 ^ k ≡ 0) (λ w. (w ≡ lines % 2 ^ k) × ((0 < w) × (w < 64))) }
{
    let w = (lines % span(k)) as u8;
    (w != 0).then_some(w)
}

// The outcome of the settling, which starts from the kept value. A state whose settling is refused, or names no card, is not well formed.
pub(crate) fn arbitrated(s: &mut RackState) -> Result<Reported, Refusal>
    requires { (s.old.table.k ≤ 6) × (0 < s.old.waiters) }
    ensures { as_outcome s.new result ≡ arbitrated s.old }
{
    let anew = !some_first(s);
    let Ok(t) = settling_of(s, anew) else {
        return Err(Refusal::NotWellFormed);
    };
    let Some(w) = card_named(s.table.k, t.lines) else {
        return Err(Refusal::NotWellFormed);
    };
    won(s, anew, w, t)
}
