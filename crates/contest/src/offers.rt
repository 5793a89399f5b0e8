// What the rule makes of a card: whether it goes first, and what it shows. A rule is matched by its number, since a state has any number.
ghost use Rattle.std.specs.Prelude.{◌^◌, ◌≤◌, ◌<◌, cond, ◌≡◌};
ghost use Rattle.cards.specs.Below.{tabulate};
ghost use Rattle.rules.specs.Rules.{goes_first};
ghost use Rattle.contest.specs.Shown.{marks_of, offered_at, shown_at};

use rules::span;
use state::RackState;
use std::array;

// Whether a card goes first: under rule 3 only a card of the batch does, under rule 4 only one that is not inhibited, under the others each. One arm
// for each rule, as each number selects one behaviour.
#[tactic(auto, using(rules::proofs::Laws::other_rule), unfolding(rules::specs::Rules::by_rule, rules::specs::Rules::goes_first))]
pub(crate) fn goes_first(rule: u8, batched: bool, inhibited: bool) -> bool
    ensures { result ≡ goes_first rule batched inhibited }
{
    match rule {
        0 => true,
        1 => true,
        2 => true,
        3 => batched,
        4 => !inhibited,
        _ => true,
    }
}

// A card that does not compete shows the lines 0, which no line tells from silence: so the list need not be gathered from the cards that do.
pub(crate) fn shown_by(competes: bool, number: u16) -> u16
    ensures { result ≡ cond competes number 0 }
{
    if competes { number } else { 0 }
}

// What a waiting card a shows the lines: its competing number, where the span is 2 to the number width; or 0 under rules 3 and 4, if it does not go
// first and the sets are not made anew. One match for both, since the loop over the cards then has a body for each rule.
#[tactic(auto, using(crate::proofs::Laws::nothing_shown), unfolding(rules::specs::Rules::by_rule, rules::specs::Rules::number_by, rules::specs::Rules::goes_first))]
pub(crate) fn offer_by(s: &RackState, span: u16, a: usize, anew: bool) -> u16
    requires { (a < 64) × (span ≤ 64) }
    ensures { span ≡ 2 ^ s.now.table.k → result ≡ offered_at s.now.table.k s.now.table.rule s.now.last anew (marks_of s.now) a }
{
    let own = a as u16;
    match s.table.rule {
        0 => own,
        1 => if own < u16::from(s.last) {
            own + span
        } else {
            own
        },
        2 => own + span * u16::from(s.counts[a]),
        3 => shown_by(s.batch[a] | anew, own),
        4 => shown_by(!s.inhibited[a] | anew, own),
        _ => 0,
    }
}

// What each card shows the lines, for a number width that a table has. It stands by itself for speed: with this loop beside the settling, a line of a
// trace takes up to twice the instructions.
pub(crate) fn numbers_of(s: &RackState, anew: bool) -> [u16; 64]
    ensures { s.now.table.k ≤ 6 → result ≡ tabulate 64 (shown_at s.now.table.k s.now.table.rule s.now.last anew (marks_of s.now)) }
{
    let span = span(s.table.k);
    array::from_fn(|a| shown_by(s.waiting[a], offer_by(s, span, a, anew)))
}
