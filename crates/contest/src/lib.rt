// The contest for the bus: who goes first, what each card shows the lines by the rule, and how they settle.
#![tactic(auto)]

ghost use Rattle.std.specs.Prelude.{◌≡◌};
ghost use Rattle.cards.specs.Below.{any_below};
ghost use Rattle.contest.specs.Shown.{first_at, marks_of, shown_settling};
ghost use Rattle.lines.specs.Settled.{as_settled};

use lines::Settling;
use offers::{goes_first, numbers_of};
use refusals::Refusal;
use rules::lines_of;
use state::RackState;

mod offers;

// Whether some card waits that goes first. The rule is asked at each card: the loop then has a body for each rule. A fold asks sixteen cards at once;
// `any`, which may stop at each, took some 11 instructions for each card that it passed, in place of 18 for all.
pub fn some_first(s: &RackState) -> bool
    ensures { result ≡ any_below 64 (first_at s.now.table.rule s.now.waiting s.now.batch s.now.inhibited) }
{
    (0..64usize).fold(
        false,
        |some, a| some | (s.waiting[a] & goes_first(s.table.rule, s.batch[a], s.inhibited[a])),
    )
}

// The settling of what each card shows the lines, which carry the kept value. A width that no table has is refused, since it has no lines.
pub fn settling_of(s: &RackState, anew: bool) -> Result<Settling, Refusal>
    ensures { as_settled result ≡ shown_settling s.now.table.k s.now.table.rule s.now.last s.now.value anew (marks_of s.now) }
{
    let m = lines_of(s.table.k, s.table.rule);
    let numbers = numbers_of(s, anew);
    let mut stages = [0u16; 13];
    lines::settle(m, s.value, &numbers, &mut stages)
}
