// Which refusal of a counted event comes first.
ghost use Rattle.std.specs.Prelude.{◌≡◌, Ok, IfOk};
ghost use Rattle.refusals.specs.Numbers.{answer_of};
ghost use Rattle.tally.specs.Tally.{counted_answer};

use super::Tally;
use rack::Done;
use refusals::Refusal;

// The event as the tally lets it pass: 31 and 41 come straight after 17, and 18 is no event's.
#[tactic(auto, unfolding(crate::specs::Tally::counted_answer))]
pub(crate) fn counted_event(
    t: &Tally,
    q: &[[u16; 64]; 64],
    event: Result<Done, Refusal>,
) -> Result<Done, Refusal>
    ensures answer { answer_of result ≡ counted_answer t.now q.now (answer_of event) }
    ensures done { IfOk result (λ done. event ≡ Ok done) }
{
    if matches!(event, Err(Refusal::NotWellFormed | Refusal::Malformed)) {
        return event;
    }
    if t.events == u16::MAX {
        return Err(Refusal::TallyFull);
    }
    if !t.is_good(q) {
        return Err(Refusal::TallyBad);
    }
    event
}
