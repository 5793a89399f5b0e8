// A line of the trace, answered.
ghost use Rattle.std.specs.Prelude.{◌≡◌};
ghost use Rattle.arbiter.specs.Outcome.{as_outcome};
ghost use Rattle.arbiter.specs.State.{well_formed};
ghost use Rattle.trace.specs.Line.{line_outcome};

use super::Event;
use arbiter::{Reported, arbitrate_in, release_in, request_in};
use refusals::Refusal;
use state::RackState;

// The event of a line. A malformed line is refused as it stands.
#[tactic(auto, using(arbiter::proofs::Refusals::told_truth), unfolding(crate::specs::Line::line_outcome))]
pub(crate) fn answer_line(
    formed: bool,
    s: &mut RackState,
    line: Option<Event>,
) -> Result<Reported, Refusal>
    requires { formed ≡ well_formed s.old }
    ensures { as_outcome s.new result ≡ line_outcome s.old line }
{
    match line {
        Some(Event::Request(n)) => request_in(formed, s, n),
        Some(Event::Arbitrate) => arbitrate_in(formed, s),
        Some(Event::Release(n)) => release_in(formed, s, n),
        None => Err(Refusal::Malformed),
    }
}
