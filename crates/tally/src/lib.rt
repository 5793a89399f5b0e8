// The waiting report's figures: a tally of each card's waits and a square of who waited for whom, counted beside the rack's events.
#![tactic(auto)]

ghost use Rattle.std.specs.Prelude.{◌≡◌};
ghost use Rattle.arbiter.specs.Outcome.{Outcome};
ghost use Rattle.tally.specs.Counted.{as_counted};
ghost use Rattle.tally.specs.Room.{StandsFor, square_for};
ghost use Rattle.tally.specs.Tally.{tally_good, counted_of, tallied_of};
ghost use Rattle.tally.specs.Tallied.{as_tallied};

use checks::rows_good;
use counting::tally_after;
use order::counted_event;
use rack::Done;
use refusals::Refusal;
use square::square_after;
use state::RackState;

mod checks;
mod counting;
mod order;
mod square;

// A card's sums. At most 65,535 events are counted, so that grants, a running wait and the sum of waits stay within 65,535 and the sum of squares
// within its square. As given, a sum and a running wait may both be 65,534, and the next grant adds them: so the sums are wider than what 41 lets pass.
#[derive(Clone, Copy)]
pub struct Figures {
    pub grants: u16,
    pub sum: u32,
    pub squares: u64,
    pub running: u16,
}

// How many done events are counted, and the figures by arbitration number.
#[derive(Clone, Copy)]
pub struct Tally {
    pub events: u16,
    pub cards: [Figures; 64],
}

// A counted event that is done: the next tally, and the event.
#[derive(Clone, Copy)]
pub struct Counted {
    pub tally: Tally,
    pub done: Done,
}

// A counted event where the tally was lent: the event, or its refusal, and the next square.
#[derive(Clone, Copy)]
pub struct Tallied {
    pub event: Result<Done, Refusal>,
    pub square: [[u16; 64]; 64],
}

// The square goes beside the tally, by value and back, and an event by its letter and number: document 02 has them so.

// Whether the tally and the square can be counted on: if not, 41.
pub fn tally_good(t: Tally, q: [[u16; 64]; 64]) -> bool
    ensures { result ≡ tally_good t q }
{
    t.is_good(&q)
}

// An event, counted by value: 17, 31, 41, and then the event's own refusals.
#[tactic(auto, unfolding(crate::specs::Tally::counted_of, crate::specs::Tally::counted_by))]
pub fn event_counted(
    t: Tally,
    q: [[u16; 64]; 64],
    s: RackState,
    letter: u8,
    a: u8,
) -> Result<Counted, Refusal>
    ensures { as_counted t s result ≡ counted_of t q s letter a }
{
    let done = counted_event(&t, &q, rack::event(s, letter, a))?;
    let tally = tally_after(&t, letter, a, &done);
    Ok(Counted { tally, done })
}

// The square after an event counted where n events were before it. However a caller tells a refusal, the square is handed back as given.
#[tactic(auto, unfolding(crate::specs::Room::square_for, crate::specs::Tally::square_after))]
pub fn square_counted<E: Copy>(
    n: u16,
    q: [[u16; 64]; 64],
    event: Result<Done, E>,
) -> [[u16; 64]; 64]
    ensures { (o : Outcome) → StandsFor event o → result ≡ square_for n q o }
{
    let Ok(done) = event else {
        return q;
    };
    if n < u16::MAX && done.reported.winner < 64 && rows_good(n, &q) {
        return square_after(q, &done);
    }
    q
}

// An event, counted: the tally is brought up to date where the caller keeps it, and the square is handed in and handed back.
#[tactic(auto, unfolding(crate::specs::Tally::square_after))]
pub fn event_tallied(
    tally: &mut Tally,
    square: [[u16; 64]; 64],
    s: RackState,
    letter: u8,
    a: u8,
) -> Tallied
    ensures { (as_tallied s result ≡ tallied_of tally.old square s letter a) × (tally.new ≡ (counted_of tally.old square s letter a).tally) }
{
    match event_counted(*tally, square, s, letter, a) {
        Ok(counted) => {
            *tally = counted.tally;
            Tallied {
                event: Ok(counted.done),
                square: square_after(square, &counted.done),
            }
        }
        Err(refusal) => Tallied {
            event: Err(refusal),
            square,
        },
    }
}
