// The arbiter: the events of a rack, on a state that the caller lends. A run over many events keeps its state in one place and finds out once whether
// it is well formed, since events keep it so. Each event is told that, and is refused where it is told no. (No type keeps that fact: an event takes every
// state, a damaged one too, and its contract says what it answers to whatever it is told.)
#![tactic(auto)]

ghost use Rattle.std.specs.Prelude.{cond, eqb, not, ◌≡◌};
ghost use Rattle.arbiter.specs.Arbitrate.{arbitrate_by};
ghost use Rattle.arbiter.specs.Events.{request_by, release_by};
ghost use Rattle.arbiter.specs.Next.{next_by};
ghost use Rattle.arbiter.specs.NextWinner.{as_next_winner};
ghost use Rattle.arbiter.specs.Outcome.{as_outcome};
ghost use Rattle.arbiter.specs.State.{is_closed};
ghost use Rattle.cards.specs.Table.{in_table};
ghost use Rattle.refusals.specs.Numbers.{answer_of};

use arbitration::arbitrated;
use marks::{handed_on, is_closed, is_elected, is_holder, waits_at};
use refusals::Refusal;
use rules::{is_robin, look_round, one_waits};
use state::RackState;

mod arbitration;
mod marks;
mod parts;
mod sets;

pub use parts::{Hold, state_of};

// What a done event reports: of a grant the winner, the settled lines, the stages and how many competing numbers equal the lines.
#[derive(Clone, Copy)]
pub struct Reported {
    pub winner: u8,
    pub lines: u16,
    pub stages: u8,
    pub matches: u8,
}

// A request and a release report zeros. (An `Option` would tell nothing apart: `as_outcome` reads no grant and a grant of zeros alike, and a contract that admits both
// is not of one result.)
const NO_GRANT: Reported = Reported {
    winner: 0,
    lines: 0,
    stages: 0,
    matches: 0,
};

// What is refused before a card is looked at: a state that is not well formed, and a number that is not in the table.
fn check_card(formed: bool, s: &RackState, a: u8) -> Result<(), Refusal>
    ensures { answer_of result ≡ cond (not formed) 17 (cond (not (in_table s.now.table.slots a)) 11 0) }
{
    if !formed {
        return Err(Refusal::NotWellFormed);
    }
    if !cards::in_table(&s.table.slots, a) {
        return Err(Refusal::NotInTable);
    }
    Ok(())
}

// A card begins to wait, with count 0. The elected card cannot request before the bus is its own.
#[tactic(auto, using(cards::proofs::TableKnown::table_range), unfolding(crate::specs::Events::request_refusal, crate::specs::Events::answered_by))]
pub fn request_in(formed: bool, s: &mut RackState, a: u8) -> Result<Reported, Refusal>
    ensures { as_outcome s.new result ≡ request_by formed s.old a }
{
    check_card(formed, s, a)?;
    if waits_at(&s.waiting, a) || is_elected(s.bus, a) {
        return Err(Refusal::Waits);
    }
    let i = usize::from(a);
    s.waiting[i] = true;
    s.counts[i] = 0;
    s.waiters = one_waits(s.waiters);
    Ok(NO_GRANT)
}

// The holder lets the bus go, to the elected card if there is one, and the last winner stays.
#[tactic(auto, unfolding(crate::specs::Events::release_refusal, crate::specs::Events::answered_by))]
pub fn release_in(formed: bool, s: &mut RackState, a: u8) -> Result<Reported, Refusal>
    ensures { as_outcome s.new result ≡ release_by formed s.old a }
{
    check_card(formed, s, a)?;
    if !is_holder(s.bus, a) {
        return Err(Refusal::NotHolder);
    }
    s.bus = handed_on(s.bus);
    Ok(NO_GRANT)
}

// What is refused before a card is looked for: a closed bus, and nobody who waits.
fn check_bus(s: &RackState) -> Result<(), Refusal>
    ensures { answer_of result ≡ cond (is_closed s.now.bus) 13 (cond (eqb s.now.waiters 0) 14 0) }
{
    if is_closed(s.bus) {
        return Err(Refusal::Closed);
    }
    if s.waiters == 0 {
        return Err(Refusal::NobodyWaits);
    }
    Ok(())
}

// The competing cards settle, from the value that the lines keep, and the winner holds a free bus, or is elected to follow the holder. It asks the
// width again, since a caller may tell it what is not so: a width over 6 is that of no table.
#[tactic(auto, unfolding(crate::specs::Arbitrate::arbitrate_refusal, crate::specs::Events::answered_by))]
pub fn arbitrate_in(formed: bool, s: &mut RackState) -> Result<Reported, Refusal>
    ensures { as_outcome s.new result ≡ arbitrate_by formed s.old }
{
    if !formed || 6 < s.table.k {
        return Err(Refusal::NotWellFormed);
    }
    check_bus(s)?;
    arbitrated(s)
}

// Who would win an arbitration under round-robin, by a look at who waits and without settling. Like the events it is told whether the state is well
// formed, so that a panel which keeps its state checked pays for the look alone.
#[tactic(auto, unfolding(crate::specs::Next::next_refusal, crate::specs::Next::next_by))]
pub fn next_in(formed: bool, s: &RackState) -> Result<u8, Refusal>
    ensures { as_next_winner result ≡ next_by formed s.now }
{
    if !formed {
        return Err(Refusal::NotWellFormed);
    }
    if !is_robin(s.table.rule) {
        return Err(Refusal::NotRobin);
    }
    check_bus(s)?;
    Ok(look_round(s.table.k, s.last, s.waiting))
}
