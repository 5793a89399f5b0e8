// The rack: a state by value, which holds the card table, one array for each mark of a card, the bus, the value that the lines keep, and how many
// cards wait; its events; and its file.
#![tactic(auto)]

ghost use Rattle.std.specs.Prelude.{◌≡◌, length};
ghost use Rattle.arbiter.specs.Arbitrate.{arbitrate_of, event_of};
ghost use Rattle.arbiter.specs.Events.{answered, request_of, release_of};
ghost use Rattle.arbiter.specs.Next.{next_of};
ghost use Rattle.arbiter.specs.NextWinner.{as_next_winner};
ghost use Rattle.arbiter.specs.State.{well_formed, fresh_of};
ghost use Rattle.cards.specs.Saved.{as_saved};
ghost use Rattle.rack.specs.Done.{outcome_in};
ghost use Rattle.rack.specs.Files.{load_of, save_of, save_after};
ghost use Rattle.rack.specs.HowMany.{as_how_many, how_many_of};
ghost use Rattle.rack.specs.Loaded.{as_loaded};

use arbiter::{Reported, arbitrate_in, next_in, release_in, request_in};
use cards::Table;
use marks::{bus_ok, last_ok, marks_ok, value_ok, waiters_ok};
use refusals::Refusal;
use state::{Bus, RackState};

mod marks;

// An event that is done: the next state, and what the event reports.
#[derive(Clone, Copy)]
pub struct Done {
    pub state: RackState,
    pub reported: Reported,
}

// Whether the state is well formed. A state that is not is refused with 17 by every event.
#[tactic(auto, using(crate::proofs::Formed::narrow, crate::proofs::Formed::sized), unfolding(arbiter::specs::State::well_formed))]
pub fn well_formed(s: RackState) -> bool
    ensures { result ≡ well_formed s }
{
    cards::table_good(s.table)
        && marks_ok(&s)
        && last_ok(&s)
        && bus_ok(&s)
        && value_ok(&s)
        && waiters_ok(&s)
}

// How many cards wait, as the state stores it.
#[tactic(auto, unfolding(crate::specs::HowMany::how_many_of))]
pub fn waiting_count(s: RackState) -> Result<u8, Refusal>
    ensures { as_how_many result ≡ how_many_of s }
{
    if well_formed(s) {
        Ok(s.waiters)
    } else {
        Err(Refusal::NotWellFormed)
    }
}

// Who would win an arbitration of the state under round-robin, without settling.
pub fn next_winner(s: RackState) -> Result<u8, Refusal>
    ensures { as_next_winner result ≡ next_of s }
{
    next_in(well_formed(s), &s)
}

// A freshly loaded state: nobody waits, counts 0, the two sets empty, last winner 0, bus free, lines at 0, no card counted as waiting.
pub fn fresh(t: Table) -> RackState
    ensures { result ≡ fresh_of t }
{
    RackState {
        table: t,
        waiting: [false; 64],
        counts: [0; 64],
        batch: [false; 64],
        inhibited: [false; 64],
        last: 0,
        bus: Bus::Free,
        value: 0,
        waiters: 0,
    }
}

// A card begins to wait. (The three events by value are alike in form; a function that takes the event as a closure would be no shorter than each is.)
pub fn request(s: RackState, a: u8) -> Result<Done, Refusal>
    ensures { outcome_in s result ≡ request_of s a }
{
    let mut state = s;
    let reported = request_in(well_formed(s), &mut state, a)?;
    Ok(Done { state, reported })
}

// The holder lets the bus go, to the elected card if there is one. The last winner stays.
pub fn release(s: RackState, a: u8) -> Result<Done, Refusal>
    ensures { outcome_in s result ≡ release_of s a }
{
    let mut state = s;
    let reported = release_in(well_formed(s), &mut state, a)?;
    Ok(Done { state, reported })
}

// The competing cards settle, and the winner holds a free bus, or is elected to follow the holder.
#[tactic(auto, using(arbiter::proofs::Refusals::told_truth))]
pub fn arbitrate(s: RackState) -> Result<Done, Refusal>
    ensures { outcome_in s result ≡ arbitrate_of s }
{
    let mut state = s;
    let reported = arbitrate_in(well_formed(s), &mut state)?;
    Ok(Done { state, reported })
}

// A refusal by any number, those too that no `Refusal` has: the state as it was given, and the number. Of a grant it tells nothing.
pub fn refused(s: RackState, number: u8) -> (RackState, u8)
    ensures { answered result.0 result.1 ≡ answered s number }
{
    (s, number)
}

// An event by its letter: Q, A or R. Any other letter is refused. (The letter is matched as the trace has it: `event_of` answers for every letter.)
#[tactic(auto, unfolding(arbiter::specs::Arbitrate::event_of))]
pub fn event(s: RackState, letter: u8, a: u8) -> Result<Done, Refusal>
    ensures { outcome_in s result ≡ event_of s letter a }
{
    match letter {
        b'Q' => request(s, a),
        b'A' => arbitrate(s),
        b'R' => release(s, a),
        _ => Err(Refusal::Malformed),
    }
}

// The fresh state of the table in a file.
pub fn load(file: &[u8]) -> Result<RackState, Refusal>
    ensures { as_loaded result ≡ load_of file.now }
{
    let table = cardfile::load_table(file)?;
    Ok(fresh(table))
}

// Writes the state's table in its saved form to the front of buf, and returns how many bytes that are.
#[tactic(auto, unfolding(crate::specs::Files::save_of, crate::specs::Files::save_after))]
pub fn save(s: RackState, buf: &mut [u8]) -> Result<usize, Refusal>
    ensures { (as_saved result ≡ save_of s (length buf.old)) × (buf.new ≡ save_after s buf.old) }
{
    if !well_formed(s) {
        return Err(Refusal::NotWellFormed);
    }
    cards::save_table(s.table, buf)
}
