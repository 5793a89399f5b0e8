// What a done event makes of each card's figures. (That the tally is good and not full is what these count on. No type keeps it, since a tally is taken as given, and
// 31 and 41 are its refusals.)
ghost use Rattle.std.specs.Prelude.{ℕ, ◌+◌, ◌≤◌, ◌<◌, true, ◌≡◌};
ghost use Rattle.cards.specs.Below.{all_below};
ghost use Rattle.arbiter.specs.Outcome.{as_outcome};
ghost use Rattle.std.specs.Prelude.{Ok};
ghost use Rattle.tally.specs.Room.{Small};
ghost use Rattle.tally.specs.Tally.{with_running, won_figures, figures_of, card_good, card_after, tally_after};

use super::checks::squared;
use super::{Figures, Tally};
use rack::Done;
use std::array;

impl Figures {
    // Its card asks, and waits from then on.
    fn asked(self) -> Figures
        ensures { result ≡ with_running self 0 }
    {
        Figures { running: 0, ..self }
    }

    // Its card is granted the bus, which ends its wait. n events were counted before it.
    fn granted(self, n: u16) -> Figures
        requires { (n < 65535) × Small n self }
        ensures { result ≡ won_figures self }
    {
        Figures {
            grants: self.grants + 1,
            sum: self.sum + u32::from(self.running),
            squares: self.squares + squared(self.running),
            running: 0,
        }
    }

    // Another card is granted the bus, and its card waits on.
    fn passed_over(self) -> Figures
        requires { self.running < 65535 }
        ensures { result ≡ with_running self (self.running + 1) }
    {
        Figures {
            running: self.running + 1,
            ..self
        }
    }
}

// The figures of the card b.
#[tactic(auto, unfolding(crate::specs::Tally::figures_after, crate::specs::Tally::asked_figures, crate::specs::Tally::granted_figures))]
fn figures_after(t: &Tally, letter: u8, a: u8, done: &Done, b: usize) -> Figures
    requires { (t.now.events < 65535) × (all_below 64 (card_good t.now) ≡ true) × (b < 64) }
    ensures { result ≡ card_after t.now.cards letter a done.now.reported.winner done.now.state.waiting b }
{
    let figures = t.cards[b];
    match letter {
        b'Q' if b == usize::from(a) => figures.asked(),
        b'A' if b == usize::from(done.reported.winner) => figures.granted(t.events),
        b'A' if done.state.waiting[b] => figures.passed_over(),
        _ => figures,
    }
}

pub(crate) fn tally_after(t: &Tally, letter: u8, a: u8, done: &Done) -> Tally
    requires { (t.now.events < 65535) × (all_below 64 (card_good t.now) ≡ true) }
    ensures { result ≡ tally_after t.now letter a (as_outcome done.now.state (Ok done.now.reported)) }
{
    Tally {
        events: t.events + 1,
        cards: array::from_fn(|b| figures_after(t, letter, a, done, b)),
    }
}
