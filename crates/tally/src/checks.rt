// What refusal 41 tests, where n events are counted.
ghost use Rattle.std.specs.Prelude.{◌≤◌, ◌<◌, true, ◌≡◌, ◌*◌};
ghost use Rattle.cards.specs.Below.{all_below};
ghost use Rattle.tally.specs.Tally.{figures_small, variance_good, figures_good, card_good, entry_good, row_good, tally_good};

use super::{Figures, Tally};

pub(crate) fn squared(x: u16) -> u64
    ensures { result ≡ x * x }
{
    u64::from(x) * u64::from(x)
}

impl Figures {
    #[tactic(auto, unfolding(crate::specs::Tally::figures_small))]
    fn are_small(self, n: u16) -> bool
        ensures { result ≡ figures_small n self }
    {
        self.grants <= n
            && self.sum <= u32::from(n)
            && self.running <= n
            && self.squares <= squared(n)
    }

    // The products fit 64 bits only where the figures are small.
    fn have_variance(self, n: u16) -> bool
        requires { figures_small n self ≡ true }
        ensures { result ≡ variance_good self }
    {
        u64::from(self.sum) * u64::from(self.sum) <= u64::from(self.grants) * self.squares
    }

    #[tactic(auto, unfolding(crate::specs::Tally::figures_good))]
    fn are_good(self, n: u16) -> bool
        ensures { result ≡ figures_good n self }
    {
        self.are_small(n) && self.have_variance(n)
    }
}

fn cards_good(t: &Tally) -> bool
    ensures { result ≡ all_below 64 (card_good t.now) }
{
    t.cards.iter().all(|figures| figures.are_good(t.events))
}

// A fold asks eight entries at once. With `all`, which may stop at each, the test of a good tally and square took 9,900 instructions in place of 4,300.
fn row_good(n: u16, row: &[u16; 64]) -> bool
    ensures { result ≡ all_below 64 (entry_good n row.now) }
{
    row.iter().fold(true, |good, entry| good & (*entry <= n))
}

pub(crate) fn rows_good(n: u16, q: &[[u16; 64]; 64]) -> bool
    ensures { result ≡ all_below 64 (row_good n q.now) }
{
    q.iter().all(|row| row_good(n, row))
}

impl Tally {
    #[tactic(auto, unfolding(crate::specs::Tally::tally_good))]
    pub(crate) fn is_good(&self, q: &[[u16; 64]; 64]) -> bool
        ensures { result ≡ tally_good self.now q.now }
    {
        cards_good(self) && rows_good(self.events, q)
    }
}
