// The waiting report: each card's figures with its variance, and their text (docs/REPORT.md).
#![tactic(auto)]

ghost use Rattle.std.specs.Prelude.{true, ◌≡◌};
ghost use Rattle.cards.specs.Below.{all_below, tabulate};
ghost use Rattle.report.specs.Report.{line_at, as_report, report_of};
ghost use Rattle.tally.specs.Tally.{card_good};

use figures::card_line;
use refusals::Refusal;
use std::array;
use tally::Tally;

mod figures;
mod row;
mod text;

pub use row::row_text;
pub use text::{card_text, opening};

// A card's figures, and the variance of its waits as a fraction.
#[derive(Clone, Copy)]
pub struct CardLine {
    pub grants: u16,
    pub sum: u32,
    pub squares: u64,
    pub numerator: u64,
    pub denominator: u64,
}

fn all_lines(t: &Tally) -> [CardLine; 64]
    requires { all_below 64 (card_good t.now) ≡ true }
    ensures { result ≡ tabulate 64 (line_at t.now) }
{
    array::from_fn(|b| card_line(t, b))
}

// The report of a tally and its square, by arbitration number; 41 where they cannot be counted on.
#[tactic(auto, using(tally::proofs::Laws::cards_of_lem), unfolding(crate::specs::Report::report_of))]
pub fn waiting_report(t: Tally, q: [[u16; 64]; 64]) -> Result<[CardLine; 64], Refusal>
    ensures { as_report result ≡ report_of t q }
{
    if !tally::tally_good(t, q) {
        return Err(Refusal::TallyBad);
    }
    Ok(all_lines(&t))
}
