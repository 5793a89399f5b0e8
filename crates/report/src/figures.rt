// A card's line of the report. (That the tally is good is what it counts on; as in the tally, no type keeps it.)
ghost use Rattle.std.specs.Prelude.{◌<◌, true, ◌≡◌};
ghost use Rattle.cards.specs.Below.{all_below};
ghost use Rattle.report.specs.Report.{line_at};
ghost use Rattle.tally.specs.Tally.{card_good};

use super::CardLine;
use tally::Tally;

// The products of good figures fit 64 bits, and their difference is not below 0.
#[tactic(auto, unfolding(crate::specs::Report::line_of))]
pub(crate) fn card_line(t: &Tally, b: usize) -> CardLine
    requires { (all_below 64 (card_good t.now) ≡ true) × (b < 64) }
    ensures { result ≡ line_at t.now b }
{
    let figures = t.cards[b];
    let grants = u64::from(figures.grants);
    let sum = u64::from(figures.sum);
    CardLine {
        grants: figures.grants,
        sum: figures.sum,
        squares: figures.squares,
        numerator: grants * figures.squares - sum * sum,
        denominator: grants * grants,
    }
}
