// The waiting counts: whose is full, and how they grow. And how many cards wait.
ghost use Rattle.std.specs.Prelude.{◌-◌, cond, ◌&&◌, ◌≡◌};
ghost use Rattle.cards.specs.Below.{any_below, tabulate};
ghost use Rattle.rules.specs.Counts.{one_more_of, one_waits, full_loser, grown_at, counts_grown};
ghost use Rattle.rules.specs.Rules.{counts_losers, span_of};

use super::counts_losers;
use cards::top_number;
use std::array;

// A mark as a number: std's conversion, under the name that docs/PROMISES.md has.
pub fn one_if(marked: bool) -> u8
    ensures { result ≡ cond marked 1 0 }
{
    u8::from(marked)
}

// One card more waits.
pub fn one_waits(n: u8) -> u8
    ensures { result ≡ one_waits n }
{
    if n < 64 { n + 1 } else { n }
}

// Whether a loser's count is already `full`. A fold asks sixteen cards at once; `any`, which may stop at each, took 358 instructions in place of 66
// where no count is.
pub(crate) fn some_full_loser(full: u8, waiting: &[bool; 64], counts: &[u8; 64], w: u8) -> bool
    ensures { result ≡ any_below 64 (full_loser full waiting.now counts.now w) }
{
    let winner = usize::from(w);
    (0..64usize).fold(
        false,
        |some, a| some | ((a != winner) & waiting[a] & (full <= counts[a])),
    )
}

// Under rule 2 alone: whether a loser's count is already 2 ^ k - 1.
#[tactic(auto, using(crate::proofs::Laws::span_top))]
pub fn some_loser_full(k: u8, rule: u8, waiting: &[bool; 64], counts: &[u8; 64], w: u8) -> bool
    ensures { result ≡ (counts_losers rule && any_below 64 (full_loser (span_of k - 1) waiting.now counts.now w)) }
{
    counts_losers(rule) && some_full_loser(top_number(k), waiting, counts, w)
}

// A card's count, one more if the card waits, and at most 255.
pub(crate) fn counted(waits: bool, count: u8) -> u8
    ensures { result ≡ cond waits (one_more_of 255 count) count }
{
    count.saturating_add(one_if(waits))
}

// The counts, one more for each card that waits.
pub(crate) fn one_more_each(waiting: &[bool; 64], counts: &[u8; 64]) -> [u8; 64]
    ensures { result ≡ tabulate 64 (grown_at waiting.now counts.now) }
{
    array::from_fn(|a| counted(waiting[a], counts[a]))
}

// Under rule 2 the count of each card that waits grows by 1.
pub fn grow_counts(rule: u8, waiting: &[bool; 64], counts: &mut [u8; 64])
    ensures { counts.new ≡ counts_grown rule waiting.now counts.old }
{
    if counts_losers(rule) {
        *counts = one_more_each(waiting, counts);
    }
}
