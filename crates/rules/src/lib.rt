// The rules by their numbers, and what they make of the marks of the cards without a settling: how the sets and the counts change, and who is next.
// It takes what it reads, and no state. (Each function is promised of any arrays that it is given, and not of a state's alone, as docs/PROMISES.md has it.)
#![tactic(auto)]

ghost use Rattle.std.specs.Prelude.{◌≤◌, ◌≡◌};
ghost use Rattle.rules.specs.Look.{look_round};
ghost use Rattle.rules.specs.Marks.{is_in};
ghost use Rattle.rules.specs.Rules.{is_robin, lines_given, span_of, counts_losers, has_batch, inhibits};

use look::{below_last, below_span, look_down, lowest};

mod counts;
mod look;
mod sets;

pub use counts::{grow_counts, one_if, one_waits, some_loser_full};
pub use sets::{clear_inhibitions, renew_batch};

// Two to the number width; 1 for a width that no table has, so that a caller need not have checked it.
#[tactic(auto, using(crate::proofs::Laws::span_top))]
pub fn span(k: u8) -> u16
    ensures { (result ≡ span_of k) × ((1 ≤ result) × (result ≤ 64)) }
{
    u16::from(cards::top_number(k)) + 1
}

// How many lines the rule has, one arm for each rule. A width that no table has gets none, nor does another rule: no settling takes 0 lines. (The rule stays the
// number that a table has: each of these functions answers for every number, those that no rule has too.)
#[tactic(auto, using(crate::proofs::Laws::other_rule, crate::proofs::Laws::lines_given_lem), unfolding(crate::specs::Rules::by_rule, crate::specs::Rules::lines_by, crate::specs::Rules::lines_given))]
pub fn lines_of(k: u8, rule: u8) -> u8
    ensures { result ≡ lines_given k rule }
{
    if 6 < k {
        return 0;
    }
    match rule {
        0 => k,
        1 => k + 1,
        2 => k * 2,
        3 => k,
        4 => k,
        _ => 0,
    }
}

// Whether it is round-robin. (This and the next three ask one number each: four public functions with a definition each, and one for all would be no shorter.)
pub fn is_robin(rule: u8) -> bool
    ensures { result ≡ is_robin rule }
{
    matches!(rule, 1)
}

// Whether the waiting counts of losers grow.
pub fn counts_losers(rule: u8) -> bool
    ensures { result ≡ counts_losers rule }
{
    matches!(rule, 2)
}

// Whether there is a batch.
pub fn has_batch(rule: u8) -> bool
    ensures { result ≡ has_batch rule }
{
    matches!(rule, 3)
}

// Whether a card is inhibited when it wins.
pub fn inhibits(rule: u8) -> bool
    ensures { result ≡ inhibits rule }
{
    matches!(rule, 4)
}

// Who is next under round-robin, without settling: the first waiting card from the last winner less one to 1, and then, if nobody waits there, from
// 2 ^ k - 1 down to the last winner itself; 0 if nobody waits at all, as its definition has it. It takes any width and any
// last winner.
pub fn look_round(k: u8, last: u8, waiting: [bool; 64]) -> u8
    ensures { result ≡ look_round (is_in waiting) k last }
{
    look_down(&waiting, 1, below_last(last))
        .or_else(|| look_down(&waiting, lowest(last), below_span(k)))
        .unwrap_or(0)
}
