// Looking down the numbers for a card that is marked.
ghost use Rattle.std.specs.Prelude.{◌^◌, ◌≤◌, IfSome, max, min, unwrap_or, ◌≡◌};
ghost use Rattle.rules.specs.Look.{look_down};
ghost use Rattle.rules.specs.Marks.{is_in};

use super::span;

// The first marked card from n - 1 down to low, which is low or more.
pub(crate) fn look_down(cards: &[bool; 64], low: usize, n: usize) -> Option<u8>
    requires { n ≤ 64 }
    ensures first { unwrap_or result 0 ≡ look_down (is_in cards.now) low n }
    ensures within { IfSome result (λ a. low ≤ a) }
{
    (low..n).rev().find(|at| cards[*at]).map(|at| at as u8)
}

// The first look ends below the last winner, or below 64 where that is no number of a card.
pub(crate) fn below_last(last: u8) -> usize
    ensures { result ≡ min 64 last }
{
    usize::from(last).min(64)
}

// The second look ends at the last winner, or at 1 if there is none.
pub(crate) fn lowest(last: u8) -> usize
    ensures { result ≡ max 1 last }
{
    usize::from(last).max(1)
}

// It begins below 2 to the number width, or below 64 for a width that no table has.
#[tactic(auto, using(crate::proofs::Laws::span_within))]
pub(crate) fn below_span(k: u8) -> usize
    ensures { result ≡ min 64 (2 ^ k) }
{
    usize::from(span(k.min(6)))
}
