// What a grant adds to the square of who waited for whom.
ghost use Rattle.std.specs.Prelude.{◌<◌, true, ◌≡◌, get_or, Ok};
ghost use Rattle.arbiter.specs.Outcome.{as_outcome};
ghost use Rattle.cards.specs.Below.{all_below, tabulate};
ghost use Rattle.tally.specs.Room.{room_at, SquareRoom};
ghost use Rattle.tally.specs.Tally.{row_after, rows_after, square_after};

use rack::Done;

// In the row of a card that a grant to w leaves waiting, one wait more.
#[tactic(auto, unfolding(crate::specs::Tally::row_after))]
fn count_wait(row: &mut [u16; 64], waits: bool, w: u8)
    requires { (w < 64) × (get_or row.old w 0 < 65535) }
    ensures { row.new ≡ row_after row.old waits w }
{
    if waits {
        row[usize::from(w)] += 1;
    }
}

// The rows, where w is granted. (`array::from_fn` was tried: of a closure that makes an array no clause is found, and its `requires` stayed open.)
fn rows_after(q: [[u16; 64]; 64], waiting: &[bool; 64], w: u8) -> [[u16; 64]; 64]
    requires { (w < 64) × (all_below 64 (room_at q w) ≡ true) }
    ensures { result ≡ tabulate 64 (rows_after q waiting.now w) }
{
    let mut next = q;
    for (b, waits) in waiting.iter().enumerate() {
        count_wait(&mut next[b], *waits, w);
    }
    next
}

#[tactic(auto, unfolding(crate::specs::Tally::square_after))]
pub(crate) fn square_after(q: [[u16; 64]; 64], done: &Done) -> [[u16; 64]; 64]
    requires { SquareRoom q (as_outcome done.now.state (Ok done.now.reported)) }
    ensures { result ≡ square_after q (as_outcome done.now.state (Ok done.now.reported)) }
{
    if done.reported.winner == 0 {
        return q;
    }
    rows_after(q, &done.state.waiting, done.reported.winner)
}
