// Settling from the bytes as lent: each number is read where it is used, and each stage is written as it comes. (The loops stand in `lines` too, over numbers
// whatever they are stored in. docs/DESIGN-PASS.md says why these are not those.)
ghost use Rattle.std.specs.Prelude.{ℕ, ◌/◌, ◌≤◌, ◌<◌, ◌^◌, ◌≡◌, length};
ghost use Rattle.lines.specs.Greatest.{greatest};
ghost use Rattle.lines.specs.Settle.{Accepted, Ran, SettlesIn, equal_to};
ghost use Rattle.lines.specs.Settled.{as_settled};
ghost use Rattle.lines.specs.Settling.{stage};
ghost use Rattle.lines.specs.Words.{put_word, words};

use super::words::{put_word, word_at};
use lines::{Settling, accept, applied_by};
use refusals::Refusal;

// The lines after the next stage.
fn next_stage(numbers: &[u8], lines: u16) -> u16
    ensures { (m : ℕ) → greatest (words numbers.now) < 2 ^ m → lines < 2 ^ m → result ≡ stage m (words numbers.now) lines }
{
    let mut joined: u16 = 0;
    for i in 0..numbers.len() / 2 {
        joined |= applied_by(lines, word_at(numbers, i));
    }
    joined
}

// How many numbers equal the lines.
#[tactic(auto, using(lines::proofs::Matches::counting, lines::proofs::Words::pairs))]
fn matching(numbers: &[u8], lines: u16) -> u8
    requires { length (words numbers.now) ≤ 64 }
    ensures { result ≡ equal_to lines (words numbers.now) }
{
    let mut count: u8 = 0;
    for i in 0..numbers.len() / 2 {
        count += (word_at(numbers, i) == lines) as u8;
    }
    count
}

// Stage after stage from the lines `start`, until two neighbouring ones agree. At most m stages change a line, so the loop takes at most m + 1 turns.
fn run(m: u8, start: u16, numbers: &[u8], stages: &mut [u8]) -> Settling
    requires { Accepted m (words numbers.now) start (length (words stages.old)) }
    ensures { Ran put_word m (words numbers.now) start stages.old result stages.new }
{
    let mut t: u8 = 0;
    let mut lines = start;
    put_word(start, 0, stages);
    loop {
        let next = next_stage(numbers, lines);
        if next == lines {
            let matches = matching(numbers, lines);
            break Settling {
                lines,
                stages: t,
                matches,
            };
        }
        t += 1;
        lines = next;
        put_word(next, t as usize, stages);
    }
}

// Settles m lines, which carry `start`, for the competing numbers: two bytes for each, low byte first, and so the lines after each stage.
#[tactic(auto, using(lines::proofs::Refusal::accepted, lines::proofs::Words::pairs))]
pub(crate) fn settle_bytes(
    m: u32,
    start: u32,
    numbers: &[u8],
    stages: &mut [u8],
) -> Result<Settling, Refusal>
    ensures { SettlesIn put_word m (words numbers.now) start (length (words stages.old)) stages.old (as_settled result) stages.new }
{
    let (m, start) = accept(m, start, numbers, stages.len() / 2)?;
    Ok(run(m, start, numbers, stages))
}
