// The trace listing: lines of a trace in, lines of the listing out.
#![tactic(auto)]

ghost use Rattle.std.specs.Prelude.{◌≡◌};
ghost use Rattle.refusals.specs.Numbers.{number_of};
ghost use Rattle.trace.specs.Line.{parse_of, text_for};
ghost use Rattle.trace.specs.Listing.{Lists};

use arbiter::Reported;
use events::answer_line;
use reading::{digit, event_by};
use refusals::Refusal;
use state::RackState;
use writing::{copy_line, full_text, line_text, quiet_text};

mod events;
mod reading;
mod writing;

// What one line of the trace asks for.
#[derive(Clone, Copy)]
pub enum Event {
    Request(u8),
    Arbitrate,
    Release(u8),
}

// What a run over a part of the trace leaves. (All of it is left whether a malformed line ended the run or not: so `ended` stands beside it, and no `Option`
// around it.)
#[derive(Clone, Copy)]
pub struct Ran {
    pub state: RackState,
    pub read: usize,
    pub written: usize,
    pub ended: bool,
}

// What a line asks for: its letter, a space, the two digits of a number, and a newline. (The space and the newline are tested apart: of a literal inside a slice
// pattern a proof learns nothing.)
#[tactic(auto, using(crate::proofs::Parsed::parsed))]
pub fn parse(line: &[u8]) -> Option<Event>
    ensures { result ≡ parse_of line.now }
{
    let [letter, gap, tens, ones, end] = line else {
        return None;
    };
    if (*gap != b' ') | (*end != b'\n') {
        return None;
    }
    event_by(*letter, digit(*tens)? * 10 + digit(*ones)?)
}

// The 22 bytes of a line of the listing. Most lines name no winner, and the rest of such a line is zeros: written apart, it takes fewer instructions
// (docs/PERFORMANCE.md). (The answer is any number, as `text_for` has it.)
pub fn text(event: [u8; 4], answer: u8, reported: Reported) -> [u8; 22]
    ensures { result ≡ text_for event answer reported.winner reported.lines reported.stages reported.matches }
{
    let quiet = matches!(
        reported,
        Reported {
            winner: 0,
            lines: 0,
            stages: 0,
            matches: 0
        }
    );
    if quiet {
        return quiet_text(event, answer);
    }
    full_text(event, answer, reported)
}

// The line of the listing that tells a refusal, under the event's four characters or what stands for them.
pub fn refusal_text(event: [u8; 4], refusal: Refusal) -> [u8; 22]
    ensures { result ≡ text_for event (number_of refusal) 0 0 0 0 }
{
    quiet_text(event, refusal.number())
}

// Goes through the whole lines of the input while the output has room. The state stays in its place from line to line. (A line's place in the output is counted,
// since of parts that are lent for writing std says nothing afterwards.)
pub fn run(s: RackState, input: &[u8], output: &mut [u8]) -> Ran
    ensures { Lists s input.now output.old result output.new }
{
    let lines = (input.len() / 5).min(output.len() / 22);
    let formed = rack::well_formed(s);
    let mut state = s;
    for (n, line) in (0..lines).zip(input.chunks_exact(5)) {
        let event = parse(line);
        let outcome = answer_line(formed, &mut state, event);
        copy_line(
            &line_text(line, event, outcome),
            &mut output[22 * n..22 * n + 22],
        );
        if event.is_none() {
            return Ran {
                state,
                read: 5 * n + 5,
                written: 22 * n + 22,
                ended: true,
            };
        }
    }
    Ran {
        state,
        read: 5 * lines,
        written: 22 * lines,
        ended: false,
    }
}
