// A line of the listing: its digits, and its 22 bytes. Digits are written by hand and not by `write!`, which writes all the digits of a number that has more
// than its field; and a line has an answer for every number, as `text_of` has, and not for the refusals alone.
ghost use Rattle.std.specs.Prelude.{◌≤◌, ◌≡◌, length, slice_index};
ghost use Rattle.arbiter.specs.Outcome.{as_outcome};
ghost use Rattle.state.specs.declared.RackState.{RackState};
ghost use Rattle.trace.specs.Line.{last_digit, line_text, text_for};

use super::{Event, refusal_text, text};
use arbiter::Reported;
use refusals::Refusal;

// A number's last digit, as a character.
pub(crate) fn last_digit(x: u16) -> u8
    ensures { result ≡ last_digit x }
{
    (x % 10) as u8 + b'0'
}

// A line of the listing whose winner, lines, stages and figure are 0.
#[tactic(auto, unfolding(crate::specs::Line::text_of))]
pub(crate) fn quiet_text(event: [u8; 4], answer: u8) -> [u8; 22]
    ensures { result ≡ text_for event answer 0 0 0 0 }
{
    let [a, b, c, d] = event;
    let mut line = *b"     00 00 0000 00 00\n";
    line[0] = a;
    line[1] = b;
    line[2] = c;
    line[3] = d;
    line[5] = last_digit((answer / 10) as u16);
    line[6] = last_digit(answer as u16);
    line
}

// A line of the listing, with all its digits.
#[tactic(auto, unfolding(crate::specs::Line::text_of))]
pub(crate) fn full_text(event: [u8; 4], answer: u8, reported: Reported) -> [u8; 22]
    ensures { result ≡ text_for event answer reported.winner reported.lines reported.stages reported.matches }
{
    let [a, b, c, d] = event;
    let answer10 = last_digit((answer / 10) as u16);
    let answer1 = last_digit(answer as u16);
    let winner10 = last_digit((reported.winner / 10) as u16);
    let winner1 = last_digit(reported.winner as u16);
    let lines1000 = last_digit(reported.lines / 1000);
    let lines100 = last_digit(reported.lines / 100);
    let lines10 = last_digit(reported.lines / 10);
    let lines1 = last_digit(reported.lines);
    let stages10 = last_digit((reported.stages / 10) as u16);
    let stages1 = last_digit(reported.stages as u16);
    let matches10 = last_digit((reported.matches / 10) as u16);
    let matches1 = last_digit(reported.matches as u16);
    [
        a, b, c, d, b' ', answer10, answer1, b' ', winner10, winner1, b' ', lines1000, lines100,
        lines10, lines1, b' ', stages10, stages1, b' ', matches10, matches1, b'\n',
    ]
}

// The line of the listing that answers a line of the trace: its four characters, or ---- where it is malformed.
#[tactic(auto, unfolding(crate::specs::Line::line_text))]
pub(crate) fn line_text(
    line: &[u8],
    event: Option<Event>,
    outcome: Result<Reported, Refusal>,
) -> [u8; 22]
    requires { 4 ≤ length line.now }
    ensures { (s : RackState) → let told = as_outcome s outcome in
        result ≡ line_text (slice_index line.now 0) (slice_index line.now 1) (slice_index line.now 2) (slice_index line.now 3) event
        told.answer told.winner told.lines told.stages told.matches }
{
    let shown = if event.is_some() {
        [line[0], line[1], line[2], line[3]]
    } else {
        *b"----"
    };
    match outcome {
        Ok(reported) => text(shown, 0, reported),
        Err(refusal) => refusal_text(shown, refusal),
    }
}

// Copies a line to a place as long as it is, byte by byte: std's `copy_from_slice` reads the line back from memory just after its bytes were put there, and a
// line that is refused then took a fifth longer.
pub(crate) fn copy_line(line: &[u8; 22], to: &mut [u8])
    requires { length to.old ≡ 22 }
    ensures { to.new ≡ line.now }
{
    for (i, byte) in line.iter().enumerate() {
        to[i] = *byte;
    }
}
