// Counts a trace over the rack of the table rack.tab, and writes the waiting report: docs/REPORT.md.
#![tactic(auto)]

ghost use Rattle.std.specs.Prelude.{◌≡◌, ◌≤◌, IfOk, length};
ghost use Rattle.arbiter.specs.Arbitrate.{event_of};
ghost use Rattle.state.specs.declared.RackState.{RackState as State};
ghost use Rattle.tally.specs.Tally.{zero_tally};
ghost use Rattle.trace.specs.Line.{line_outcome};

use refusals::Refusal;
use report::CardLine;
use state::RackState;
use std::env::FillError;
use std::io::Read;
use std::rt::{Env, Files};
use std::{fs, io};
use tally::{Figures, Tallied, Tally};
use trace::Event;

// The event to count for a line, by its letter and number, as a tally takes events, which the rack answers as it answers the line. No event has the letter 0, so that a malformed
// line gets 18.
#[tactic(auto, unfolding(arbiter::specs::Arbitrate::event_of, trace::specs::Line::line_outcome))]
fn event_of(line: Option<Event>) -> (u8, u8)
    ensures { (s : State) → event_of s result.0 result.1 ≡ line_outcome s line }
{
    match line {
        Some(Event::Request(number)) => (b'Q', number),
        Some(Event::Arbitrate) => (b'A', 0),
        Some(Event::Release(number)) => (b'R', number),
        None => (0, 0),
    }
}

// Reads until the buffer is full or the source ends, and returns how many bytes came, which `read_exact` does not tell of a short line. An error is handed
// on, where `read_some` below keeps what came before it.
fn read_full(source: &mut impl Read, buf: &mut [u8]) -> io::Result<usize>
    ensures { IfOk result (λ n. n ≤ length buf.new) }
{
    let mut len = 0;
    while len < buf.len() {
        let got = source.read(&mut buf[len..])?;
        if got == 0 {
            return Ok(len);
        }
        len += got;
    }
    Ok(len)
}

// Reads a line, and gives the event to count for it; nothing where the input ends. A line that the end of the input cuts short is malformed.
fn next_event(source: &mut impl Read) -> io::Result<Option<(u8, u8)>> {
    let mut bytes = [0u8; 5];
    let len = read_full(source, &mut bytes)?;
    if len == 0 {
        return Ok(None);
    }
    Ok(Some(event_of(trace::parse(&bytes[..len]))))
}

// Whether a refusal ends the counting: 18 and 31, and 17 and 41, which a count from a fresh state never meets. A refusal of a single event does not.
fn ends_counting(refusal: Refusal) -> bool {
    matches!(
        refusal,
        Refusal::NotWellFormed | Refusal::Malformed | Refusal::TallyFull | Refusal::TallyBad
    )
}

fn zero_tally() -> Tally
    ensures { result ≡ zero_tally }
{
    let none = Figures {
        grants: 0,
        sum: 0,
        squares: 0,
        running: 0,
    };
    Tally {
        events: 0,
        cards: [none; 64],
    }
}

// A rack, and what is counted of its events.
#[derive(Clone, Copy)]
struct Count {
    state: RackState,
    tally: Tally,
    square: [[u16; 64]; 64],
}

// The first line, with the refusal that there was, if there was one.
fn print_opening(
    rt: &impl Print,
    why: [u8; 4],
    refusal: Option<Refusal>,
    events: u16,
) -> io::Result<()> {
    let answer = refusal.map_or(0, |refusal| refusal.number());
    rt.write_all(&report::opening(why, answer, events))
}

// (This and the square's lines go over the slots alike; each has something else to print, and a closure for it would be no shorter.)
fn print_cards(rt: &impl Print, slots: &[u8; 64], lines: &[CardLine; 64]) -> io::Result<()> {
    for (number, slot) in slots.iter().enumerate() {
        if *slot != 0 {
            rt.write_all(&report::card_text(*slot, number as u8, lines[number]))?;
        }
    }
    Ok(())
}

fn print_row(rt: &impl Print, number: u8, slots: &[u8; 64], row: &[u16; 64]) -> io::Result<()> {
    let mut line = [0u8; 387];
    let len = report::row_text(number, *slots, *row, &mut line);
    rt.write_all(&line[..len])
}

fn print_square(rt: &impl Print, slots: &[u8; 64], square: &[[u16; 64]; 64]) -> io::Result<()> {
    for (number, slot) in slots.iter().enumerate() {
        if *slot != 0 {
            print_row(rt, number as u8, slots, &square[number])?;
        }
    }
    Ok(())
}

// The figures are there, since what is counted from a fresh state is not refused with 41.
fn print_report(
    rt: &impl Print,
    count: &Count,
    ended: Option<Refusal>,
    with_square: bool,
) -> io::Result<()> {
    let Count {
        state,
        tally,
        square,
    } = *count;
    print_opening(rt, *b"end.", ended, tally.events)?;
    if let Ok(lines) = report::waiting_report(tally, square) {
        print_cards(rt, &state.table.slots, &lines)?;
    }
    if with_square {
        print_square(rt, &state.table.slots, &square)?;
    }
    Ok(())
}

// Counts the events. A refused one changes nothing. (A proved loop has to end, and nothing says that the input does: the loop has more turns than any run
// uses up. The tally is called in the loop itself: a function that is lent the whole `Count` cleared and copied the square once more for each event.)
fn count_all(
    rt: &impl Print,
    source: &mut impl Read,
    start: RackState,
    with_square: bool,
) -> io::Result<()> {
    let mut count = Count {
        state: start,
        tally: zero_tally(),
        square: [[0; 64]; 64],
    };
    let mut ended = None;
    for _ in 0..u64::MAX {
        let Some((letter, number)) = next_event(source)? else {
            break;
        };
        let Tallied { event, square } = tally::event_tallied(
            &mut count.tally,
            count.square,
            count.state,
            letter,
            number,
        );
        count.square = square;
        match event {
            Ok(done) => count.state = done.state,
            Err(refusal) if ends_counting(refusal) => {
                ended = Some(refusal);
                break;
            }
            Err(_) => {}
        }
    }
    print_report(rt, &count, ended, with_square)
}

// The next two functions stand in racktrace too. In a library they would be public functions whose results depend on what a read gives, and each public
// function of a library here has a law that its contract admits one result.

// Reads until the buffer is full, the source ends or a read fails, and returns how many bytes came. (No read of std keeps what came before a failure and says how
// much that is.)
fn read_some(source: &mut impl Read, buf: &mut [u8]) -> usize
    ensures { result ≤ length buf.new }
{
    let mut len = 0;
    while len < buf.len() {
        let got = source.read(&mut buf[len..]).unwrap_or(0);
        if got == 0 {
            return len;
        }
        len += got;
    }
    len
}

// The bytes of rack.tab, as many as there is room for; a file that cannot be opened counts as empty.
fn table_bytes(rt: &impl Files, file: &mut [u8]) -> usize
    ensures { result ≤ length file.new }
{
    match fs::open(rt, "rack.tab") {
        Ok(mut table) => read_some(&mut table, file),
        Err(_) => 0,
    }
}

fn report_table<R: Files + Print>(
    rt: &R,
    source: &mut impl Read,
    with_square: bool,
) -> io::Result<()> {
    let mut file = [0u8; 8193];
    let len = table_bytes(rt, &mut file);
    match rack::load(&file[..len]) {
        Ok(state) => count_all(rt, source, state, with_square),
        Err(refusal) => print_opening(rt, *b"tab.", Some(refusal), 0),
    }
}

// Whether there is an argument i. One that does not fit the buffer is there too.
fn has_argument(rt: &impl Env, i: usize) -> bool {
    !matches!(rt.arg(i, &mut []), Err(FillError::NotPresent))
}

// Whether the first argument is the word square. A longer one does not fit.
fn asks_square(rt: &impl Env) -> bool {
    let mut word = [0u8; 6];
    matches!(rt.arg(1, &mut word), Ok(6)) && word == *b"square"
}

fn main(rt: HostRuntime) -> io::Result<()> {
    let mut source = rt.stdin();
    if !has_argument(&rt, 1) {
        return report_table(&rt, &mut source, false);
    }
    if !has_argument(&rt, 2) && asks_square(&rt) {
        return report_table(&rt, &mut source, true);
    }
    eprintln!(rt; "usage: rackreport [square] < trace")
}
