// Runs a trace over the rack of the table rack.tab, and writes the listing.
#![tactic(auto)]

ghost use Rattle.std.specs.Prelude.{◌≤◌, IfOk, IfSome, length};

use refusals::Refusal;
use state::RackState;
use std::io::Read;
use std::rt::Files;
use std::{fs, io};

// What stands between two reads: the state, and how many bytes of an unfinished line are held at the front of the input, a
// buffer of fixed size.
#[derive(Clone, Copy)]
struct Turn {
    state: RackState,
    held: usize,
}

// The next two functions stand in rackreport too. In a library they would be public functions whose results depend on what a read gives, and each public
// function of a library here has a law that its contract admits one result.

// Reads until the buffer is full, the source ends or a read fails, and returns how many bytes came. (No read of std keeps what came before a failure and says how
// much that is.)
fn read_some(source: &mut impl Read, buf: &mut [u8]) -> usize
    ensures { result ≤ length buf.new }
{
    let mut len = 0;
    while len < buf.len() {
        let got = source.read(&mut buf[len..]).unwrap_or(0);
        if got == 0 {
            return len;
        }
        len += got;
    }
    len
}

// The bytes of rack.tab, as many as there is room for; a file that cannot be opened counts as empty.
fn table_bytes(rt: &impl Files, file: &mut [u8]) -> usize
    ensures { result ≤ length file.new }
{
    match fs::open(rt, "rack.tab") {
        Ok(mut table) => read_some(&mut table, file),
        Err(_) => 0,
    }
}

// A line that stands for no event.
fn print_refusal(rt: &impl Print, stands_for: [u8; 4], refusal: Refusal) -> io::Result<()> {
    rt.write_all(&trace::refusal_text(stands_for, refusal))
}

// The input is at its end: an unfinished line is malformed.
fn ended(rt: &impl Print, held: usize) -> io::Result<()> {
    if 0 < held {
        print_refusal(rt, *b"----", Refusal::Malformed)?;
    }
    Ok(())
}

// Answers the lines that have arrived, which are the first len bytes of the input, with one write, and moves the rest to the front. After a malformed
// line there is no next turn.
fn answered(
    rt: &impl Print,
    state: RackState,
    len: usize,
    input: &mut [u8],
    output: &mut [u8],
) -> io::Result<Option<Turn>>
    requires { len ≤ length input.old }
    ensures { IfOk result (λ next. IfSome next (λ turn. turn.held ≤ length input.new)) }
{
    let ran = trace::run(state, &input[..len], output);
    rt.write_all(&output[..ran.written])?;
    if ran.ended {
        return Ok(None);
    }
    input.copy_within(ran.read..len, 0);
    Ok(Some(Turn {
        state: ran.state,
        held: len - ran.read,
    }))
}

// Waits for input once, and answers every line that has arrived before it returns.
fn take_turn(
    rt: &impl Print,
    source: &mut impl Read,
    turn: Turn,
    input: &mut [u8],
    output: &mut [u8],
) -> io::Result<Option<Turn>>
    requires { turn.held ≤ length input.old }
    ensures { IfOk result (λ next. IfSome next (λ turn. turn.held ≤ length input.new)) }
{
    let Turn { state, held } = turn;
    let got = source.read(&mut input[held..])?;
    if got == 0 {
        ended(rt, held)?;
        return Ok(None);
    }
    answered(rt, state, held + got, input, output)
}

// A proved loop has to end, and nothing says that the input does: the loop has more turns than any run uses up.
fn answer_all(rt: &impl Print, source: &mut impl Read, state: RackState) -> io::Result<()> {
    let mut input = [0u8; 16380];
    let mut output = [0u8; 72072];
    let mut turn = Turn { state, held: 0 };
    for _ in 0..u64::MAX {
        let Some(next) = take_turn(rt, source, turn, &mut input, &mut output)? else {
            break;
        };
        turn = next;
    }
    Ok(())
}

fn main(rt: HostRuntime) -> io::Result<()> {
    let mut file = [0u8; 8193];
    let len = table_bytes(&rt, &mut file);
    match rack::load(&file[..len]) {
        Ok(state) => answer_all(&rt, &mut rt.stdin(), state),
        Err(refusal) => print_refusal(&rt, *b"tab.", refusal),
    }
}
