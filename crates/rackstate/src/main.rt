// Takes states of a rack as bytes, each with an event, a save or a question, and writes what the rack makes of each.
//
// A record in has 331 bytes. Its first 329 are a state:
//   0    number width k
//   1    rule
//   2    the slot of each number, 64 bytes
//   66   whether each number waits, 64 bytes: 0 for no, anything else for yes
//   130  the waiting count of each number, 64 bytes
//   194  whether each number is in the batch, 64 bytes, as for waiting
//   258  whether each number is inhibited, 64 bytes, as for waiting
//   322  last winner
//   323  the bus: 0 free, 1 held, anything else held with a card elected to follow
//   324  the holder
//   325  the elected card
//   326  the kept value of the lines, low byte first, 2 bytes
//   328  the stored number of waiting cards
// Then what to do with it:
//   329  the letter: Q, A or R for an event, S for a save, N for how many cards wait, W for who is next; any other letter is an event too, and is refused
//        with 18
//   330  the number of the event, or how many bytes are lent to the save; each of them holds EE before (in hex)
//
// A record out has 335 bytes, and after a save those that were lent. Its first 329 are the state that the event returns, or the state that was
// saved or asked, laid out as above: yes is 1, a bus with a card elected is 2, the holder of a free bus is 0, and so is the elected card where there is
// none. Then, for an event:
//   329  answer
//   330  winner
//   331  settled lines, low byte first, 2 bytes
//   333  stages
//   334  how many competing numbers equal the settled lines
// for a save:
//   329  answer
//   330  length, low byte first, 2 bytes
//   332  zeros, 3 bytes
//   335  the bytes that were lent, as the save left them
// for how many cards wait:
//   329  answer
//   330  how many
//   331  zeros, 4 bytes
// and for who is next:
//   329  answer
//   330  the card that would win
//   331  zeros, 4 bytes
//
// Each record is answered before the next is read. The program ends where the input ends or a record is short.
#![tactic(auto)]

use arbiter::Reported;
use layout::{AFTER, RECORD, answer_of, state_of};
use refusals::Refusal;
use state::RackState;
use std::io;
use std::io::Read;

mod layout;

// What a record out says of a refusal, whatever was asked.
fn refused(refusal: Refusal) -> [u8; 6] {
    [refusal.number(), 0, 0, 0, 0, 0]
}

// What it says of an event that is done.
fn reported(event: Reported) -> [u8; 6] {
    let [low, high] = event.lines.to_le_bytes();
    [0, event.winner, low, high, event.stages, event.matches]
}

// Writes what an event makes of the state. A refused one leaves it as it is.
fn answer_event(rt: &impl Print, state: RackState, letter: u8, number: u8) -> io::Result<()> {
    let out = match rack::event(state, letter, number) {
        Ok(done) => answer_of(done.state, reported(done.reported)),
        Err(refusal) => answer_of(state, refused(refusal)),
    };
    rt.write_all(&out)
}

// Saves the state to the bytes lent, and writes the answer and those bytes.
fn answer_save(rt: &impl Print, state: RackState, lent: &mut [u8]) -> io::Result<()> {
    let about = match rack::save(state, lent) {
        Ok(length) => {
            let [low, high, ..] = length.to_le_bytes();
            [0, low, high, 0, 0, 0]
        }
        Err(refusal) => refused(refusal),
    };
    rt.write_all(&answer_of(state, about))?;
    rt.write_all(lent)
}

// Lends so many bytes to a save, each of which holds EE.
fn lend_to_save(rt: &impl Print, state: RackState, number: u8) -> io::Result<()> {
    let mut buffer = [0xEE; 255];
    answer_save(rt, state, &mut buffer[..usize::from(number)])
}

// Writes the number that was asked of the state, or why there is none.
fn answer_question(rt: &impl Print, state: RackState, told: Result<u8, Refusal>) -> io::Result<()> {
    let about = match told {
        Ok(number) => [0, number, 0, 0, 0, 0],
        Err(refusal) => refused(refusal),
    };
    rt.write_all(&answer_of(state, about))
}

// Answers one record.
fn answer(rt: &impl Print, bytes: &[u8; RECORD]) -> io::Result<()> {
    let state = state_of(bytes);
    let number = bytes[AFTER + 1];
    match bytes[AFTER] {
        b'S' => lend_to_save(rt, state, number),
        b'N' => answer_question(rt, state, rack::waiting_count(state)),
        b'W' => answer_question(rt, state, rack::next_winner(state)),
        letter => answer_event(rt, state, letter, number),
    }
}

// Reads the next record; whether it is whole.
fn next_record(source: &mut impl Read, bytes: &mut [u8; RECORD]) -> io::Result<bool> {
    match source.read_exact(bytes) {
        Ok(()) => Ok(true),
        Err(e) if e.kind() == io::ErrorKind::UnexpectedEof => Ok(false),
        Err(e) => Err(e),
    }
}

// A proved loop has to end, and nothing says that the input does: the loop has more turns than any run uses up.
fn main(rt: HostRuntime) -> io::Result<()> {
    let mut source = rt.stdin();
    let mut bytes = [0u8; RECORD];
    for _ in 0..u64::MAX {
        if !next_record(&mut source, &mut bytes)? {
            break;
        }
        answer(&rt, &bytes)?;
    }
    Ok(())
}
