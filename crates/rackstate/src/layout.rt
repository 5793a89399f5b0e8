// The layout of a record in and of a record out, which the program's first lines describe.
ghost use Rattle.std.specs.Prelude.{◌+◌, ◌≤◌, length};

use cards::Table;
use state::{Bus, RackState};

const K: usize = 0;

const RULE: usize = 1;

const SLOTS: usize = 2;

const WAITING: usize = SLOTS + 64;

const COUNTS: usize = WAITING + 64;

const BATCH: usize = COUNTS + 64;

const INHIBITED: usize = BATCH + 64;

const LAST: usize = INHIBITED + 64;

const HELD: usize = LAST + 1;

const HOLDER: usize = HELD + 1;

const ELECTED: usize = HOLDER + 1;

const VALUE: usize = ELECTED + 1;

const WAITERS: usize = VALUE + 2;

// Where the state ends, and what comes after it begins.
pub(crate) const AFTER: usize = WAITERS + 1;

// The state, a letter and a number.
pub(crate) const RECORD: usize = AFTER + 2;

// The state, and six bytes about the event, the save or the question.
const ANSWER: usize = AFTER + 6;

// The 64 bytes of a record from at on.
fn numbers_at(bytes: &[u8; RECORD], at: usize) -> [u8; 64]
    requires { at + 64 ≤ RECORD }
{
    let mut numbers = [0; 64];
    numbers.copy_from_slice(&bytes[at..at + 64]);
    numbers
}

// The same as marks: 0 for no, anything else for yes. (A `map` of the array takes some twenty instructions for each mark, since it makes the array anew
// one by one; this loop takes sixteen at once.)
fn marks_at(bytes: &[u8; RECORD], at: usize) -> [bool; 64]
    requires { at + 64 ≤ RECORD }
{
    let mut marks = [false; 64];
    for (mark, byte) in marks.iter_mut().zip(&bytes[at..at + 64]) {
        *mark = *byte != 0;
    }
    marks
}

// The bus as a record tells it: free, held, or held with a card elected.
fn bus_at(bytes: &[u8; RECORD]) -> Bus {
    match (bytes[HELD], bytes[HOLDER], bytes[ELECTED]) {
        (0, _, _) => Bus::Free,
        (1, holder, _) => Bus::Held(holder),
        (_, holder, elected) => Bus::Elected(holder, elected),
    }
}

// The state at the front of a record.
pub(crate) fn state_of(bytes: &[u8; RECORD]) -> RackState {
    RackState {
        table: Table {
            k: bytes[K],
            rule: bytes[RULE],
            slots: numbers_at(bytes, SLOTS),
        },
        waiting: marks_at(bytes, WAITING),
        counts: numbers_at(bytes, COUNTS),
        batch: marks_at(bytes, BATCH),
        inhibited: marks_at(bytes, INHIBITED),
        last: bytes[LAST],
        bus: bus_at(bytes),
        value: u16::from_le_bytes([bytes[VALUE], bytes[VALUE + 1]]),
        waiters: bytes[WAITERS],
    }
}

// Puts bytes into a record out from at on.
fn put(out: &mut [u8; ANSWER], at: usize, bytes: &[u8])
    requires { at + length bytes.now ≤ ANSWER }
{
    out[at..at + bytes.len()].copy_from_slice(bytes);
}

// The same for marks: 1 for yes, 0 for no.
fn put_marks(out: &mut [u8; ANSWER], at: usize, marks: &[bool; 64])
    requires { at + 64 ≤ ANSWER }
{
    for (byte, mark) in out[at..at + 64].iter_mut().zip(marks) {
        *byte = u8::from(*mark);
    }
}

// The state at the front of a record out, 1 for yes and 0 for no, and after it the six bytes about what was asked.
pub(crate) fn answer_of(s: RackState, about: [u8; 6]) -> [u8; ANSWER] {
    let mut out = [0; ANSWER];
    out[K] = s.table.k;
    out[RULE] = s.table.rule;
    put(&mut out, SLOTS, &s.table.slots);
    put_marks(&mut out, WAITING, &s.waiting);
    put(&mut out, COUNTS, &s.counts);
    put_marks(&mut out, BATCH, &s.batch);
    put_marks(&mut out, INHIBITED, &s.inhibited);
    out[LAST] = s.last;
    (out[HELD], out[HOLDER], out[ELECTED]) = match s.bus {
        Bus::Free => (0, 0, 0),
        Bus::Held(holder) => (1, holder, 0),
        Bus::Elected(holder, elected) => (2, holder, elected),
    };
    put(&mut out, VALUE, &s.value.to_le_bytes());
    out[WAITERS] = s.waiters;
    put(&mut out, AFTER, &about);
    out
}
