// The parts of a line of the trace.
ghost use Rattle.std.specs.Prelude.{◌≡◌};
ghost use Rattle.trace.specs.Line.{digit_of, event_by};

use super::Event;

// The number of a decimal digit.
pub(crate) fn digit(byte: u8) -> Option<u8>
    ensures { result ≡ digit_of byte }
{
    match byte {
        b'0'..=b'9' => Some(byte - b'0'),
        _ => None,
    }
}

// The event of a letter with its number, which is 00 for an arbitration.
pub(crate) fn event_by(letter: u8, number: u8) -> Option<Event>
    ensures { result ≡ event_by letter number }
{
    match letter {
        b'Q' => Some(Event::Request(number)),
        b'A' if number == 0 => Some(Event::Arbitrate),
        b'R' => Some(Event::Release(number)),
        _ => None,
    }
}
