// The lines of the report as text. Numbers are written by hand and not by `write!`, which writes all the digits of a number that has more than its field.
ghost use Rattle.std.specs.Prelude.{◌+◌, ◌≤◌, ◌≡◌, length, slice_index};
ghost use Rattle.report.specs.Text.{digits_of, with_digits, opening_text, card_text};

use super::CardLine;

// Fills a field with the last digits of n, and with zeros in front: the last digit, and then the field before it.
#[tactic(auto, unfolding(crate::specs::Text::digits_of))]
fn fill_digits(field: &mut [u8], n: u64)
    ensures { field.new ≡ digits_of (length field.old) n }
{
    if let Some((last, front)) = field.split_last_mut() {
        *last = (n % 10) as u8 + b'0';
        fill_digits(front, n / 10);
    }
}

// Writes the last digits of n, so many of them, at that place.
pub(crate) fn put_digits(line: &mut [u8], at: usize, width: usize, n: u64)
    requires { at + width ≤ length line.old }
    ensures { line.new ≡ with_digits at width n line.old }
{
    fill_digits(&mut line[at..at + width], n);
}

// The first line: `end.` or `tab.`, why the counting ended (any number, as `opening_text` has it), and how many events were counted.
#[tactic(auto, unfolding(crate::specs::Text::opening_text, crate::specs::Text::digits_of))]
pub fn opening(why: [u8; 4], answer: u8, events: u16) -> [u8; 14]
    ensures { result ≡ opening_text (slice_index why 0) (slice_index why 1) (slice_index why 2) (slice_index why 3) answer events }
{
    let mut line = *b"     00 00000\n";
    line[..4].copy_from_slice(&why);
    put_digits(&mut line, 5, 2, u64::from(answer));
    put_digits(&mut line, 8, 5, u64::from(events));
    line
}

// A card's line: its slot and number, its grants, its mean wait, the sum of its squared waits, and its variance.
pub fn card_text(slot: u8, number: u8, card: CardLine) -> [u8; 62]
    ensures { result ≡ card_text slot number card }
{
    let mut line = *b"00 00 00000 00000/00000 0000000000 000000000000000/0000000000\n";
    put_digits(&mut line, 0, 2, u64::from(slot));
    put_digits(&mut line, 3, 2, u64::from(number));
    put_digits(&mut line, 6, 5, u64::from(card.grants));
    put_digits(&mut line, 12, 5, u64::from(card.sum));
    put_digits(&mut line, 18, 5, u64::from(card.grants));
    put_digits(&mut line, 24, 10, card.squares);
    put_digits(&mut line, 35, 15, card.numerator);
    put_digits(&mut line, 51, 10, card.denominator);
    line
}
