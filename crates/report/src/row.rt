// A line of the square as text.
ghost use Rattle.std.specs.Prelude.{◌+◌, ◌≤◌, ◌++◌, ◌≡◌, length, take, drop};
ghost use Rattle.report.specs.Text.{entry_text, row_text};

use super::text::put_digits;

// A number's entry at that place, if the number has a slot; returns the place after it. (It moves on only past a slot: parts of six bytes zipped with the
// numbers would be no plainer.)
fn put_entry(line: &mut [u8], at: usize, slot: u8, entry: u16) -> usize
    requires { at + 6 ≤ length line.old }
    ensures { (result ≡ at + length (entry_text slot entry)) × (line.new
        ≡ (take at line.old ++ (entry_text slot entry ++ drop (at + length (entry_text slot entry)) line.old))) }
{
    if slot == 0 {
        return at;
    }
    line[at] = b' ';
    put_digits(line, at + 1, 5, u64::from(entry));
    at + 6
}

// The line of a number at the front of a buffer, with an entry for each number that has a slot; returns its length, which is 387 for 64 entries.
// The caller's buffer is of a fixed size, as all memory of the rack is, and the length beside it says how much of it is the line.
pub fn row_text(number: u8, slots: [u8; 64], row: [u16; 64], line: &mut [u8; 387]) -> usize
    ensures { (result ≡ length (row_text number slots row))
        × (line.new ≡ (row_text number slots row ++ drop (length (row_text number slots row)) line.old)) }
{
    put_digits(line, 0, 2, u64::from(number));
    let mut at = 2;
    // (The number counts both lists; zipped, the entries would have no number of their own to be proved by.)
    for (c, slot) in slots.iter().enumerate() {
        at = put_entry(line, at, *slot, row[c]);
    }
    line[at] = b'\n';
    at + 1
}
