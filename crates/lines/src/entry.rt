// Lists of numbers of 16 bits, as a caller in Rattle has them and as C lends them.
ghost use Rattle.std.specs.Prelude.{ℕ, ◌<◌, ◌^◌, ◌≡◌, refl, List, length, get_or, set};
ghost use Rattle.lines.specs.Words.{words, put_word, words_put};

// What numbers of 16 bits are stored in: one u16 for each, or two bytes, low byte first, where an odd last byte is passed over.
// (A loop over numbers goes over their places: an iterator of them would be a type with a lifetime of its own, and a trait can ask for no such type.)
pub trait Entry: Copy {
    // The numbers that entries hold.
    ghost numbers_of: { List Self → List ℕ };

    // The entries with a number put at a place.
    ghost with_number: { List Self → ℕ → ℕ → List Self };

    // How many numbers there are.
    fn count(entries: &[Self]) -> usize
        ensures { result ≡ length (numbers_of entries.now) };

    // Number i.
    fn number(entries: &[Self], i: usize) -> u16
        requires { i < length (numbers_of entries.now) }
        ensures { result ≡ get_or (numbers_of entries.now) i 0 };

    // Puts a number at place i.
    fn put(entries: &mut [Self], i: usize, number: u16)
        requires { i < length (numbers_of entries.old) }
        ensures { entries.new ≡ with_number entries.old i number };

    // A number that was put is read back, and every other number is as it was.
    ghost reads_back: { (entries : List Self) (i number : ℕ) → number < 2 ^ 16 → i < length (numbers_of entries)
        → numbers_of (with_number entries i number) ≡ set (numbers_of entries) i number };
}

impl Entry for u16 {
    ghost numbers_of = { λ entries. entries };

    ghost with_number = { set };

    ghost reads_back = { λ entries i number fits below. refl };

    #[inline]
    fn count(entries: &[u16]) -> usize {
        entries.len()
    }

    #[inline]
    fn number(entries: &[u16], i: usize) -> u16 {
        entries[i]
    }

    #[inline]
    fn put(entries: &mut [u16], i: usize, number: u16) {
        entries[i] = number;
    }
}

#[tactic(auto, using(crate::proofs::Words::pairs))]
impl Entry for u8 {
    ghost numbers_of = { words };

    ghost with_number = { put_word };

    ghost reads_back = { words_put };

    #[inline]
    fn count(entries: &[u8]) -> usize {
        entries.len() / 2
    }

    #[inline]
    fn number(entries: &[u8], i: usize) -> u16 {
        u16::from_le_bytes([entries[2 * i], entries[2 * i + 1]])
    }

    #[inline]
    fn put(entries: &mut [u8], i: usize, number: u16) {
        let [low, high] = number.to_le_bytes();
        entries[2 * i] = low;
        entries[2 * i + 1] = high;
    }
}
