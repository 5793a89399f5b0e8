// The twelve bytes of counts and offsets, and their checks.
ghost use Rattle.std.specs.Prelude.{◌+◌, ◌≤◌, ◌<◌, ◌≡◌, length};
ghost use Rattle.cardfile.specs.Format.{word_at, header_of, edition_good, ranges_good, layout_good};

use super::{Header, word};
use cards::top_number;

// Two bytes, low byte first.
pub(crate) fn word_at(s: &[u8], at: usize) -> u16
    requires { at + 1 < length s.now }
    ensures { result ≡ word_at s.now at }
{
    word(s[at], s[at + 1])
}

impl Header {
    // The header, each field at its place.
    #[tactic(auto, unfolding(crate::specs::Format::header_of))]
    pub(crate) fn read(file: &[u8]) -> Header
        requires { 12 ≤ length file.now }
        ensures { result ≡ header_of file.now }
    {
        Header {
            edition: word_at(file, 0),
            columns: file[2],
            cards: file[3],
            width: file[4],
            rule: file[5],
            directory: word_at(file, 6),
            records: word_at(file, 8),
            length: word_at(file, 10),
        }
    }

    // Refusal 2 otherwise.
    pub(crate) fn edition_good(self) -> bool
        ensures { result ≡ edition_good self }
    {
        self.edition == 1
    }

    // Refusal 3 otherwise: F, N, k, rule, record length, and N against k.
    #[tactic(auto, using(cards::proofs::TableKnown::top_is, std::proofs::lemmas::Bool::Decides::nat_tests), unfolding(crate::specs::Format::ranges_good))]
    pub(crate) fn ranges_good(self) -> bool
        ensures { result ≡ ranges_good self }
    {
        matches!(self.columns, 2..=16)
            && matches!(self.cards, 1..=63)
            && matches!(self.width, 1..=6)
            && self.rule <= 4
            && matches!(self.length, 2..=64)
            && self.cards <= top_number(self.width)
    }

    // Refusal 4 otherwise: the directory ends by the records offset, and the records end with the file.
    #[tactic(auto, using(std::proofs::lemmas::Bool::Decides::nat_tests), unfolding(crate::specs::Format::layout_good))]
    pub(crate) fn layout_good(self, file: usize) -> bool
        ensures { result ≡ layout_good self file }
    {
        let start = self.records as usize;
        let directory_end = self.directory as usize + 6 * (self.columns as usize);
        let end = start + (self.cards as usize) * (self.length as usize);
        12 <= self.directory && directory_end <= start && end == file
    }
}
