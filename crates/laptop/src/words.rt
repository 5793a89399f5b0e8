// Numbers of 16 bits as the bytes that C lends, two for each, low byte first.
ghost use Rattle.std.specs.Prelude.{◌<◌, ◌≡◌, get_or, length};
ghost use Rattle.lines.specs.Words.{put_word, words};

// Number i.
#[tactic(auto, using(lines::proofs::Words::pairs))]
pub(crate) fn word_at(s: &[u8], i: usize) -> u16
    requires { i < length (words s.now) }
    ensures { result ≡ get_or (words s.now) i 0 }
{
    cardfile::word(s[2 * i], s[2 * i + 1])
}

// Puts x as number i.
#[tactic(auto, using(lines::proofs::Words::pairs))]
pub(crate) fn put_word(x: u16, i: usize, out: &mut [u8])
    requires { i < length (words out.old) }
    ensures { out.new ≡ put_word out.old i x }
{
    let [low, high] = x.to_le_bytes();
    out[2 * i] = low;
    out[2 * i + 1] = high;
}
