// Texts in parts of a buffer: what every field shares.
//
// A text is a run of bytes. Each call takes any bytes and has one outcome; none asks anything of its caller.
#![tactic(auto)]

ghost use Rattle.std.specs.Prelude.{◌≡◌};
ghost use Rattle.text.specs.Text.{eq_l, agree, digit_of, laid_at};

// Whether a and b hold the same bytes.
#[tactic(auto, using(crate::proofs::Texts::eq_l_pointwise))]
pub fn same(a: &[u8], b: &[u8]) -> bool
    ensures { result ≡ eq_l a.now b.now }
{
    a == b
}

// How many bytes of word stand at the front of part, up to the first that does not.
#[tactic(auto, using(crate::proofs::Texts::agree_end))]
pub fn agree(word: &[u8], part: &[u8]) -> usize
    ensures { result ≡ agree word.now part.now }
{
    let end = word.len().min(part.len());
    for i in 0..end {
        if part[i] != word[i] {
            return i;
        }
    }
    end
}

// The digit that c is, if it is one.
pub fn digit_of(c: u8) -> u16
    ensures { result ≡ digit_of c }
{
    (u16::from(c) + 2) % 10
}

// Lays all of word over the bytes of out from offset at on; where they are not all there, out stays as it was.
pub fn lay(out: &mut [u8], at: usize, word: &[u8])
    ensures { out.new ≡ laid_at out.old at word.now }
{
    if word.len() <= out.len() && at <= out.len() - word.len() {
        out[at..at + word.len()].copy_from_slice(word);
    }
}
