//! Where a byte stands in a text.
ghost use Rattle.std.specs.Prelude.{◌≡◌, ◌<◌, ℕ, Some, length};
ghost use Rattle.forms.specs.Find.{index_of};

/// The first place of a byte, counted from 0.
pub fn find(text: &[u8], byte: u8) -> Option<usize>
    ensures place { result ≡ index_of byte text.now }
    ensures within { (i : ℕ) → result ≡ Some i → i < length text.now }
{
    text.iter().position(|&other| other == byte)
}
