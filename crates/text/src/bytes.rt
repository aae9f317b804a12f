// Bytes as little-endian words.
ghost use Rattle.std.specs.Prelude.{◌≡◌, ◌++◌, ◌/◌, ◌≤◌, length, drop};
ghost use Rattle.text.specs.Words.{words_of};

// How many bytes a word has.
pub const WORD_BYTES: usize = 4;

// Writes the words that the bytes hold. Words past them stay, and bytes past the last whole word count for nothing.
pub fn write_words(bytes: &[u8], words: &mut [u32])
    requires { length bytes.now / 4 ≤ length words.old }
    ensures { words.new ≡ words_of bytes.now ++ drop (length bytes.now / 4) words.old }
{
    let (fours, _) = bytes.as_chunks::<WORD_BYTES>();
    for (i, four) in fours.iter().enumerate() {
        words[i] = u32::from_le_bytes(*four);
    }
}
