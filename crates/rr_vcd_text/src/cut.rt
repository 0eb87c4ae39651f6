//! Where words begin and end.
ghost use Rattle.std.specs.Prelude.{◌≡◌, ℕ, ◌+◌, ◌<◌, ◌≤◌, ◌⊎◌, ◌^◌, [], length, take, drop, get_or, true, false};
ghost use Rattle.rr_vcd_text.specs.Words.{is_white as is_white_of, words_from};

pub(crate) fn is_white(byte: u8) -> bool
    ensures { result ≡ is_white_of byte }
{
    byte == b' ' || byte == b'\t' || byte == b'\n' || byte == b'\r' || byte == 0x0c
}

/// A text behind the white space at its head, and how many line feeds stand above it.
pub(crate) fn skipped(text: &[u8], above: u64) -> (&[u8], u64)
    requires fits { above + length text.now < 2 ^ 64 }
    ensures same { words_from (result.1 + 1) [] result.0.now ≡ words_from (above + 1) [] text.now }
    ensures fits { result.1 + length result.0.now < 2 ^ 64 }
    ensures fewer { length result.0.now ≤ length text.now }
    ensures word { 0 < length result.0.now → is_white_of (get_or result.0.now 0 0) ≡ false }
{
    let mut lines = above;
    for (at, &byte) in text.iter().enumerate() {
        if !is_white(byte) {
            return (&text[at..], lines);
        }
        if byte == b'\n' {
            lines += 1;
        }
    }
    (&text[text.len()..], lines)
}

/// How many bytes at the head of a text stand before white space.
pub(crate) fn word_length(text: &[u8]) -> usize
    ensures same { (line : ℕ) → words_from line (take result text.now) (drop result text.now) ≡ words_from line [] text.now }
    ensures within { result ≤ length text.now }
    ensures ends { (result ≡ length text.now) ⊎ (is_white_of (get_or text.now result 0) ≡ true) }
{
    for (at, &byte) in text.iter().enumerate() {
        if is_white(byte) {
            return at;
        }
    }
    text.len()
}
