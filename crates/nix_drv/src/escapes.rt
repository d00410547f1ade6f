//! The bytes that strings write by an escape.

ghost use Rattle.std.specs.Prelude.{false, ◌≡◌, ◌≤◌, ℕ, ◌<◌, true, is_some, length, position, slice_index};
ghost use Rattle.nix_drv.specs.Strings.{is_plain, letter, unescaped};

// The letter of the byte's escape, if the byte has an escape.
pub(crate) fn letter_of(byte: u8) -> Option<u8>
    ensures { result ≡ letter byte }
{
    match byte {
        b'"' => Some(b'"'),
        b'\\' => Some(b'\\'),
        b'\n' => Some(b'n'),
        b'\r' => Some(b'r'),
        b'\t' => Some(b't'),
        _ => None,
    }
}

// The byte whose escape has the letter, if there is one.
pub(crate) fn unescape(letter: u8) -> Option<u8>
    ensures { result ≡ unescaped letter }
{
    match letter {
        b'"' => Some(b'"'),
        b'\\' => Some(b'\\'),
        b'n' => Some(b'\n'),
        b'r' => Some(b'\r'),
        b't' => Some(b'\t'),
        _ => None,
    }
}

// The offset of the first byte that has an escape, if there is one.
fn escape_offset(bytes: &[u8]) -> Option<usize>
    ensures { result ≡ position (λ b. is_some (letter b)) bytes.now }
{
    bytes.iter().position(|byte| letter_of(*byte).is_some())
}

// The number of bytes before the first that has an escape, or of all bytes where none has one.
// Looks at no byte after that first one.
pub(crate) fn plain_len(bytes: &[u8]) -> usize
    ensures within { result ≤ length bytes.now }
    ensures plain { (k : ℕ) → k < result → is_plain (slice_index bytes.now k) ≡ true }
    ensures ends { result < length bytes.now → is_plain (slice_index bytes.now result) ≡ false }
{
    escape_offset(bytes).unwrap_or(bytes.len())
}
