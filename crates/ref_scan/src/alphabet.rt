//! The base-32 alphabet, as bytes are tested against it.
ghost use Rattle.std.specs.Prelude.{◌≡◌, ◌<◌, ◌≤◌, ◌+◌, MatchOption, slice_index, false};
ghost use Rattle.nix_names.specs.Base32.{is_digit};
ghost use Rattle.ref_scan.specs.private.Parts.{AreDigits};

const N: bool = false;

const Y: bool = true;

// For each byte whether it is one of `0123456789abcdfghijklmnpqrsvwxyz`.
static IS_DIGIT: [bool; 256] = [
    N, N, N, N, N, N, N, N, N, N, N, N, N, N, N, N, N, N, N, N, N, N, N, N, N, N, N, N, N, N, N, N,
    N, N, N, N, N, N, N, N, N, N, N, N, N, N, N, N, Y, Y, Y, Y, Y, Y, Y, Y, Y, Y, N, N, N, N, N, N,
    N, N, N, N, N, N, N, N, N, N, N, N, N, N, N, N, N, N, N, N, N, N, N, N, N, N, N, N, N, N, N, N,
    N, Y, Y, Y, Y, N, Y, Y, Y, Y, Y, Y, Y, Y, Y, N, Y, Y, Y, Y, N, N, Y, Y, Y, Y, Y, N, N, N, N, N,
    N, N, N, N, N, N, N, N, N, N, N, N, N, N, N, N, N, N, N, N, N, N, N, N, N, N, N, N, N, N, N, N,
    N, N, N, N, N, N, N, N, N, N, N, N, N, N, N, N, N, N, N, N, N, N, N, N, N, N, N, N, N, N, N, N,
    N, N, N, N, N, N, N, N, N, N, N, N, N, N, N, N, N, N, N, N, N, N, N, N, N, N, N, N, N, N, N, N,
    N, N, N, N, N, N, N, N, N, N, N, N, N, N, N, N, N, N, N, N, N, N, N, N, N, N, N, N, N, N, N, N,
];

// Whether a byte is a base-32 digit.
#[inline(always)]
pub(crate) fn is_digit(byte: u8) -> bool
    ensures { result ≡ is_digit byte }
{
    IS_DIGIT[byte as usize]
}

// The offset of the last byte outside the alphabet, from this offset on.
#[inline(always)]
pub(crate) fn last_foreign(window: &[u8; 32], from: usize) -> Option<usize>
    requires { from ≤ 32 }
    ensures { MatchOption result (AreDigits window.now from 32) (λ offset. (from ≤ offset)
        × (offset < 32) × (is_digit (slice_index window.now offset) ≡ false)
        × AreDigits window.now (offset + 1) 32) }
{
    let mut offset = 32;
    while offset > from {
        offset -= 1;
        if !is_digit(window[offset]) {
            return Some(offset);
        }
    }
    None
}
