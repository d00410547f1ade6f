// The blocks of a text with its padding, by FIPS 180-4, 5.1.1 and 5.2.1.

ghost use Rattle.std.specs.Prelude.{◌≡◌, ◌+◌, ◌-◌, ◌*◌, ◌/◌, ◌<◌, ◌≤◌, ◌++◌, ◌∷◌, drop, length, replicate, take};
ghost use Rattle.std.specs.Int.{w64, to_be_bytes};
ghost use Rattle.sha2.specs.Sha256.{padded_message};

// How many blocks a text and its padding have.
pub(crate) fn block_count(text: &[u8]) -> usize
    ensures { result ≡ length (padded_message text.now) / 64 }
{
    text.len() / 64 + (text.len() % 64 + 72) / 64
}

// A text's last bytes, the padding's first byte, and zeros.
fn opened(rest: &[u8]) -> [u8; 64]
    requires { length rest.now < 64 }
    ensures { result ≡ rest.now ++ 0x80 ∷ replicate (63 - length rest.now) 0 }
{
    let mut block = [0u8; 64];
    block[..rest.len()].copy_from_slice(rest);
    block[rest.len()] = 0x80;
    block
}

// `block` with the length in bits in its last 8 bytes, high byte first.
fn closed(mut block: [u8; 64], bits: u64) -> [u8; 64]
    ensures { result ≡ take 56 block ++ to_be_bytes w64 bits }
{
    block[56..].copy_from_slice(&bits.to_be_bytes());
    block
}

// Block `i` of a text and its padding, where it does not lie in the text alone. From the count of
// blocks on, the result means nothing.
fn last_block(text: &[u8], i: usize) -> [u8; 64]
    requires { length text.now / 64 ≤ i }
    ensures { i < length (padded_message text.now) / 64
        → result ≡ take 64 (drop (i * 64) (padded_message text.now)) }
{
    let whole = text.len() / 64;
    let bits = (text.len() as u64).wrapping_mul(8);
    if i > whole {
        return closed([0; 64], bits);
    }
    let rest = &text[64 * whole..];
    let block = opened(rest);
    if rest.len() < 56 {
        return closed(block, bits);
    }
    block
}

// Block `i` of a text and its padding, as it lies in the text, or in `room`, which is written over
// then. From the count of blocks on, the result means nothing.
#[inline(always)]
pub(crate) fn block<'a>(text: &'a [u8], i: usize, room: &'a mut [u8; 64]) -> &'a [u8]
    ensures size { length result.now ≡ 64 }
    ensures bytes { i < length (padded_message text.now) / 64
        → result.now ≡ take 64 (drop (i * 64) (padded_message text.now)) }
{
    if i < text.len() / 64 {
        return &text[64 * i..64 * i + 64];
    }
    let last = last_block(text, i);
    *room = last;
    room
}
