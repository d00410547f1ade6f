//! The words of a text.
ghost use Rattle.std.specs.Prelude.{◌≡◌, IfOk, map};
ghost use Rattle.build_outcome.specs.Tokens.{is_space, tokens};

use std::alloc::{AllocError, Global};

/// The tokens of a text, in order: what stands between its spaces, tabs, ends of lines and carriage
/// returns. An error where memory is refused, and no other. Costs one pass.
pub fn tokens_of(alloc: Global, text: &[u8]) -> Result<Vec<&[u8]>, AllocError>
    ensures { IfOk result (λ found. map (λ t. t.now) found.items ≡ tokens text.now) }
{
    text.split(|byte| is_space(*byte))
        .filter(|token| !token.is_empty())
        .collect(alloc)
}

/// Whether a byte is white space: a space, a tab, an end of a line or a carriage return.
pub fn is_space(byte: u8) -> bool
    ensures { result ≡ is_space byte }
{
    byte == b' ' || byte == b'\t' || byte == b'\n' || byte == b'\r'
}
