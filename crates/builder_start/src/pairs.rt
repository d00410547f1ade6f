//! The pairs of names and texts that tokens are.
ghost use Rattle.std.specs.Prelude.{◌≡◌, IfOk, map, option_map};
ghost use Rattle.std.specs.List.{list_all, list_any};
ghost use Rattle.nix_names.specs.Names.{same_bytes};
ghost use Rattle.builder_start.specs.Entries.{is_file_byte, is_file_name, is_file_start, pairs_of};
ghost use Rattle.builder_start.specs.private.Shown.{shown_pair};

use std::alloc::{AllocError, Global};

// A name, and the text of a path.
#[derive(Drop)]
pub(crate) struct Pair<'a> {
    pub(crate) name: &'a [u8],
    pub(crate) text: &'a [u8],
}

// The pairs that tokens are, one after the other; none where their number is odd.
pub(crate) fn pairs_of<'a>(
    alloc: Global,
    tokens: &[&'a [u8]],
) -> Result<Option<Vec<Pair<'a>>>, AllocError>
    ensures { IfOk result (λ pairs. option_map (λ v. map shown_pair v.items) pairs
        ≡ pairs_of (map (λ t. t.now) tokens.now)) }
{
    let mut pairs = Vec::new(alloc);
    let mut rest = tokens;
    'pairs: while let [name, text, more @ ..] = rest {
        pairs.push(Pair { name, text })?;
        rest = more;
    }
    if rest.is_empty() {
        Ok(Some(pairs))
    } else {
        Ok(None)
    }
}

// Whether some pair has a name.
pub(crate) fn is_named(pairs: &[Pair<'_>], name: &[u8]) -> bool
    ensures { result
        ≡ list_any (λ other. same_bytes other.0 name.now) (map shown_pair pairs.now) }
{
    'pairs: for pair in pairs {
        if pair.name == name {
            return true;
        }
    }
    false
}

// Whether a name is one that Nix takes for a file.
pub(crate) fn is_file_name(name: &[u8]) -> bool
    ensures { result ≡ is_file_name name.now }
{
    match name.split_first() {
        Some((first, rest)) => is_file_start(*first) && are_file_bytes(rest),
        None => false,
    }
}

// Whether each byte may follow the first one of a file's name.
fn are_file_bytes(bytes: &[u8]) -> bool
    ensures { result ≡ list_all is_file_byte bytes.now }
{
    'bytes: for byte in bytes {
        if !is_file_byte(*byte) {
            return false;
        }
    }
    true
}

// Whether a byte may begin a file's name.
fn is_file_start(byte: u8) -> bool
    ensures { result ≡ is_file_start byte }
{
    (b'A' <= byte && byte <= b'Z') || (b'a' <= byte && byte <= b'z') || byte == b'_'
}

// Whether a byte may follow the first one of a file's name.
fn is_file_byte(byte: u8) -> bool
    ensures { result ≡ is_file_byte byte }
{
    is_file_start(byte) || (b'0' <= byte && byte <= b'9') || byte == b'.' || byte == b'-'
}
