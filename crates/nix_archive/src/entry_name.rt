//! Which bytes may be the name of an entry, and in which order names come.
ghost use Rattle.std.specs.Prelude.{◌≡◌, ◌↔◌, IsTrue};
ghost use Rattle.std.specs.List.{list_all};
ghost use Rattle.nix_archive.specs.Trees.{IsAfter, IsName, is_name_byte, may_be_name};

use std::cmp::Ordering;

/// Whether some bytes are a name that comes after another one. Both are compared by bytes; after no
/// bytes comes each name. Looks at each byte a few times.
pub fn comes_next(before: &[u8], name: &[u8]) -> bool
    ensures { IsTrue result ↔ (IsName name.now × IsAfter before.now name.now) }
{
    is_entry_name(name) && matches!(before.cmp(&name), Ordering::Less)
}

/// Whether some bytes may be the name of an entry: there is one at least, none is zero or a slash,
/// and they are not `.` or `..`. Looks at each byte a few times.
pub fn is_entry_name(name: &[u8]) -> bool
    ensures { IsTrue result ↔ IsName name.now }
{
    !name.is_empty() && may_be_name(name)
}

// Whether some bytes may be a name, if they are any.
#[tactic(auto, unfolding(crate::specs::Trees::may_be_name))]
fn may_be_name(name: &[u8]) -> bool
    ensures { result ≡ may_be_name name.now }
{
    are_name_bytes(name) && name != b".".as_slice() && name != b"..".as_slice()
}

// Whether each byte may stand in a name.
fn are_name_bytes(bytes: &[u8]) -> bool
    ensures { result ≡ list_all is_name_byte bytes.now }
{
    bytes.iter().all(|byte| is_name_byte(*byte))
}

// Whether a byte may stand in a name.
#[tactic(auto, unfolding(crate::specs::Trees::is_name_byte))]
pub(crate) fn is_name_byte(byte: u8) -> bool
    ensures { result ≡ is_name_byte byte }
{
    byte != 0 && byte != b'/'
}
