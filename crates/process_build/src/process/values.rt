//! The values of an environment's entries.
ghost use Rattle.std.specs.Prelude.{◌≡◌, bytes_eq, if◌then◌else◌, map};
ghost use Rattle.std.specs.List.{list_any};
ghost use Rattle.nix_drv.specs.Parts.{entry_of};
ghost use Rattle.process_build.specs.Setups.{or_empty, value_of};

use nix_drv::EnvEntry;

/// Whether a key is one of these names.
pub fn is_among(names: &[&[u8]], key: &[u8]) -> bool
    ensures { result ≡ list_any (λ n. bytes_eq n.now key.now) names.now }
{
    names.iter().any(|name| *name == key)
}

/// The value that a key has in an environment whose entries are set in this order, or nothing where
/// it has none.
pub fn value_in<'a>(entries: &'a [EnvEntry], key: &[u8]) -> &'a [u8]
    ensures { result.now ≡ or_empty (value_of key.now (map entry_of entries.now)) }
{
    let mut value: &[u8] = b"";
    for entry in entries {
        value = value_or(entry, key, value);
    }
    value
}

// The value of an entry, if it has this key, and else another one.
fn value_or<'a>(entry: &'a EnvEntry, key: &[u8], other: &'a [u8]) -> &'a [u8]
    ensures { result.now
        ≡ (if bytes_eq (entry_of entry.now).key key.now then (entry_of entry.now).value else other.now) }
{
    if entry.key.as_slice() == key {
        entry.value.as_slice()
    } else {
        other
    }
}
