//! The names of store paths and the components of store folders, byte by byte.
ghost use Rattle.std.specs.Prelude.{◌≡◌};
ghost use Rattle.std.specs.List.{list_all};
ghost use Rattle.nix_names.specs.Names.{is_component, is_dotted, is_drv_name, is_name, is_name_char};

// The greatest length of a name, in bytes.
const MAX_NAME_LEN: usize = 211;

/// Whether some bytes are a store path's name: 1 to 211 bytes of `A-Z a-z 0-9 + - . _ ? =`, neither
/// `.` nor `..`, nor beginning with `.-` or `..-`. Costs one pass at most.
#[tactic(auto, unfolding(crate::specs::Names::is_name))]
pub fn is_name(name: &[u8]) -> bool
    ensures { result ≡ is_name name.now }
{
    1 <= name.len() && name.len() <= MAX_NAME_LEN && are_name_chars(name) && !is_dotted(name)
}

/// Whether a name is that of a derivation's file: it ends in `.drv`, with at least one byte before
/// it.
pub fn is_drv_name(name: &[u8]) -> bool
    ensures { result ≡ is_drv_name name.now }
{
    name.len() > 4 && name.ends_with(b".drv")
}

// Whether some bytes are one component of a store folder.
#[tactic(auto, unfolding(crate::specs::Names::is_component))]
pub(crate) fn is_component(part: &[u8]) -> bool
    ensures { result ≡ is_component part.now }
{
    1 <= part.len() && are_name_chars(part) && part != b".".as_slice() && part != b"..".as_slice()
}

// Whether each byte may stand in a name.
fn are_name_chars(bytes: &[u8]) -> bool
    ensures { result ≡ list_all is_name_char bytes.now }
{
    bytes.iter().all(|byte| is_name_char(*byte))
}

// Whether a name would read as this folder or the one above it.
#[tactic(auto, unfolding(crate::specs::Names::is_dotted))]
fn is_dotted(name: &[u8]) -> bool
    ensures { result ≡ is_dotted name.now }
{
    name == b".".as_slice()
        || name == b"..".as_slice()
        || name.starts_with(b".-")
        || name.starts_with(b"..-")
}

// Whether a byte may stand in a name.
#[tactic(auto, unfolding(crate::specs::Names::is_name_char))]
fn is_name_char(byte: u8) -> bool
    ensures { result ≡ is_name_char byte }
{
    byte.is_ascii_alphanumeric() || b"+-._?=".contains(&byte)
}
