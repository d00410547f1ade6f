//! The front of a line on a derivation.
ghost use Rattle.std.specs.Prelude.{◌≡◌, ◌++◌, OnOk, codes};

use nix_names::StorePath;
use std::alloc::AllocError;

/// Adds the front of a line on a derivation: the program's name, the derivation's path, and words.
pub fn write_front(drv: &StorePath, words: &[u8], out: &mut Vec<u8>) -> Result<(), AllocError>
    ensures { OnOk result (out.new.items
        ≡ out.old.items ++ codes "nix_realise: " ++ drv.now ++ words.now) }
{
    out.extend_from_slice(b"nix_realise: ")?;
    out.extend_from_slice(drv.text())?;
    out.extend_from_slice(words)
}
