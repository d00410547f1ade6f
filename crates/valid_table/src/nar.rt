//! What is known of a path's archive.
ghost use Rattle.std.specs.Prelude.{◌≡◌, ◌<◌, ◌≤◌, ◌^◌, All, MatchOption, length};
ghost use Rattle.nix_names.specs.Digests.{IsOfSize};
ghost use Rattle.nix_names.specs.declared.digest.Algorithm.TheVariants.{Sha256};
ghost use Rattle.valid_table.specs.PathInfos.{IsNarInfo};

use std::marker::Model;

/// The SHA-256 of a path's archive (NAR), and the archive's length. A contract sees both.
#[derive(Clone, Copy, Debug)]
pub struct Nar {
    hash: [u8; 32],
    size: u64,
}

impl Model for Nar {
    ghost use Rattle.valid_table.specs.PathInfos.{IsNarInfo, NarInfo};

    ghost Value = { NarInfo };

    ghost view = { λ n. record { hash = n.hash; size = n.size } };

    ghost inverse = { λ n. record { hash = n.hash; size = n.size } };

    ghost invariant = { λ n. IsNarInfo (record { hash = n.hash; size = n.size }) };
}

impl Nar {
    /// The archive with this SHA-256 and this length in bytes. None where the length is
    /// 9,223,372,036,854,775,808 or more.
    pub fn new(hash: [u8; 32], size: u64) -> Option<Nar>
        ensures { MatchOption result (2 ^ 63 ≤ size)
            (λ nar. (nar.hash ≡ hash) × (nar.size ≡ size) × (size < 2 ^ 63)) }
    {
        if size > i64::MAX as u64 {
            return None;
        }
        show_bytes(&hash);
        Some(Nar { hash, size })
    }

    /// The SHA-256 of the archive.
    pub fn hash(&self) -> [u8; 32]
        ensures value { result ≡ self.now.hash }
        ensures size { IsOfSize Sha256 result }
    {
        self.hash
    }

    /// The length of the archive in bytes.
    pub fn size(&self) -> u64
        ensures value { result ≡ self.now.size }
        ensures below { result < 2 ^ 63 }
    {
        self.size
    }
}

impl PartialEq for Nar {
    ghost use Rattle.std.specs.Cmp.{partial_equiv_from_equiv};
    ghost use Rattle.valid_table.specs.Equality.{same_nar, same_nar_laws};

    ghost eq = { same_nar };

    ghost laws = { partial_equiv_from_equiv same_nar_laws };

    fn eq(&self, other: &Nar) -> bool {
        self.hash == other.hash && self.size == other.size
    }
}

impl Eq for Nar {
    ghost use Rattle.valid_table.specs.Equality.{same_nar_laws};

    ghost laws = { same_nar_laws };
}

// Shows the prover that 32 bytes can be a SHA-256.
fn show_bytes(hash: &[u8; 32])
    ensures { IsOfSize Sha256 hash.now }
{
    show_each(hash);
}

// Shows the prover that each byte is below 256.
fn show_each(bytes: &[u8])
    ensures { All (λ b. b < 256) bytes.now }
{
    let _ = bytes.len();
}
