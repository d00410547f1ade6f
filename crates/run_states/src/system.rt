//! What a run builds for.
ghost use Rattle.std.specs.Prelude.{◌≡◌, IfOk, [], map, nat_eq};
ghost use Rattle.std.specs.Cmp.Lexicographic.{pointwise};
ghost use Rattle.nix_drv.specs.Parts.{bytes_of};
ghost use Rattle.run_states.specs.Systems.{has_program, is_builtin, lacks_program, offers};

use nix_drv::Derivation;
use std::alloc::{AllocError, Global};
use std::marker::Model;

// How the builder's text of a builtin one begins.
const BUILTIN_MARK: &[u8] = b"builtin:";

/// What a run builds for. A contract sees it as its name and its lists of names.
#[derive(Debug, Drop)]
pub struct System {
    name: Vec<u8>,
    features: Vec<Vec<u8>>,
    builtins: Vec<Vec<u8>>,
}

impl Model for System {
    ghost use Rattle.std.specs.Prelude.{map};
    ghost use Rattle.nix_drv.specs.Parts.{bytes_of};
    ghost use Rattle.run_states.specs.Systems.{Platform};

    ghost Value = { Platform };

    ghost view = { λ s. record {
      name = s.name.items;
      features = map bytes_of s.features.items;
      builtins = map bytes_of s.builtins.items;
    } };
}

impl System {
    /// The system with this name, as `x86_64-linux`, with the features that it offers, as `kvm`,
    /// and the names of the builtin builders for which the run has a program, as `fetchurl` for
    /// `builtin:fetchurl`.
    pub fn new(name: Vec<u8>, features: Vec<Vec<u8>>, builtins: Vec<Vec<u8>>) -> System
        ensures { result ≡ record {
          name = name.items;
          features = map bytes_of features.items;
          builtins = map bytes_of builtins.items;
        } }
    {
        System {
            name,
            features,
            builtins,
        }
    }

    /// The system with this name, without features and without programs for builtin builders. An
    /// error where memory is refused, and no other.
    pub fn named(alloc: Global, name: &[u8]) -> Result<System, AllocError>
        ensures { IfOk result
            (λ system. system ≡ record { name = name.now; features = []; builtins = [] }) }
    {
        let name = Vec::from_slice(alloc, name)?;
        Ok(System::new(name, Vec::new(alloc), Vec::new(alloc)))
    }

    /// A copy of the system. An error where memory is refused, and no other. Takes time in
    /// proportion to the bytes.
    pub fn copy(&self, alloc: Global) -> Result<System, AllocError>
        ensures { IfOk result (λ copy. copy ≡ self.now) }
    {
        Ok(System {
            name: Vec::from_slice(alloc, &self.name)?,
            features: copies_of(alloc, &self.features)?,
            builtins: copies_of(alloc, &self.builtins)?,
        })
    }

    /// The system's name.
    pub fn name(&self) -> &[u8]
        ensures { result.now ≡ self.now.name }
    {
        &self.name
    }

    // Whether the system offers a feature.
    pub(crate) fn offers(&self, feature: &[u8]) -> bool
        ensures { result ≡ offers self.now feature.now }
    {
        self.features
            .iter()
            .any(|offered| feature == offered.as_slice())
    }

    /// Whether the builder of a derivation is a builtin one for which the run has no program. Costs
    /// a comparison for each program.
    pub fn lacks_program(&self, drv: &Derivation) -> bool
        ensures { result ≡ lacks_program self.now drv.now }
    {
        is_builtin(drv) && !self.has_program(drv)
    }

    // Whether the run has a program for the builder of a derivation, which is a builtin one.
    fn has_program(&self, drv: &Derivation) -> bool
        ensures { result ≡ has_program self.now drv.now }
    {
        match drv.builder().strip_prefix(BUILTIN_MARK) {
            Some(name) => self
                .builtins
                .iter()
                .any(|builtin| name == builtin.as_slice()),
            None => false,
        }
    }
}

impl PartialEq for System {
    ghost use Rattle.std.specs.Cmp.{partial_equiv_from_equiv};
    ghost use Rattle.run_states.specs.Systems.{same_platform, same_platform_laws};

    ghost eq = { same_platform };

    ghost laws = { partial_equiv_from_equiv same_platform_laws };

    fn eq(&self, other: &System) -> bool {
        self.name == other.name
            && same_texts(&self.features, &other.features)
            && same_texts(&self.builtins, &other.builtins)
    }
}

impl Eq for System {
    ghost use Rattle.run_states.specs.Systems.{same_platform_laws};

    ghost laws = { same_platform_laws };
}

// Whether a derivation's builder is one of Nix's own.
pub(crate) fn is_builtin(drv: &Derivation) -> bool
    ensures { result ≡ is_builtin drv.now }
{
    drv.builder().starts_with(BUILTIN_MARK)
}

// Copies of some texts.
fn copies_of(alloc: Global, texts: &[Vec<u8>]) -> Result<Vec<Vec<u8>>, AllocError>
    ensures { IfOk result (λ copies. map bytes_of copies.items ≡ map bytes_of texts.now) }
{
    let mut copies = Vec::with_capacity(alloc, texts.len())?;
    'texts: for text in texts {
        copies.push_reserved(Vec::from_slice(alloc, text)?);
    }
    Ok(copies)
}

// Whether two lists have the same texts in the same order.
fn same_texts(a: &[Vec<u8>], b: &[Vec<u8>]) -> bool
    ensures { result ≡ pointwise (pointwise nat_eq) (map bytes_of a.now) (map bytes_of b.now) }
{
    a == b
}
