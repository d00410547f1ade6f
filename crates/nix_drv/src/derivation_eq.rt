//! Equality of derivations, outputs, inputs and entries of the environment.
ghost use Rattle.std.specs.Prelude.{◌≡◌, map, nat_eq};
ghost use Rattle.std.specs.Cmp.Lexicographic.{pointwise};
ghost use Rattle.nix_drv.specs.Equality.{same_build, same_entry, same_input, same_output, same_paths, same_program};
ghost use Rattle.nix_drv.specs.Parts.{bytes_of};

use crate::derivation::{Derivation, EnvEntry, Input, Output};

impl PartialEq for Output {
    ghost use Rattle.std.specs.Cmp.{partial_equiv_from_equiv};
    ghost use Rattle.nix_drv.specs.Equality.{outputs_equal, outputs_equal_laws};

    ghost eq = { outputs_equal };

    ghost laws = { partial_equiv_from_equiv outputs_equal_laws };

    fn eq(&self, other: &Output) -> bool {
        self.name == other.name
            && self.path == other.path
            && self.algo == other.algo
            && self.hash == other.hash
    }
}

impl Eq for Output {
    ghost use Rattle.nix_drv.specs.Equality.{outputs_equal_laws};

    ghost laws = { outputs_equal_laws };
}

impl PartialEq for Input {
    ghost use Rattle.std.specs.Cmp.{partial_equiv_from_equiv};
    ghost use Rattle.nix_drv.specs.Equality.{inputs_equal, inputs_equal_laws};

    ghost eq = { inputs_equal };

    ghost laws = { partial_equiv_from_equiv inputs_equal_laws };

    fn eq(&self, other: &Input) -> bool {
        self.path == other.path && same_texts(&self.names, &other.names)
    }
}

impl Eq for Input {
    ghost use Rattle.nix_drv.specs.Equality.{inputs_equal_laws};

    ghost laws = { inputs_equal_laws };
}

impl PartialEq for EnvEntry {
    ghost use Rattle.std.specs.Cmp.{partial_equiv_from_equiv};
    ghost use Rattle.nix_drv.specs.Equality.{entries_equal, entries_equal_laws};

    ghost eq = { entries_equal };

    ghost laws = { partial_equiv_from_equiv entries_equal_laws };

    fn eq(&self, other: &EnvEntry) -> bool {
        self.key == other.key && self.value == other.value
    }
}

impl Eq for EnvEntry {
    ghost use Rattle.nix_drv.specs.Equality.{entries_equal_laws};

    ghost laws = { entries_equal_laws };
}

impl PartialEq for Derivation {
    ghost use Rattle.std.specs.Cmp.{partial_equiv_from_equiv};
    ghost use Rattle.nix_drv.specs.Equality.{same_drv, same_drv_laws};

    ghost eq = { same_drv };

    ghost laws = { partial_equiv_from_equiv same_drv_laws };

    fn eq(&self, other: &Derivation) -> bool {
        has_same_paths(self, other) && is_built_alike(self, other)
    }
}

impl Eq for Derivation {
    ghost use Rattle.nix_drv.specs.Equality.{same_drv_laws};

    ghost laws = { same_drv_laws };
}

// Whether two derivations have the same outputs, inputs and sources.
fn has_same_paths(a: &Derivation, b: &Derivation) -> bool
    ensures { result ≡ same_paths a.now b.now }
{
    same_outputs(a, b) && same_inputs(a, b) && same_texts(a.sources(), b.sources())
}

// Whether two derivations have the same system, builder, arguments and environment.
fn is_built_alike(a: &Derivation, b: &Derivation) -> bool
    ensures { result ≡ same_build a.now b.now }
{
    has_same_program(a, b) && same_texts(a.args(), b.args()) && same_env(a, b)
}

// Whether two derivations have the same system and builder.
fn has_same_program(a: &Derivation, b: &Derivation) -> bool
    ensures { result ≡ same_program a.now b.now }
{
    a.system() == b.system() && a.builder() == b.builder()
}

// Whether two derivations have the same outputs.
fn same_outputs(a: &Derivation, b: &Derivation) -> bool
    ensures { result ≡ pointwise same_output a.now.outputs b.now.outputs }
{
    a.outputs() == b.outputs()
}

// Whether two derivations have the same inputs.
fn same_inputs(a: &Derivation, b: &Derivation) -> bool
    ensures { result ≡ pointwise same_input a.now.inputs b.now.inputs }
{
    a.inputs() == b.inputs()
}

// Whether two derivations have the same environment.
fn same_env(a: &Derivation, b: &Derivation) -> bool
    ensures { result ≡ pointwise same_entry a.now.env b.now.env }
{
    a.env() == b.env()
}

// Whether two lists have the same texts in the same order.
fn same_texts(a: &[Vec<u8>], b: &[Vec<u8>]) -> bool
    ensures { result ≡ pointwise (pointwise nat_eq) (map bytes_of a.now) (map bytes_of b.now) }
{
    a == b
}
