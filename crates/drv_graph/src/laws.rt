//! What holds of modulo texts, modulo hashes, expected paths, twins and profiles, proved over the
//! definitions.

ghost use Rattle.drv_graph.specs.Equality.{EqualPlansAreSame};
ghost use Rattle.drv_graph.specs.GraphLaws.{HasOneExpectedPath, HaveOneHashEach};
ghost use Rattle.drv_graph.specs.Modulo.{HasOneModuloText};
ghost use Rattle.drv_graph.specs.ProfileLaws.{PlainPlansAreNixPlans};
ghost use Rattle.drv_graph.specs.TwinLaws.{FixedTwinsHaveOneHash, SharersAreTwins, TwinsAreTold, TwinsShareOutputs};

use nix_drv::DrvSource;
use nix_drv::laws::equal_derivations_are_same;

/// A derivation has one modulo text for the same hashes of its inputs, masked or not.
pub fn modulo_text_is_one()
    ensures { HasOneModuloText }
{}

/// The derivations at some paths have one list of modulo hashes, where no two have one path.
pub fn modulo_hashes_are_one()
    ensures { HaveOneHashEach }
{}

/// An output of a derivation has one expected path.
pub fn expected_path_is_one()
    ensures { HasOneExpectedPath }
{}

/// Two derivations of a sound plan that share an output path are twins: they have the same set of
/// output paths.
pub fn sharers_are_twins()
    ensures { SharersAreTwins }
{}

/// Twins of a sound plan share an output path, and have equally many outputs.
pub fn twins_share_outputs()
    ensures { TwinsShareOutputs }
{}

/// The test of twins answers true for twins, derivations with the same set of output paths, and for
/// no others.
pub fn twins_are_told()
    ensures { TwinsAreTold }
{}

/// Twins with one fixed output of one method and digest, its algorithm and its bytes, have one
/// modulo hash.
pub fn fixed_twins_have_one_hash()
    ensures { FixedTwinsHaveOneHash }
{}

/// By the answers of one source, a plan under the profile `Plain` is one under `Nix` too.
pub fn plain_plans_are_nix_plans<S: DrvSource>(source: &S)
    ensures { PlainPlansAreNixPlans (S.gives source.now) }
{
    let _ = source;
}

/// Two plans are equal by `==` exactly where they are the same: by their profiles, by their
/// derivations with their paths, and by their roots.
pub fn equal_plans_are_same()
    ensures { EqualPlansAreSame }
{
    equal_derivations_are_same();
}
