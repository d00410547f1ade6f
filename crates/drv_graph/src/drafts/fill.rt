//! Drafts of derivations, in which the paths of outputs may be left out.
ghost use Rattle.std.specs.Prelude.{◌≡◌, ◌≤◌, IfErr, IfOk, IsTrue, All, length};
ghost use Rattle.nix_names.specs.Names.{is_name};
ghost use Rattle.nix_names.specs.Rising.{IsRising};
ghost use Rattle.nix_names.specs.StorePaths.{IsPathOf};
ghost use Rattle.nix_drv.specs.Derivation.{IsDrvText};
ghost use Rattle.nix_drv.specs.Outcome.{max_len};
ghost use Rattle.nix_drv.specs.OwnPath.{referenced_paths};
ghost use Rattle.nix_drv.specs.References.{IsReferencesOf};
ghost use Rattle.nix_drv.specs.Sources.{GivesSame};
ghost use Rattle.drv_graph.specs.Filling.{AreNames, IsFilling, file_name};
ghost use Rattle.drv_graph.specs.private.FillSteps.{AreDraftPaths, AreOutputsRefused, IsFillRefused, IsFilledAfter, IsNameRefused, IsStrayRefused, IsTarget, IsTargetRefused, IsTextPath, IsTextRefused};
ghost use Rattle.drv_graph.specs.Loading.{IsCountedFault, IsLoading};
ghost use Rattle.drv_graph.specs.Nodes.{inputs_of};
ghost use Rattle.drv_graph.specs.Plans.{AreNumbers};
ghost use Rattle.drv_graph.specs.private.UsedInputs.{drvs_of_uses, hashes_of, paths_of_uses as used_paths_of};

use crate::drafts::insertion::insert_paths;
use crate::fault::{GraphFault, NodeFault, OutputFault};
use crate::outputs::output_checks::{UsedInput, expected_outputs};
use crate::paths::known_paths;
use crate::plans::plan::Plan;
use crate::profile::{Profile, Rules};
use crate::walks::walk_state::used_inputs;
use nix_drv::{Derivation, DrvFault, DrvSource, MAX_LEN, named_text_path, references, write};
use nix_names::{StoreDir, StorePath, is_name};
use std::alloc::{AllocError, Global};

// The file of a filled derivation: its name, and the references of its text.
#[derive(Debug, Drop)]
struct Target {
    file: Vec<u8>,
    refs: Vec<StorePath>,
}

/// A draft under a name, filled under the profile `Plain`, as `fill_outputs_as` does it.
pub fn fill_outputs<S: DrvSource>(
    alloc: Global,
    source: &mut S,
    dir: &StoreDir,
    name: &[u8],
    draft: &Derivation,
) -> Result<(Derivation, StorePath), GraphFault>
    ensures keeps { GivesSame (S.gives source.old) (S.gives source.new) }
    ensures counts { S.failures source.old ≤ S.failures source.new }
    ensures device { IfErr result (IsCountedFault (S.gives source.old) (S.failures source.old)
        (S.failures source.new)) }
    ensures filling { IsFilling Profile.Plain dir.now (S.gives source.old) name.now draft.now
        result }
{
    fill_outputs_as(alloc, Profile::Plain, source, dir, name, draft)
}

/// The derivation of a draft under a name, and the path of its text in the folder. The draft's
/// empty output paths, and the empty values under outputs' names in its environment, become the
/// paths that are expected; nothing else is changed. In this order: `Name` where the name, or it
/// with `.drv` after it, is no name; `Draft` with `BadReference` for the first input or source that
/// is no path of the folder; the faults of `Plan::load_as` of its inputs as roots; `Draft` with the
/// first fault of its outputs, where a value that is neither empty nor the expected path is
/// `OutputMismatch` or `EnvMismatch`; `Draft` with `TooLong` where the filled text has more than
/// 4,194,304 bytes. Beside the plan of its inputs and the check of its outputs, the draft is copied
/// once, and its filled text is written and digested once.
pub fn fill_outputs_as<S: DrvSource>(
    alloc: Global,
    profile: Profile,
    source: &mut S,
    dir: &StoreDir,
    name: &[u8],
    draft: &Derivation,
) -> Result<(Derivation, StorePath), GraphFault>
    ensures keeps { GivesSame (S.gives source.old) (S.gives source.new) }
    ensures counts { S.failures source.old ≤ S.failures source.new }
    ensures device { IfErr result (IsCountedFault (S.gives source.old) (S.failures source.old)
        (S.failures source.new)) }
    ensures filling { IsFilling profile dir.now (S.gives source.old) name.now draft.now result }
{
    let target = target_of(alloc, dir, name, draft)?;
    let plan = load_inputs(alloc, profile, source, dir, draft)?;
    let filled = fill(alloc, dir, name, draft, &plan)?;
    let path = own_path(alloc, dir, &target, &filled)?;
    Ok((filled, path))
}

// The file of the draft under a name, when it is filled.
fn target_of(
    alloc: Global,
    dir: &StoreDir,
    name: &[u8],
    draft: &Derivation,
) -> Result<Target, GraphFault>
    ensures ok { IfOk result (IsTarget dir.now name.now draft.now) }
    ensures err { IfErr result (IsTargetRefused dir.now name.now draft.now) }
{
    let file = file_name(alloc, name)?;
    let refs = draft_references(alloc, dir, draft)?;
    Ok(Target { file, refs })
}

// The name of the file of the derivation with this name. `Name` where one of the two is no name of
// a store path.
fn file_name(alloc: Global, name: &[u8]) -> Result<Vec<u8>, GraphFault>
    ensures ok { IfOk result (λ file. AreNames name.now × (file.items ≡ file_name name.now)) }
    ensures err { IfErr result (IsNameRefused name.now) }
{
    if !is_name(name) {
        return Err(GraphFault::Name);
    }
    let mut file = Vec::from_slice(alloc, name)?;
    file.extend_from_slice(b".drv")?;
    if is_name(&file) {
        Ok(file)
    } else {
        Err(GraphFault::Name)
    }
}

// The references of the draft's text.
fn draft_references(
    alloc: Global,
    dir: &StoreDir,
    draft: &Derivation,
) -> Result<Vec<StorePath>, GraphFault>
    ensures ok { IfOk result (λ refs. All (IsPathOf dir.now) (referenced_paths draft.now)
        × IsReferencesOf (referenced_paths draft.now) refs.items) }
    ensures err { IfErr result (IsStrayRefused dir.now (referenced_paths draft.now)) }
{
    match references(alloc, dir, draft) {
        Ok(refs) => Ok(refs),
        Err(DrvFault::NoMemory) => Err(GraphFault::NoMemory),
        Err(fault) => Err(GraphFault::Draft(NodeFault::Text(fault))),
    }
}

// The plan of the draft's inputs.
fn load_inputs<S: DrvSource>(
    alloc: Global,
    profile: Profile,
    source: &mut S,
    dir: &StoreDir,
    draft: &Derivation,
) -> Result<Plan, GraphFault>
    requires { All (IsPathOf dir.now) (inputs_of draft.now) }
    ensures keeps { GivesSame (S.gives source.old) (S.gives source.new) }
    ensures counts { S.failures source.old ≤ S.failures source.new }
    ensures device { IfErr result (IsCountedFault (S.gives source.old) (S.failures source.old)
        (S.failures source.new)) }
    ensures loading { IsLoading profile dir.now (S.gives source.old) (inputs_of draft.now) result }
    ensures numbers { IfOk result (λ plan. AreNumbers plan.nodes plan.roots (inputs_of draft.now)) }
{
    let inputs = known_paths(alloc, dir, &draft.parts().inputs)?;
    Plan::load_as(alloc, profile, source, dir, &inputs)
}

// The draft with its outputs' expected paths where it has none, by the plan of its inputs.
fn fill(
    alloc: Global,
    dir: &StoreDir,
    name: &[u8],
    draft: &Derivation,
    plan: &Plan,
) -> Result<Derivation, GraphFault>
    requires { AreNumbers plan.now.nodes plan.now.roots (inputs_of draft.now) }
    ensures ok { IfOk result (IsFilledAfter plan.now.profile dir.now name.now plan.now.nodes
        draft.now) }
    ensures err { IfErr result (IsFillRefused plan.now.profile dir.now name.now plan.now.nodes
        draft.now) }
{
    let used = used_inputs(alloc, plan.nodes(), plan.roots())?;
    let rules = Rules {
        profile: plan.profile(),
        dir,
    };
    let paths = draft_paths(alloc, &rules, name, draft, &used)?;
    Ok(insert_paths(alloc, draft, &paths)?)
}

// The expected paths of the draft's outputs, or the first fault of them.
fn draft_paths(
    alloc: Global,
    rules: &Rules,
    name: &[u8],
    draft: &Derivation,
    used: &[UsedInput],
) -> Result<Vec<StorePath>, GraphFault>
    requires { used_paths_of used.now ≡ inputs_of draft.now }
    ensures ok { IfOk result
        (λ paths. AreDraftPaths rules.now.profile rules.now.dir.now name.now draft.now
        (drvs_of_uses used.now) (hashes_of used.now) paths.items) }
    ensures err { IfErr result
        (AreOutputsRefused rules.now.profile rules.now.dir.now name.now draft.now
        (drvs_of_uses used.now) (hashes_of used.now)) }
{
    match expected_outputs(alloc, rules, name, draft, used, true) {
        Ok((_, paths)) => Ok(paths),
        Err(OutputFault::NoMemory) => Err(GraphFault::NoMemory),
        Err(fault) => Err(GraphFault::Draft(NodeFault::Outputs(fault))),
    }
}

// The path of the text of a filled derivation.
fn own_path(
    alloc: Global,
    dir: &StoreDir,
    target: &Target,
    filled: &Derivation,
) -> Result<StorePath, GraphFault>
    requires rising { IsRising target.now.refs.items }
    requires named { IsTrue (is_name target.now.file.items) }
    ensures ok { IfOk result
        (IsTextPath dir.now target.now.file.items target.now.refs.items filled.now) }
    ensures err { IfErr result (IsTextRefused filled.now) }
{
    let text = filled_text(alloc, filled)?;
    Ok(named_text_path(alloc, dir, &target.file, &text, &target.refs)?)
}

// The text of a filled derivation, within the limit.
fn filled_text(alloc: Global, filled: &Derivation) -> Result<Vec<u8>, GraphFault>
    ensures ok { IfOk result (λ text. IsDrvText filled.now text.items
        × (length text.items ≤ max_len)) }
    ensures err { IfErr result (IsTextRefused filled.now) }
{
    let text = text_of(alloc, filled)?;
    if text.len() > MAX_LEN {
        return Err(GraphFault::Draft(NodeFault::Text(DrvFault::TooLong)));
    }
    Ok(text)
}

// The text of a derivation.
fn text_of(alloc: Global, drv: &Derivation) -> Result<Vec<u8>, AllocError>
    ensures { IfOk result (λ text. IsDrvText drv.now text.items) }
{
    match write(alloc, drv) {
        Ok(text) => Ok(text),
        Err(DrvFault::NoMemory) => Err(AllocError),
        // A text is refused for want of memory alone.
        Err(_) => unreachable!(),
    }
}
