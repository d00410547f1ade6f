//! Lists of paths that rise, as some calls require.
ghost use Rattle.std.specs.Prelude.{◌++◌, ◌∷◌, [], IfOk, IsTrue};
ghost use Rattle.nix_names.specs.Rising.{IsRising};

use crate::stop::Stop;
use crate::world::World;
use nix_names::StorePath;

/// The paths that words stand for, where they rise strictly.
pub(crate) fn rising(world: &World, words: &[&[u8]]) -> Result<Vec<StorePath>, Stop>
    ensures { IfOk result (λ paths. IsRising paths.items) }
{
    let paths = world.paths(words)?;
    let mut first = Vec::new(world.alloc);
    for path in &paths {
        if !follows(&first, path) {
            return Err(Stop::NotAllowed);
        }
        first.push(path.copy(world.alloc)?)?;
    }
    Ok(first)
}

// Whether a path is greater than the last one of a list.
fn follows(paths: &[StorePath], path: &StorePath) -> bool
    ensures { IsTrue result → IsRising paths.now → IsRising (paths.now ++ path.now ∷ []) }
{
    match paths.last() {
        None => true,
        Some(last) => last.text().cmp(path.text()).is_lt(),
    }
}
