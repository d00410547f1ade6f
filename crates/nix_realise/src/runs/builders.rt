//! The builders of a run.
ghost use Rattle.std.specs.Prelude.{◌≡◌, All, IfOk, is_some, length};

use command_line::RealiseRequest;
use process_build::{BuildOptions, Builders, KeptFolders};
use std::alloc::{AllocError, Global};

/// The list of the build folders that a run keeps, if the request asks to keep those of builders
/// that failed. It has room for one of each of `count` derivations.
pub fn kept_folders(
    alloc: Global,
    request: &RealiseRequest<'_>,
    count: usize,
) -> Result<Option<KeptFolders>, AllocError>
    ensures { IfOk result (λ kept. is_some kept ≡ request.now.keep_failed) }
{
    if request.keep_failed {
        Ok(Some(KeptFolders::new(alloc, count)?))
    } else {
        Ok(None)
    }
}

/// A builder that builds by these options for each worker that the request asks for. Want of memory
/// is the only error.
pub fn make_all<M: Builders>(
    alloc: Global,
    make: &M,
    request: &RealiseRequest<'_>,
    options: &BuildOptions<'_>,
) -> Result<Vec<M::Builder>, AllocError>
    ensures count { IfOk result (λ builders. length builders.items ≡ request.now.jobs) }
    ensures options { IfOk result (λ builders.
        All (λ b. M.builds_in b options.now) builders.items) }
{
    let mut builders = Vec::new(alloc);
    for _ in 0..request.jobs {
        builders.push(make.builder(alloc, options)?)?;
    }
    Ok(builders)
}
