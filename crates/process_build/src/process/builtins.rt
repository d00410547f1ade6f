//! The programs that are started for builtin builders.
ghost use Rattle.std.specs.Prelude.{◌≡◌, IfOk, bytes_eq, if◌then◌else◌, map};
ghost use Rattle.std.specs.List.{AllZip};
ghost use Rattle.process_build.specs.Options.{IsOwnBuiltin};
ghost use Rattle.process_build.specs.Setups.{builder_under, entry_of_builtin, or_text, value_of};

use build_outcome::Job;
use drv_graph::Profile;
use std::alloc::{AllocError, Global};

/// A program that is started for a builtin builder under the profile `nix`.
#[derive(Clone, Copy)]
pub struct BuiltinProgram<'a> {
    /// The name of the builtin: a builder is the builtin's whose text is `builtin:` and this name.
    pub name: &'a str,
    /// The path of the program.
    pub program: &'a str,
}

/// A program that is started for a builtin builder, owned by a builder.
#[derive(Drop)]
pub struct OwnBuiltin {
    /// The text of the builtin builder, with `builtin:`.
    pub builder: String,
    /// The path of the program.
    pub program: String,
}

/// Copies of builtins. Want of memory is the only error.
pub fn copy_builtins(
    alloc: Global,
    builtins: &[BuiltinProgram<'_>],
) -> Result<Vec<OwnBuiltin>, AllocError>
    ensures { IfOk result (λ own. AllZip IsOwnBuiltin builtins.now own.items) }
{
    let mut own = Vec::new(alloc);
    for builtin in builtins {
        own.push(own_builtin(alloc, builtin)?)?;
    }
    Ok(own)
}

// A copy of a builtin.
fn own_builtin(alloc: Global, builtin: &BuiltinProgram<'_>) -> Result<OwnBuiltin, AllocError>
    ensures { IfOk result (IsOwnBuiltin builtin.now) }
{
    let name = builtin.name;
    Ok(OwnBuiltin {
        builder: format!(in alloc; "builtin:{name}")?,
        program: String::from_str(alloc, builtin.program)?,
    })
}

/// The text of the builder that is started for a job, where there are these builtins.
pub fn builder_of<'a>(builtins: &'a [OwnBuiltin], job: &'a Job) -> &'a [u8]
    ensures { result.now ≡ builder_under job.now.profile builtins.now job.now.builder.items }
{
    match job.profile {
        Profile::Plain => &job.builder,
        Profile::Nix => program_for(builtins, &job.builder),
    }
}

// The program of a builtin builder, or the builder's own text where it has none.
fn program_for<'a>(builtins: &'a [OwnBuiltin], builder: &'a [u8]) -> &'a [u8]
    ensures { result.now
        ≡ or_text builder.now (value_of builder.now (map entry_of_builtin builtins.now)) }
{
    let mut program = builder;
    for builtin in builtins {
        program = program_or(builtin, builder, program);
    }
    program
}

// The program of a builtin, if the builder is its, and else another text.
fn program_or<'a>(builtin: &'a OwnBuiltin, builder: &[u8], other: &'a [u8]) -> &'a [u8]
    ensures { result.now ≡ (if bytes_eq (entry_of_builtin builtin.now).key builder.now
        then (entry_of_builtin builtin.now).value else other.now) }
{
    if builtin.builder.as_bytes() == builder {
        builtin.program.as_bytes()
    } else {
        other
    }
}
