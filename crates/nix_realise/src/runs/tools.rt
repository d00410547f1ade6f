//! What starts the builders of a run: its runner, the programs of builtin builders, the folder that
//! gets the build folders, and how many processors a builder may use.
ghost use Rattle.std.specs.Prelude.{◌≡◌, IfErr, IfOk, IfSome, map, string_bytes};
ghost use Rattle.nix_realise.specs.Tools.{ArePrograms, AreTools, IsNoProgram, IsNoTool};
ghost use Rattle.command_line.specs.declared.options.Builtin.{Builtin};

use crate::cli::run_error::RunError;
use crate::io::build_dir::build_dir_of;
use crate::io::runner::{Runner, runner_of};
use command_line::{Builtin, RealiseRequest};
use drv_graph::Profile;
use process_build::BuiltinProgram;
use std::rt::{Env, Files};
use std::thread;
use std::thread::Threads;

/// What starts the builders of a run. Only `tools_of` makes it.
#[derive(Drop)]
pub struct Tools<'a> {
    runner: Runner<'a>,
    builtins: Vec<BuiltinProgram<'a>>,
    build_dir: String,
    cores: u16,
}

impl<'a> Tools<'a> {
    /// The program that starts each builder, if one does.
    pub fn runner(&self) -> Option<&'a str>
        ensures { result ≡ self.now.runner.path }
    {
        self.runner.path()
    }

    /// The programs of builtin builders.
    pub fn builtins(&self) -> &[BuiltinProgram<'a>]
        ensures { result.now ≡ self.now.builtins.items }
    {
        &self.builtins
    }

    /// The folder that gets the build folders under `nix`.
    pub fn build_dir(&self) -> &str
        ensures { result.now ≡ string_bytes self.now.build_dir }
    {
        self.build_dir.as_str()
    }

    /// How many processors a builder may use under `nix`.
    pub fn cores(&self) -> u16
        ensures { result ≡ self.now.cores }
    {
        self.cores
    }
}

/// What starts the builders of a request. The faults, in this order: `NoRunner` for the runner, and
/// for each program of a builtin builder, that is no absolute path of a file that may be executed,
/// by one look at the path; `NoBuildDir`, under `nix` alone. `NoMemory` may be answered in place of
/// each.
pub fn tools_of<'a, R>(rt: &R, request: &RealiseRequest<'a>) -> Result<Tools<'a>, RunError<'a>>
where
    R: Env + Files + Threads + AllocGlobal,
    ensures ok { IfOk result (AreTools request.now) }
    ensures err { IfErr result (IsNoTool request.now) }
{
    let runner = runner_of(rt, request.runner)?;
    let builtins = programs_of(rt, &request.run.builtins)?;
    let build_dir = build_dir_of(rt, request)?;
    let cores = cores_of(rt, request.run.profile, request.cores);
    Ok(Tools {
        runner,
        builtins,
        build_dir,
        cores,
    })
}

// The programs of some builtin builders, each of which is tested as a runner is.
fn programs_of<'a, R: Files + AllocGlobal>(
    rt: &R,
    builtins: &[Builtin<'a>],
) -> Result<Vec<BuiltinProgram<'a>>, RunError<'a>>
    ensures ok { IfOk result (λ programs. ArePrograms builtins.now programs.items) }
    ensures err { IfErr result
        (IsNoProgram (map (λ (b : Builtin). b.program.now) builtins.now)) }
{
    let mut programs = Vec::new(rt.alloc());
    for builtin in builtins {
        let Builtin { name, program } = *builtin;
        runner_of(rt, Some(program))?;
        programs.push(BuiltinProgram { name, program })?;
    }
    Ok(programs)
}

// The number of processors that is given, or else that of this machine.
fn cores_of<R: Threads>(rt: &R, profile: Profile, given: Option<u16>) -> u16
    ensures { IfSome given (λ number. result ≡ number) }
{
    match given {
        Some(number) => number,
        None => processors(rt, profile),
    }
}

// How many processors this process may run on, or one where that isn't known; at most 65,535. The
// system is asked under `nix` alone, since only builders under it are told.
fn processors<R: Threads>(rt: &R, profile: Profile) -> u16 {
    match profile {
        Profile::Plain => 1,
        Profile::Nix => match thread::available_parallelism(rt) {
            Ok(count) => u16::try_from(count.get()).unwrap_or(u16::MAX),
            Err(_) => 1,
        },
    }
}
