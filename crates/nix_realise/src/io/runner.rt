//! The program that starts the builders of a run, if the request names one.
ghost use Rattle.std.specs.Prelude.{◌≡◌, ◌↔◌, IfErr, IfOk, IsTrue};
ghost use Rattle.process_build.specs.Errors.{IsNoMemory};
ghost use Rattle.nix_realise.specs.Building.{IsAbsolute, IsExecutable, IsNoRunner, IsRunnerBy};

use crate::cli::run_error::RunError;
use process_build::Failure;
use std::fs::Metadata;
use std::os::unix::fs::PermissionsExt;
use std::rt::Files;
use std::{fs, io};

// The bits of a file's mode that say who may execute it.
const EXECUTE: u32 = 0o111;

/// What a look at a path found there.
#[derive(Clone, Copy, Debug, PartialEq, Eq)]
pub enum RunnerFinding {
    /// A file that may be executed.
    Program,
    /// Anything else, or nothing that is told.
    NoProgram,
    /// Memory was refused.
    NoMemory,
}

/// What a look at a path found there, and the path. Only `look_for` makes one.
#[derive(Clone, Copy)]
pub struct RunnerLook<'p> {
    path: &'p str,
    found: RunnerFinding,
}

/// Looks what lies at a path; links are followed.
pub fn look_for<'p, R: Files>(rt: &R, path: &'p str) -> RunnerLook<'p>
    ensures { result.path ≡ path.entry }
{
    let found = found_by(fs::metadata(rt, path));
    RunnerLook { path, found }
}

// What the system's answer for a path tells.
fn found_by(asked: io::Result<Metadata>) -> RunnerFinding
    ensures there { IfOk asked (λ found. IsExecutable found ↔ (result ≡ RunnerFinding.Program)) }
    ensures memory { IfErr asked (λ error. IsNoMemory error → result ≡ RunnerFinding.NoMemory) }
    ensures other { IfErr asked (λ error. ¬ (IsNoMemory error) → result ≡ RunnerFinding.NoProgram) }
{
    match asked {
        Ok(metadata) if is_executable(&metadata) => RunnerFinding::Program,
        Ok(_) => RunnerFinding::NoProgram,
        Err(error) => match Failure::from(error) {
            Failure::NoMemory => RunnerFinding::NoMemory,
            _ => RunnerFinding::NoProgram,
        },
    }
}

// Whether this is of a file that somebody may execute.
fn is_executable(metadata: &Metadata) -> bool
    ensures { IsTrue result ↔ IsExecutable metadata.now }
{
    metadata.is_file() && metadata.permissions().mode() & EXECUTE != 0
}

// Whether a path begins with a slash.
fn is_absolute(path: &str) -> bool
    ensures { IsTrue result ↔ IsAbsolute path.now }
{
    path.as_bytes().first() == Some(&b'/')
}

/// Evidence that the runner of a request, if it names one, is an absolute path of a file that may
/// be executed.
#[derive(Clone, Copy)]
pub struct Runner<'a> {
    path: Option<&'a str>,
}

impl<'a> Runner<'a> {
    // The request names none.
    fn none() -> Runner<'a>
        ensures { result.path ≡ None }
    {
        Runner { path: None }
    }

    // By a look at its path.
    fn by(word: &'a str, seen: RunnerLook<'_>) -> Result<Runner<'a>, RunError<'a>>
        requires { seen.path.now ≡ word.now }
        ensures { IsRunnerBy word.entry seen.entry.found result }
    {
        match seen.found {
            RunnerFinding::Program if is_absolute(word) => Ok(Runner { path: Some(word) }),
            RunnerFinding::Program | RunnerFinding::NoProgram => Err(RunError::NoRunner(word)),
            RunnerFinding::NoMemory => Err(RunError::NoMemory),
        }
    }

    /// Its path.
    pub fn path(self) -> Option<&'a str>
        ensures { result ≡ self.entry.path }
    {
        self.path
    }
}

/// The runner of a request, if it names one. `NoRunner` where that is no absolute path of a file
/// that may be executed, by one look at the path; `NoMemory`.
pub fn runner_of<'a, R: Files>(rt: &R, word: Option<&'a str>) -> Result<Runner<'a>, RunError<'a>>
    ensures ok { IfOk result (λ runner. runner.path ≡ word.entry) }
    ensures err { IfErr result (IsNoRunner word.entry) }
{
    match word {
        Some(word) => Runner::by(word, look_for(rt, word)),
        None => Ok(Runner::none()),
    }
}
