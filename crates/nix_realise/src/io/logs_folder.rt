//! The folder of logs of a run, if the request names one.
ghost use Rattle.std.specs.Prelude.{◌≡◌, IfErr, IfOk};
ghost use Rattle.nix_realise.specs.Building.{IsMadeBy, IsNoFolder};

use crate::cli::run_error::RunError;
use process_build::Failure;
use std::rt::Files;
use std::{fs, io};

/// Evidence that the folder of logs of a request, if it names one, is there.
#[derive(Clone, Copy)]
pub struct LogsFolder<'a> {
    path: Option<&'a str>,
}

impl<'a> LogsFolder<'a> {
    // The request names none.
    fn none() -> LogsFolder<'a>
        ensures { result.path ≡ None }
    {
        LogsFolder { path: None }
    }

    // By what came of making it.
    fn by(word: &'a str, made: Result<(), Failure>) -> Result<LogsFolder<'a>, RunError<'a>>
        ensures { IsMadeBy word.entry made result }
    {
        match made {
            Ok(()) => Ok(LogsFolder { path: Some(word) }),
            Err(Failure::NoMemory) => Err(RunError::NoMemory),
            Err(_) => Err(RunError::NoLogs(word)),
        }
    }

    /// Its path.
    pub fn path(self) -> Option<&'a str>
        ensures { result ≡ self.entry.path }
    {
        self.path
    }
}

/// The folder of logs of a request, if it names one: it is made where nothing lies at its path.
/// `NoLogs` where it can't be made, or where anything but a folder lies there; `NoMemory`.
pub fn logs_folder<'a, R: Files>(
    rt: &R,
    word: Option<&'a str>,
) -> Result<LogsFolder<'a>, RunError<'a>>
    ensures ok { IfOk result (λ folder. folder.path ≡ word.entry) }
    ensures err { IfErr result (IsNoFolder word.entry) }
{
    match word {
        Some(word) => LogsFolder::by(word, make_folder(rt, word)),
        None => Ok(LogsFolder::none()),
    }
}

// Makes a folder, unless there is one already.
fn make_folder<R: Files>(rt: &R, path: &str) -> Result<(), Failure> {
    match fs::create_dir(rt, path).map_err(Failure::from) {
        Err(Failure::Taken) => is_folder(rt, path),
        answer => answer,
    }
}

// Whether a folder, or a link to one, lies at a path.
fn is_folder<R: Files>(rt: &R, path: &str) -> Result<(), Failure> {
    if fs::metadata(rt, path)?.is_dir() {
        Ok(())
    } else {
        Err(Failure::Taken)
    }
}
