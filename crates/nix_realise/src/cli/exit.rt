//! How a subcommand and a run end, and with which status.
ghost use Rattle.std.specs.Prelude.{◌≡◌};
ghost use Rattle.nix_realise.specs.Exits.{code_of, ending_status};
ghost use Rattle.nix_realise.specs.Outcomes.{last_text, quietly, quietly_written};

use crate::cli::run_error::RunError;
use crate::io::all_written::AllWritten;

/// How a run ended, as its exit status tells.
#[derive(Clone, Copy, Debug, PartialEq, Eq)]
pub enum Status {
    /// The whole request was done.
    Done,
    /// A root of `realise` failed or was refused.
    Unrealised,
    /// A word, a file or the journal is refused, or a line of `check` is bad.
    Refused,
    /// Memory was refused, the journal could not be read or would be too long, the workers ended
    /// too early, or a write was refused.
    CutShort,
}

/// How a run ended, and whether that was told.
#[derive(Clone, Copy, Debug, PartialEq, Eq)]
pub enum Exit {
    /// With this status. Where a line or a text says why, all of it was written.
    Printed(Status),
    /// Cut short: there was no memory for the line that says why. The line of `NoMemory` was
    /// written in its place.
    NoMemory,
    /// Cut short: standard error refused a write.
    Unprinted,
}

impl Exit {
    /// The status of the run.
    pub fn status(self) -> Status
        ensures { result ≡ ending_status self }
    {
        match self {
            Exit::Printed(status) => status,
            Exit::NoMemory | Exit::Unprinted => Status::CutShort,
        }
    }

    /// The exit status of the process.
    pub fn code(self) -> u8
        ensures { result ≡ code_of (ending_status self) }
    {
        self.status().code()
    }
}

impl Status {
    /// The exit status of the process.
    pub fn code(self) -> u8
        ensures { result ≡ code_of self }
    {
        match self {
            Status::Done => 0,
            Status::Unrealised => 1,
            Status::Refused => 2,
            Status::CutShort => 3,
        }
    }
}

/// The outcome of a subcommand that isn't stopped by a fault: its status, and the lines that
/// standard error gets at the end, if it gets any.
#[derive(Drop)]
pub struct Outcome {
    pub status: Status,
    pub lines: Option<Vec<u8>>,
}

impl Outcome {
    /// With this status and these lines, if there are any.
    pub fn with(status: Status, lines: Vec<u8>) -> Outcome
        ensures status { result.status ≡ status }
        ensures lines { last_text result ≡ lines.items }
    {
        let lines = if lines.is_empty() { None } else { Some(lines) };
        Outcome { status, lines }
    }
}

/// The end of a subcommand that tells standard error nothing.
pub fn quietly(ended: Result<Status, RunError<'_>>) -> Result<Outcome, RunError<'_>>
    ensures { result ≡ quietly ended.entry }
{
    match ended {
        Ok(status) => Ok(Outcome {
            status,
            lines: None,
        }),
        Err(stop) => Err(stop),
    }
}

/// The end of a subcommand whose files were written, and that tells standard error nothing.
pub fn quietly_written(ended: Result<AllWritten, RunError<'_>>) -> Result<Outcome, RunError<'_>>
    ensures { result ≡ quietly_written ended.entry }
{
    match ended {
        Ok(written) => Ok(Outcome {
            status: written.status(),
            lines: None,
        }),
        Err(stop) => Err(stop),
    }
}
