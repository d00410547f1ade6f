//! The log of a builder, which gets what the builder writes to its two output streams.
ghost use Rattle.std.specs.Prelude.{◌≡◌, ◌⊎◌, IfErr, IfOk, length, string_bytes, take};
ghost use Rattle.process_build.specs.Options.{log_path_of};
ghost use Rattle.build_outcome.specs.declared.reason.Reason.TheVariants.{NoStart, OutOfMemory};

use crate::reasons::no_start;
use build_outcome::Reason;
use nix_names::StorePath;
use std::alloc::Global;
use std::fs::File;
use std::process::Stdio;
use std::rt::Files;
use std::{fs, io};

/// What opens the files of logs.
pub trait Logs {
    /// Makes a file at a path at which nothing lies, and opens it for appending. Gives two handles
    /// of the one open file, for a builder's standard output and its standard error.
    fn open_log(&self, path: &str) -> io::Result<(Stdio, Stdio)>;
}

impl Logs for HostRuntime {
    fn open_log(&self, path: &str) -> io::Result<(Stdio, Stdio)> {
        let file = File::options()
            .append(true)
            .create_new(true)
            .open(self, path)?;
        let again = file.try_clone()?;
        Ok((Stdio::from(file), Stdio::from(again)))
    }
}

/// The path of a builder's log.
#[derive(Drop)]
pub struct LogPath {
    text: String,
}

impl LogPath {
    /// The log of a derivation: the path of its file, with the folder of logs in the place of the
    /// store folder, and `.log`. `NoStart` where the derivation isn't in the store folder.
    pub fn of(
        alloc: Global,
        logs: &str,
        store_dir: &str,
        drv: &StorePath,
    ) -> Result<LogPath, Reason>
        ensures ok { IfOk result (λ log.
            string_bytes log.text ≡ log_path_of logs.now store_dir.now drv.now) }
        ensures err { IfErr result (λ reason. (reason ≡ OutOfMemory) ⊎ ((reason ≡ NoStart)
            × ¬ (take (length store_dir.now) drv.now ≡ store_dir.now))) }
    {
        let Some(rest) = drv.as_str().strip_prefix(store_dir) else {
            return Err(Reason::NoStart);
        };
        Ok(LogPath {
            text: format!(in alloc; "{logs}{rest}.log")?,
        })
    }
}

/// Where a builder's two output streams go.
#[derive(Drop)]
pub struct OutputStreams<'p> {
    // The log to which both go, if they are not thrown away.
    log: Option<&'p LogPath>,
    out: Stdio,
    err: Stdio,
}

impl<'p> OutputStreams<'p> {
    /// The log at this path, made anew, or none. What lies at the path is removed first: a file or
    /// a link, which isn't followed. `NoStart` where the log can't be made.
    pub fn to<R: Files, L: Logs>(
        rt: &R,
        opens: &L,
        log: Option<&'p LogPath>,
    ) -> Result<OutputStreams<'p>, Reason>
        ensures ok { IfOk result (λ outputs. outputs.log ≡ log.entry) }
        ensures err { IfErr result (λ reason. (reason ≡ OutOfMemory) ⊎ (reason ≡ NoStart)) }
    {
        let (out, err) = match log {
            Some(log) => open_anew(rt, opens, log)?,
            None => (Stdio::null(), Stdio::null()),
        };
        Ok(OutputStreams { log, out, err })
    }

    /// The streams of standard output and standard error.
    pub fn into_streams(self) -> (Stdio, Stdio)
        ensures { (result.0 ≡ self.entry.out) × (result.1 ≡ self.entry.err) }
    {
        let OutputStreams { log: _, out, err } = self;
        (out, err)
    }
}

// A new file at the path of a log, opened for both streams.
fn open_anew<R: Files, L: Logs>(rt: &R, opens: &L, log: &LogPath) -> Result<(Stdio, Stdio), Reason>
    ensures { IfErr result (λ reason. (reason ≡ OutOfMemory) ⊎ (reason ≡ NoStart)) }
{
    let path = log.text.as_str();
    // What can't be removed stands in the way of the new file.
    let _ = fs::remove_file(rt, path);
    opens.open_log(path).map_err(no_start)
}
