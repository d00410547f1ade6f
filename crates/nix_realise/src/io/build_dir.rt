//! The folder that gets the build folders of a run.
ghost use Rattle.std.specs.Prelude.{◌≡◌, ◌↔◌, IfErr, IfOk, IfSome, IsTrue, string_bytes};
ghost use Rattle.nix_realise.specs.Tools.{IsNoTool, IsWithin};
ghost use Rattle.nix_realise.specs.declared.cli.run_error.RunError.{RunError};

use crate::cli::run_error::RunError;
use command_line::RealiseRequest;
use drv_graph::Profile;
use process_build::Failure;
use std::path::PathBuf;
use std::rt::{Env, Files};
use std::{env, fs};

/// The folder that gets the build folders of a request: the one that it names, else that of the
/// variable `TMPDIR`, else `/tmp`. Under `nix` it is tested: `NoBuildDir` where it is no absolute
/// path of a folder, or is the store folder or lies below it, once both are made canonical;
/// `NoMemory`.
pub fn build_dir_of<'a, R: Env + Files + AllocGlobal>(
    rt: &R,
    request: &RealiseRequest<'a>,
) -> Result<String, RunError<'a>>
    ensures ok { IfOk result
        (λ dir. IfSome request.now.build_dir (λ word. string_bytes dir ≡ word.now)) }
    ensures err { IfErr result (IsNoTool request.now) }
{
    let dir = match request.build_dir {
        Some(word) => String::from_str(rt.alloc(), word)?,
        None => temporary_dir(rt)?,
    };
    match request.run.profile {
        Profile::Plain => Ok(dir),
        Profile::Nix if may_hold(rt, dir.as_str(), request.run.store_dir)? => Ok(dir),
        Profile::Nix => Err(RunError::NoBuildDir(dir)),
    }
}

// The folder of temporary files: that of the variable `TMPDIR`, where it is set and not empty, else
// `/tmp`.
fn temporary_dir<'a, R: Env + AllocGlobal>(rt: &R) -> Result<String, RunError<'a>>
    ensures { IfErr result (λ stop. stop ≡ RunError.NoMemory) }
{
    match env::var(rt, "TMPDIR") {
        Ok(dir) if !dir.as_str().is_empty() => Ok(dir),
        _ => Ok(String::from_str(rt.alloc(), "/tmp")?),
    }
}

// Whether a path is an absolute one of a folder that neither is the store folder nor lies below it.
fn may_hold<'a, R: Files + AllocGlobal>(
    rt: &R,
    dir: &str,
    store_dir: &str,
) -> Result<bool, RunError<'a>>
    ensures { IfErr result (λ stop. stop ≡ RunError.NoMemory) }
{
    if !dir.starts_with('/') || !is_folder(rt, dir)? {
        return Ok(false);
    }
    let (Some(dir), store_dir) = (canonical(rt, dir)?, canonical(rt, store_dir)?) else {
        return Ok(false);
    };
    match store_dir {
        Some(store_dir) => Ok(!is_within(store_dir.as_str(), dir.as_str())),
        None => Ok(true),
    }
}

// Whether a folder, or a link to one, lies at a path.
fn is_folder<'a, R: Files>(rt: &R, path: &str) -> Result<bool, RunError<'a>>
    ensures { IfErr result (λ stop. stop ≡ RunError.NoMemory) }
{
    match fs::metadata(rt, path).map_err(Failure::from) {
        Ok(found) => Ok(found.is_dir()),
        Err(Failure::NoMemory) => Err(RunError::NoMemory),
        Err(_) => Ok(false),
    }
}

// The path without links, if something lies there.
fn canonical<'a, R: Files + AllocGlobal>(
    rt: &R,
    path: &str,
) -> Result<Option<PathBuf>, RunError<'a>>
    ensures { IfErr result (λ stop. stop ≡ RunError.NoMemory) }
{
    match fs::canonicalize(rt, path).map_err(Failure::from) {
        Ok(path) => Ok(Some(path)),
        Err(Failure::NoMemory) => Err(RunError::NoMemory),
        Err(_) => Ok(None),
    }
}

// Whether a path is a folder or lies below it, by the texts of both.
fn is_within(folder: &str, path: &str) -> bool
    ensures { IsTrue result ↔ IsWithin folder.now path.now }
{
    match path.strip_prefix(folder) {
        Some(rest) => rest.is_empty() || rest.starts_with('/'),
        None => false,
    }
}
