//! Whether Nix manages a store folder: one look at the database that it would manage it by.
ghost use Rattle.std.specs.Prelude.{◌≡◌, IfErr, IfOk, true};
ghost use Rattle.std.specs.Path.{path_buf_bytes};
ghost use Rattle.process_build.specs.Errors.{IsNoMemory};
ghost use Rattle.nix_realise.specs.Locking.{IsAllowedBy, IsKeptOut, database_path};

use crate::cli::run_error::RunError;
use command_line::RealiseRequest;
use process_build::Failure;
use std::alloc::{AllocError, Global};
use std::fs::Metadata;
use std::path::{Path, PathBuf};
use std::rt::Files;
use std::{fs, io};

// The path of Nix's database, from the folder in which a store folder lies.
const DATABASE: &str = "var/nix/db/db.sqlite";

/// What a look at a path found.
#[derive(Clone, Copy, Debug, PartialEq, Eq)]
pub enum DatabaseFinding {
    /// Something lies there.
    There,
    /// Nothing is told to lie there: nothing does, or the process may not look.
    NotTold,
    /// Memory was refused.
    NoMemory,
}

/// What a look at a path found, and the path. Only `look_at` makes one.
#[derive(Clone, Copy)]
pub struct DatabaseLook<'p> {
    path: &'p str,
    found: DatabaseFinding,
}

/// Looks whether something lies at a path, even a link that leads nowhere.
pub fn look_at<'p, R: Files>(rt: &R, path: &'p str) -> DatabaseLook<'p>
    ensures { result.path ≡ path.entry }
{
    let found = found_by(fs::symlink_metadata(rt, path));
    DatabaseLook { path, found }
}

// What the system's answer for a path tells.
fn found_by(asked: io::Result<Metadata>) -> DatabaseFinding
    ensures found { IfOk asked (λ _. result ≡ DatabaseFinding.There) }
    ensures memory { IfErr asked (λ error. IsNoMemory error → result ≡ DatabaseFinding.NoMemory) }
    ensures other { IfErr asked (λ error. ¬ (IsNoMemory error) → result ≡ DatabaseFinding.NotTold) }
{
    match asked {
        Ok(_) => DatabaseFinding::There,
        Err(error) => match Failure::from(error) {
            Failure::NoMemory => DatabaseFinding::NoMemory,
            _ => DatabaseFinding::NotTold,
        },
    }
}

/// Evidence that `realise` may use this store folder: it isn't told that Nix manages it, or the
/// request asks to go on all the same.
#[derive(Clone, Copy)]
pub struct NotNixManaged<'a> {
    dir: &'a str,
}

impl<'a> NotNixManaged<'a> {
    // Where the request asks to go on in a store that Nix manages.
    fn asked_for(request: &RealiseRequest<'a>) -> NotNixManaged<'a>
        requires { request.now.in_nix_store ≡ true }
        ensures { result.dir ≡ request.now.run.store_dir }
    {
        NotNixManaged {
            dir: request.run.store_dir,
        }
    }

    // By a look at Nix's database.
    fn by(
        request: &RealiseRequest<'a>,
        looked: DatabaseLook<'_>,
    ) -> Result<NotNixManaged<'a>, RunError<'a>>
        requires { looked.path.now ≡ database_path request.now.run.store_dir.now }
        ensures { IsAllowedBy request.now looked.entry.found result }
    {
        let dir = request.run.store_dir;
        match looked.found {
            DatabaseFinding::There => Err(RunError::NixStore(dir)),
            DatabaseFinding::NotTold => Ok(NotNixManaged { dir }),
            DatabaseFinding::NoMemory => Err(RunError::NoMemory),
        }
    }

    /// The store folder.
    pub fn dir(self) -> &'a str
        ensures { result ≡ self.entry.dir }
    {
        self.dir
    }
}

/// Evidence that `realise` may use the store folder of a request. `NixStore` where Nix manages it,
/// by one look at one path, unless the request asks to go on; `NoMemory`.
pub fn allow<'a, R: Files + AllocGlobal>(
    rt: &R,
    request: &RealiseRequest<'a>,
) -> Result<NotNixManaged<'a>, RunError<'a>>
    ensures ok { IfOk result (λ allowed. allowed.dir ≡ request.now.run.store_dir) }
    ensures err { IfErr result (IsKeptOut request.now) }
{
    if request.in_nix_store {
        return Ok(NotNixManaged::asked_for(request));
    }
    let database = database_path(rt.alloc(), request.run.store_dir)?;
    NotNixManaged::by(request, look_at(rt, database.as_str()))
}

// The path of the database by which Nix would manage a store folder.
fn database_path(alloc: Global, dir: &str) -> Result<PathBuf, AllocError>
    ensures { IfOk result (λ path. path_buf_bytes path ≡ database_path dir.now) }
{
    Path::new(dir).with_file_name(alloc, DATABASE)
}
