//! The paths that are verified.
ghost use Rattle.std.specs.Prelude.{◌≡◌, ◌++◌, All, IfErr, IfOk, MatchOption, OnOk, map};
ghost use Rattle.valid_table.specs.Entries.{paths_registered, registered};
ghost use Rattle.valid_table.specs.Valid.{IsValid};
ghost use Rattle.nix_realise.specs.Verifying.{AreAsked, words_of};
ghost use Rattle.nix_realise.specs.private.Asking.{IsNotAsked, IsStrayWord};

use crate::cli::run_error::RunError;
use command_line::VerifyRequest;
use nix_names::{StorePath, sort_paths};
use std::alloc::{AllocError, Global};
use valid_table::{Journal, Registration};

/// The paths that are verified, once each, by path: those that a request names, or all that are
/// valid by the journal where it names none. `NotValid` for the first one that is named and isn't
/// valid; `NoMemory`. Costs a look-up by hash for each, and a sort.
pub fn asked_paths<'a>(
    alloc: Global,
    request: &VerifyRequest<'a>,
    named: Vec<StorePath>,
    journal: &Journal,
) -> Result<Vec<StorePath>, RunError<'a>>
    requires { named.items ≡ words_of request.now }
    ensures ok { IfOk result (λ paths. AreAsked (words_of request.now) journal.now paths.items) }
    ensures valid { IfOk result (λ paths.
        All (IsValid (registered journal.now.entries)) paths.items) }
    ensures err { IfErr result (IsNotAsked (words_of request.now) journal.now) }
{
    if let Some(word) = stray_word(&request.paths, &named, journal) {
        return Err(RunError::NotValid(word));
    }
    if named.is_empty() {
        return Ok(sort_paths(valid_paths(alloc, journal)?));
    }
    Ok(sort_paths(named))
}

// The first of some words whose path is not valid, if there is one.
fn stray_word<'a>(words: &[&'a str], paths: &[StorePath], journal: &Journal) -> Option<&'a str>
    requires { paths.now ≡ map (λ w. w.now) words.now }
    ensures { MatchOption result (All (IsValid (registered journal.now.entries)) paths.now)
        (IsStrayWord (map (λ w. w.now) words.now) journal.now) }
{
    for (index, word) in words.iter().enumerate() {
        if !journal.registers(&paths[index]) {
            return Some(word);
        }
    }
    None
}

// The paths that are valid by a journal, in the order of its entries.
fn valid_paths(alloc: Global, journal: &Journal) -> Result<Vec<StorePath>, AllocError>
    ensures { IfOk result
        (λ paths. paths.items ≡ paths_registered (registered journal.now.entries)) }
{
    let mut paths = Vec::new(alloc);
    for entry in journal.entries() {
        push_paths(alloc, entry.registrations(), &mut paths)?;
    }
    Ok(paths)
}

// Adds the paths of some registrations.
fn push_paths(
    alloc: Global,
    registrations: &[Registration],
    paths: &mut Vec<StorePath>,
) -> Result<(), AllocError>
    ensures { OnOk result (paths.new.items ≡ paths.old.items ++ paths_registered registrations.now) }
{
    for registration in registrations {
        paths.push(registration.path.copy(alloc)?)?;
    }
    Ok(())
}
