//! The words of a command line, read by `clap`.
ghost use Rattle.std.specs.Prelude.{◌≡◌, ◌⊎◌, ◌↔◌, [], IfErr, IfOk, IsTrue, MatchOption, codes, map};
ghost use Rattle.std.specs.Prelude.{option_map};
ghost use Rattle.clap.specs.Words.{first_of, found_of, kind_of, rows_of, subcommand_rows_of};
ghost use Rattle.command_line.specs.Builtins.{AreBuiltins, IsBuiltinFault};
ghost use Rattle.command_line.specs.private.Found.{HasCores, HasJobs, IsFound, IsSubcommand};
ghost use Rattle.command_line.specs.Usage.{AskForFaults, IsAsked, IsReadFault, IsUsageFault, faults_in};
ghost use Rattle.command_line.specs.Profiles.{IsProfileFault, IsRunFault, IsWordFaultBy, IsWordFaultIn};
ghost use Rattle.command_line.specs.Requests.{AreCores, AreJobs, IsAddDrv, IsAddText, IsAskedBy};
ghost use Rattle.command_line.specs.Requests.{IsAskedIn, IsCheckRequest, IsDump, IsHash};
ghost use Rattle.command_line.specs.Requests.{IsPlanned, IsRealise, IsRequest, IsRestore};
ghost use Rattle.command_line.specs.Requests.{IsRunRequest, IsVerify, NamesNoProfile};
ghost use Rattle.command_line.specs.Requests.{NamesProfile, is_flagged, jobs_in, profile_in};
ghost use Rattle.command_line.specs.Requests.{store_dir_in, system_in, word_in, words_in};

use crate::arguments::{
    BUILD_DIR, BUILTIN, CORES, DEFAULT_JOBS, DEFAULT_STORE_DIR, DEFAULT_SYSTEM, DOT, DRVS,
    FEATURES, FILE, IN_NIX_STORE, JOBS, JOURNAL, KEEP_FAILED, LOGS, NAME, NIX, PATHS, PLAIN,
    PROFILE, RUNNER, STORE_DIR, SYSTEM, TRACE, WAIT,
};
use crate::builtins::builtins_in;
use crate::command::{
    ADD_DRV, ADD_TEXT, CHECK, DUMP, HASH, PLAN, REALISE, RESTORE, VERIFY, command,
};
use crate::options::{
    AddDrvRequest, AddTextRequest, Builtin, CheckRequest, DumpRequest, HashRequest, PlanRequest,
    RealiseRequest, Request, RestoreRequest, RunRequest, VerifyRequest,
};
use clap::error::ErrorKind;
use clap::{ArgMatches, Error};
use drv_graph::Profile;
use std::alloc::{AllocError, Global};

/// Reads a command line, whose first word is the program's own name. An error is a mistake in the
/// words, a request for other help or the version, or want of memory; its text is `clap`'s.
pub fn request<'a>(alloc: Global, words: &'a [&'a str]) -> Result<Request<'a>, Error>
    ensures ok { IfOk result (IsAsked (map (λ w. w.now) words.entry.now)) }
    ensures err { IfErr result
        (λ e. IsUsageFault (map (λ w. w.now) words.entry.now) (kind_of e)) }
{
    if asks_for_faults(words) {
        return Ok(Request::Faults);
    }
    read_request(alloc, words)
}

// Whether the words ask for the table of faults: they are `help faults`.
fn asks_for_faults(words: &[&str]) -> bool
    ensures { IsTrue result ↔ AskForFaults (map (λ w. w.now) words.now) }
{
    matches!(words, [_, "help", "faults"])
}

// Reads a command line as `clap` does.
fn read_request<'a>(alloc: Global, words: &'a [&'a str]) -> Result<Request<'a>, Error>
    ensures ok { IfOk result (λ request. IsRequest (map (λ w. w.now) words.entry.now) request
        × (faults_in (map (λ w. w.now) words.entry.now) ≡ [])) }
    ensures err { IfErr result
        (λ e. IsReadFault (map (λ w. w.now) words.entry.now) (kind_of e)) }
{
    let matches = command(alloc)?.try_get_matches_from(words)?;
    found_request(alloc, &matches)
}

// The request of the subcommand that was found.
fn found_request<'a>(alloc: Global, matches: &ArgMatches<'a>) -> Result<Request<'a>, Error>
    requires { IsFound (subcommand_rows_of matches.now) }
    ensures ok { IfOk result (IsAskedIn (subcommand_rows_of matches.now)) }
    ensures err { IfErr result (λ e. (kind_of e ≡ ErrorKind.OutOfMemory)
        ⊎ IsWordFaultIn (subcommand_rows_of matches.now) (kind_of e)) }
{
    match matches.subcommand() {
        Some((name, found)) => subcommand_request(alloc, name, found),
        None => unreachable!(),
    }
}

// The request of the subcommand with this name, by its matches.
fn subcommand_request<'a>(
    alloc: Global,
    name: &str,
    found: &ArgMatches<'a>,
) -> Result<Request<'a>, Error>
    requires name { IsSubcommand name.now }
    requires jobs { HasJobs (rows_of (found_of found.now)) }
    requires cores { HasCores (rows_of (found_of found.now)) }
    ensures ok { IfOk result (IsAskedBy name.now (rows_of (found_of found.now))) }
    ensures err { IfErr result
        (λ e. (kind_of e ≡ ErrorKind.OutOfMemory)
        ⊎ IsWordFaultBy name.now (rows_of (found_of found.now)) (kind_of e)) }
{
    match name {
        CHECK => Ok(Request::Check(check_request(alloc, found)?)),
        ADD_TEXT => Ok(Request::AddText(add_text_request(alloc, found)?)),
        ADD_DRV => Ok(Request::AddDrv(add_drv_request(alloc, found)?)),
        PLAN => Ok(Request::Plan(plan_request(alloc, found)?)),
        REALISE => Ok(Request::Realise(realise_request(alloc, found)?)),
        DUMP => Ok(Request::Dump(dump_request(found))),
        RESTORE => Ok(Request::Restore(restore_request(found))),
        HASH => Ok(Request::Hash(hash_request(found))),
        VERIFY => Ok(Request::Verify(verify_request(alloc, found)?)),
        _ => unreachable!(),
    }
}

/// The usage fault of a command line with a word that is not UTF-8.
pub fn not_text(alloc: Global) -> Result<Error, AllocError>
    ensures { IfOk result (λ e. kind_of e ≡ ErrorKind.ValueValidation) }
{
    command(alloc)?.error(
        ErrorKind::ValueValidation,
        "invalid UTF-8 was detected in one or more arguments",
    )
}

// The request of `check`, by its matches.
fn check_request<'a>(alloc: Global, found: &ArgMatches<'a>) -> Result<CheckRequest<'a>, AllocError>
    ensures { IfOk result (IsCheckRequest (rows_of (found_of found.now))) }
{
    Ok(CheckRequest {
        store_dir: store_dir_of(found),
        drvs: words_of(alloc, found, DRVS)?,
    })
}

// The request of `add-text`, by its matches.
fn add_text_request<'a>(alloc: Global, found: &ArgMatches<'a>) -> Result<AddTextRequest<'a>, Error>
    ensures ok { IfOk result (IsAddText (rows_of (found_of found.now))) }
    ensures err { IfErr result
        (λ e. (kind_of e ≡ ErrorKind.OutOfMemory)
        ⊎ IsProfileFault (profile_in (rows_of (found_of found.now))) (kind_of e)) }
{
    Ok(AddTextRequest {
        store_dir: store_dir_of(found),
        journal: value_of(found, JOURNAL),
        name: word_of(found, NAME),
        file: word_of(found, FILE),
        wait: is_flagged(found, WAIT),
        profile: profile_of(alloc, found)?,
    })
}

// The request of `add-drv`, by its matches.
fn add_drv_request<'a>(alloc: Global, found: &ArgMatches<'a>) -> Result<AddDrvRequest<'a>, Error>
    ensures ok { IfOk result (IsAddDrv (rows_of (found_of found.now))) }
    ensures err { IfErr result
        (λ e. (kind_of e ≡ ErrorKind.OutOfMemory)
        ⊎ IsProfileFault (profile_in (rows_of (found_of found.now))) (kind_of e)) }
{
    Ok(AddDrvRequest {
        store_dir: store_dir_of(found),
        name: word_of(found, NAME),
        file: word_of(found, FILE),
        profile: profile_of(alloc, found)?,
    })
}

// The request of `plan`, by its matches.
fn plan_request<'a>(alloc: Global, found: &ArgMatches<'a>) -> Result<PlanRequest<'a>, Error>
    ensures ok { IfOk result (IsPlanned (rows_of (found_of found.now))) }
    ensures err { IfErr result
        (λ e. (kind_of e ≡ ErrorKind.OutOfMemory)
        ⊎ IsRunFault (rows_of (found_of found.now)) (kind_of e)) }
{
    Ok(PlanRequest {
        run: run_request(alloc, found)?,
        dot: is_flagged(found, DOT),
    })
}

// The request of `realise`, by its matches.
fn realise_request<'a>(alloc: Global, found: &ArgMatches<'a>) -> Result<RealiseRequest<'a>, Error>
    requires jobs { HasJobs (rows_of (found_of found.now)) }
    requires cores { HasCores (rows_of (found_of found.now)) }
    ensures ok { IfOk result (IsRealise (rows_of (found_of found.now))) }
    ensures err { IfErr result
        (λ e. (kind_of e ≡ ErrorKind.OutOfMemory)
        ⊎ IsRunFault (rows_of (found_of found.now)) (kind_of e)) }
{
    Ok(RealiseRequest {
        run: run_request(alloc, found)?,
        jobs: jobs_of(found),
        wait: is_flagged(found, WAIT),
        in_nix_store: is_flagged(found, IN_NIX_STORE),
        logs: value_of(found, LOGS),
        keep_failed: is_flagged(found, KEEP_FAILED),
        runner: value_of(found, RUNNER),
        trace: value_of(found, TRACE),
        build_dir: value_of(found, BUILD_DIR),
        cores: cores_of(found),
    })
}

// The request of `dump`, by its matches.
fn dump_request<'a>(found: &ArgMatches<'a>) -> DumpRequest<'a>
    ensures { IsDump (rows_of (found_of found.now)) result }
{
    DumpRequest {
        path: word_of(found, PATHS),
    }
}

// The request of `restore`, by its matches.
fn restore_request<'a>(found: &ArgMatches<'a>) -> RestoreRequest<'a>
    ensures { IsRestore (rows_of (found_of found.now)) result }
{
    RestoreRequest {
        path: word_of(found, PATHS),
    }
}

// The request of `hash`, by its matches.
fn hash_request<'a>(found: &ArgMatches<'a>) -> HashRequest<'a>
    ensures { IsHash (rows_of (found_of found.now)) result }
{
    HashRequest {
        path: word_of(found, PATHS),
    }
}

// The request of `verify`, by its matches.
fn verify_request<'a>(
    alloc: Global,
    found: &ArgMatches<'a>,
) -> Result<VerifyRequest<'a>, AllocError>
    ensures { IfOk result (IsVerify (rows_of (found_of found.now))) }
{
    Ok(VerifyRequest {
        store_dir: store_dir_of(found),
        journal: value_of(found, JOURNAL),
        paths: words_of(alloc, found, PATHS)?,
    })
}

// The words that `plan` and `realise` share, by their matches.
fn run_request<'a>(alloc: Global, found: &ArgMatches<'a>) -> Result<RunRequest<'a>, Error>
    ensures ok { IfOk result (IsRunRequest (rows_of (found_of found.now))) }
    ensures err { IfErr result
        (λ e. (kind_of e ≡ ErrorKind.OutOfMemory)
        ⊎ IsRunFault (rows_of (found_of found.now)) (kind_of e)) }
{
    Ok(RunRequest {
        store_dir: store_dir_of(found),
        journal: value_of(found, JOURNAL),
        system: system_of(found),
        profile: profile_of(alloc, found)?,
        features: value_of(found, FEATURES),
        builtins: builtins_of(alloc, found)?,
        drvs: words_of(alloc, found, DRVS)?,
    })
}

// The store folder that the matches give, or the default one.
#[tactic(auto, using(crate::proofs::Rows::first_row))]
fn store_dir_of<'a>(found: &ArgMatches<'a>) -> &'a str
    ensures { result.now ≡ store_dir_in (rows_of (found_of found.now)) }
{
    found.get_str(STORE_DIR).unwrap_or(DEFAULT_STORE_DIR)
}

// The system that the matches give, or the default one.
#[tactic(auto, using(crate::proofs::Rows::first_row))]
fn system_of<'a>(found: &ArgMatches<'a>) -> &'a str
    ensures { result.now ≡ system_in (rows_of (found_of found.now)) }
{
    found.get_str(SYSTEM).unwrap_or(DEFAULT_SYSTEM)
}

// The profile that the matches give, or the default one; a fault where the word is no profile.
#[tactic(auto, using(crate::proofs::Rows::first_row))]
fn profile_of(alloc: Global, found: &ArgMatches<'_>) -> Result<Profile, Error>
    ensures ok { IfOk result (NamesProfile (profile_in (rows_of (found_of found.now)))) }
    ensures err { IfErr result
        (λ e. (kind_of e ≡ ErrorKind.OutOfMemory)
        ⊎ IsProfileFault (profile_in (rows_of (found_of found.now))) (kind_of e)) }
{
    let name = found.get_str(PROFILE).unwrap_or(PLAIN);
    match profile_named(name) {
        Some(profile) => Ok(profile),
        None => Err(no_profile(alloc, name)?),
    }
}

// The profile with this name, if there is one.
fn profile_named(name: &str) -> Option<Profile>
    ensures { MatchOption result (NamesNoProfile name.now) (NamesProfile name.now) }
{
    match name {
        PLAIN => Some(Profile::Plain),
        NIX => Some(Profile::Nix),
        _ => None,
    }
}

// The usage fault of a word that is no profile.
fn no_profile(alloc: Global, word: &str) -> Result<Error, AllocError>
    ensures { IfOk result (λ e. kind_of e ≡ ErrorKind.InvalidValue) }
{
    let message = format!(in alloc;
        "invalid value '{word}' for '--profile <KIND>': it is neither plain nor nix"
    )?;
    command(alloc)?.error(ErrorKind::InvalidValue, message.as_str())
}

// The builtin builders to which the matches give a program, in their order.
#[tactic(auto, using(crate::proofs::Rows::all_row))]
fn builtins_of<'a>(alloc: Global, found: &ArgMatches<'a>) -> Result<Vec<Builtin<'a>>, Error>
    ensures ok { IfOk result (λ builtins.
        AreBuiltins (words_in (codes "builtin") (rows_of (found_of found.now))) builtins.items) }
    ensures err { IfErr result (λ e. (kind_of e ≡ ErrorKind.OutOfMemory)
        ⊎ IsBuiltinFault (words_in (codes "builtin") (rows_of (found_of found.now))) (kind_of e)) }
{
    builtins_in(alloc, found.get_strs(BUILTIN).unwrap_or(&[]))
}

// The number of builders that the matches give, or the default one.
fn jobs_of(found: &ArgMatches<'_>) -> u8
    requires { HasJobs (rows_of (found_of found.now)) }
    ensures { AreJobs (jobs_in (rows_of (found_of found.now))) result }
{
    found.get_one(JOBS).unwrap_or(DEFAULT_JOBS)
}

// The number of processors that the matches give, if they give one.
fn cores_of(found: &ArgMatches<'_>) -> Option<u16>
    requires { HasCores (rows_of (found_of found.now)) }
    ensures { AreCores (first_of (codes "cores") (rows_of (found_of found.now))) result }
{
    found.get_one(CORES)
}

// The value of the option with this id, where the matches give one.
#[tactic(auto, using(crate::proofs::Rows::first_row))]
fn value_of<'a>(found: &ArgMatches<'a>, id: &str) -> Option<&'a str>
    ensures { option_map (λ s. s.now) result ≡ first_of id.now (rows_of (found_of found.now)) }
{
    found.get_str(id)
}

// Whether the matches have the flag with this id.
#[tactic(auto, using(crate::proofs::Rows::first_row))]
fn is_flagged(found: &ArgMatches<'_>, id: &str) -> bool
    ensures { result ≡ is_flagged id.now (rows_of (found_of found.now)) }
{
    match found.get_str(id) {
        Some(text) => text == "true",
        None => false,
    }
}

// The word with this id.
#[tactic(auto, using(crate::proofs::Rows::first_row))]
fn word_of<'a>(found: &ArgMatches<'a>, id: &str) -> &'a str
    ensures { result.now ≡ word_in id.now (rows_of (found_of found.now)) }
{
    found.get_str(id).unwrap_or("")
}

// The words with this id, in their order.
#[tactic(auto, using(crate::proofs::Rows::all_row))]
fn words_of<'a>(alloc: Global, found: &ArgMatches<'a>, id: &str) -> Result<Vec<&'a str>, AllocError>
    ensures { IfOk result (λ words.
        map (λ w. w.now) words.items ≡ words_in id.now (rows_of (found_of found.now))) }
{
    Vec::from_slice(alloc, found.get_strs(id).unwrap_or(&[]))
}
