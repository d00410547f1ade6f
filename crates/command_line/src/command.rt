//! The command line that `clap` reads: its subcommands, and the words and options of each.
ghost use Rattle.std.specs.Prelude.{◌≡◌, IfOk};
ghost use Rattle.clap.specs.Words.{app_of, new_app, with_subcommand};
ghost use Rattle.command_line.specs.CommandLine.{add_drv_line, add_text_line, check_line};
ghost use Rattle.command_line.specs.CommandLine.{command_line, path_line, plan_line, realise_line};
ghost use Rattle.command_line.specs.CommandLine.{run_options, top_line, verify_line};
ghost use Rattle.command_line.specs.CommandLine.{with_archives, with_builder_options};

use crate::arguments::{
    FILE, NAME, PATHS, build_dir, builtin, cores, dot, drvs, features, in_nix_store, jobs, journal,
    keep_failed, logs, paths, profile, runner, store_dir, system, trace, wait, wanted_drvs, word,
};
use clap::Command;
use std::alloc::{AllocError, Global};

// The version of this crate.
const VERSION: &str = "0.1.0";

pub const CHECK: &str = "check";

pub const ADD_TEXT: &str = "add-text";

pub const ADD_DRV: &str = "add-drv";

pub const PLAN: &str = "plan";

pub const REALISE: &str = "realise";

pub const DUMP: &str = "dump";

pub const RESTORE: &str = "restore";

pub const HASH: &str = "hash";

pub const VERIFY: &str = "verify";

/// The program's command line.
pub fn command<'a>(alloc: Global) -> Result<Command<'a>, AllocError>
    ensures { IfOk result (λ command. app_of command ≡ command_line) }
{
    let command = top(alloc).subcommand(check_command(alloc)?)?;
    let command = with_adding(alloc, command)?;
    let command = with_running(alloc, command)?;
    with_archives(alloc, command)
}

// The command line without its subcommands.
fn top<'a>(alloc: Global) -> Command<'a>
    ensures { app_of result ≡ top_line }
{
    Command::new(alloc, "nix_realise")
        .version(VERSION)
        .about("Checks and realises store derivations, and adds texts and derivations to a store")
        .after_help("nix_realise help faults tells what each fault means, and what to do")
        .subcommand_required(true)
}

// A command with the subcommands that add to a store: `add-text` and `add-drv`.
fn with_adding<'a>(alloc: Global, command: Command<'a>) -> Result<Command<'a>, AllocError>
    ensures { IfOk result (λ more. app_of more ≡ with_subcommand
        (with_subcommand (app_of command.entry) add_text_line.top) add_drv_line.top) }
{
    command
        .subcommand(add_text_command(alloc)?)?
        .subcommand(add_drv_command(alloc)?)
}

// A command with the subcommands that take a plan and a journal: `plan` and `realise`.
fn with_running<'a>(alloc: Global, command: Command<'a>) -> Result<Command<'a>, AllocError>
    ensures { IfOk result (λ more. app_of more ≡ with_subcommand
        (with_subcommand (app_of command.entry) plan_line.top) realise_line.top) }
{
    command
        .subcommand(plan_command(alloc)?)?
        .subcommand(realise_command(alloc)?)
}

// A command with the subcommands that read and make archives, and the one that verifies by them.
fn with_archives<'a>(alloc: Global, command: Command<'a>) -> Result<Command<'a>, AllocError>
    ensures { IfOk result (λ more. app_of more ≡ with_archives (app_of command.entry)) }
{
    command
        .subcommand(dump_command(alloc)?)?
        .subcommand(restore_command(alloc)?)?
        .subcommand(hash_command(alloc)?)?
        .subcommand(verify_command(alloc)?)
}

// The subcommand `check`.
fn check_command<'a>(alloc: Global) -> Result<Command<'a>, AllocError>
    ensures { IfOk result (λ command. app_of command ≡ check_line) }
{
    subcommand(
        alloc,
        CHECK,
        "Checks that each text is a store derivation and stands under its own path",
    )
    .arg(store_dir(alloc))?
    .arg(drvs(alloc, "Paths of derivations, checked in this order"))
}

// The subcommand `add-text`.
fn add_text_command<'a>(alloc: Global) -> Result<Command<'a>, AllocError>
    ensures { IfOk result (λ command. app_of command ≡ add_text_line) }
{
    subcommand(
        alloc,
        ADD_TEXT,
        "Prints the store path of a text, writes it there and registers it in the journal",
    )
    .arg(store_dir(alloc))?
    .arg(journal(alloc))?
    .arg(profile(alloc))?
    .arg(wait(alloc))?
    .arg(word(alloc, NAME, "The name that the text gets in the store"))?
    .arg(word(alloc, FILE, "The file whose bytes are the text"))
}

// The subcommand `add-drv`.
fn add_drv_command<'a>(alloc: Global) -> Result<Command<'a>, AllocError>
    ensures { IfOk result (λ command. app_of command ≡ add_drv_line) }
{
    subcommand(
        alloc,
        ADD_DRV,
        "Fills the outputs of a draft, writes the derivation and prints its path",
    )
    .arg(store_dir(alloc))?
    .arg(profile(alloc))?
    .arg(word(alloc, NAME, "The name of the derivation"))?
    .arg(word(alloc, FILE, "The file whose bytes are the draft"))
}

// The subcommand `plan`.
fn plan_command<'a>(alloc: Global) -> Result<Command<'a>, AllocError>
    ensures { IfOk result (λ command. app_of command ≡ plan_line) }
{
    run_command(
        alloc,
        PLAN,
        "Tells what realise would report if every builder made its outputs",
    )?
    .arg(dot(alloc))?
    .arg(wanted_drvs(alloc))
}

// The subcommand `realise`.
fn realise_command<'a>(alloc: Global) -> Result<Command<'a>, AllocError>
    ensures { IfOk result (λ command. app_of command ≡ realise_line) }
{
    let command = run_command(
        alloc,
        REALISE,
        "Builds what is wanted of derivations, and tells what became of it",
    )?
    .arg(jobs(alloc))?
    .arg(wait(alloc))?
    .arg(in_nix_store(alloc))?;
    with_builder_options(alloc, command)?.arg(wanted_drvs(alloc))
}

// A command with the options on how builders are started, and on what is kept of their runs.
fn with_builder_options<'a>(alloc: Global, command: Command<'a>) -> Result<Command<'a>, AllocError>
    ensures { IfOk result (λ more. app_of more ≡ with_builder_options (app_of command.entry)) }
{
    command
        .arg(logs(alloc))?
        .arg(keep_failed(alloc))?
        .arg(runner(alloc))?
        .arg(trace(alloc))?
        .arg(build_dir(alloc))?
        .arg(cores(alloc))
}

// A subcommand that takes a plan and a journal, with the options that both have.
fn run_command<'a>(alloc: Global, name: &'a str, about: &'a str) -> Result<Command<'a>, AllocError>
    ensures { IfOk result (λ command. app_of command ≡ run_options name.entry.now) }
{
    subcommand(alloc, name, about)
        .arg(store_dir(alloc))?
        .arg(journal(alloc))?
        .arg(system(alloc))?
        .arg(profile(alloc))?
        .arg(features(alloc))?
        .arg(builtin(alloc))
}

// The subcommand `dump`.
fn dump_command<'a>(alloc: Global) -> Result<Command<'a>, AllocError>
    ensures { IfOk result (λ command. app_of command ≡ path_line DUMP.now) }
{
    subcommand(
        alloc,
        DUMP,
        "Prints the archive, a NAR, of a file, a folder or a link",
    )
    .arg(word(alloc, PATHS, "What is archived"))
}

// The subcommand `restore`.
fn restore_command<'a>(alloc: Global) -> Result<Command<'a>, AllocError>
    ensures { IfOk result (λ command. app_of command ≡ path_line RESTORE.now) }
{
    subcommand(
        alloc,
        RESTORE,
        "Makes a file, a folder or a link from the archive on standard input",
    )
    .arg(word(alloc, PATHS, "Where it is made, and nothing may lie yet"))
}

// The subcommand `hash`.
fn hash_command<'a>(alloc: Global) -> Result<Command<'a>, AllocError>
    ensures { IfOk result (λ command. app_of command ≡ path_line HASH.now) }
{
    subcommand(
        alloc,
        HASH,
        "Prints the SHA-256 and the length of an archive",
    )
    .arg(word(alloc, PATHS, "What is archived to be measured"))
}

// The subcommand `verify`.
fn verify_command<'a>(alloc: Global) -> Result<Command<'a>, AllocError>
    ensures { IfOk result (λ command. app_of command ≡ verify_line) }
{
    subcommand(
        alloc,
        VERIFY,
        "Reads valid paths again, and tells which are not what the journal says",
    )
    .arg(store_dir(alloc))?
    .arg(journal(alloc))?
    .arg(paths(alloc, "Valid paths to be read; without one, all are"))
}

// A subcommand without arguments.
fn subcommand<'a>(alloc: Global, name: &'a str, about: &'a str) -> Command<'a>
    ensures { app_of result ≡ new_app name.entry.now }
{
    Command::new(alloc, name).about(about)
}
