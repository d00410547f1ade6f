//! The arguments that `clap` reads: the words and options of subcommands, by their names.
ghost use Rattle.std.specs.Prelude.{◌≡◌, false};
ghost use Rattle.clap.specs.Words.{rule_of};
ghost use Rattle.command_line.specs.CommandLine.{build_dir_option, builtin_option, cores_option};
ghost use Rattle.command_line.specs.CommandLine.{dot_flag, drv_words, features_option};
ghost use Rattle.command_line.specs.CommandLine.{in_nix_store_flag, jobs_option, journal_option};
ghost use Rattle.command_line.specs.CommandLine.{keep_failed_flag, logs_option, path_words};
ghost use Rattle.command_line.specs.CommandLine.{profile_option, required_word, runner_option};
ghost use Rattle.command_line.specs.CommandLine.{store_dir_option, system_option, trace_option};
ghost use Rattle.command_line.specs.CommandLine.{wait_flag};

use clap::{Arg, ArgAction, value_parser};
use std::alloc::Global;

pub const STORE_DIR: &str = "store-dir";

pub const JOURNAL: &str = "journal";

pub const SYSTEM: &str = "system";

pub const FEATURES: &str = "system-features";

pub const BUILTIN: &str = "builtin";

pub const JOBS: &str = "jobs";

pub const DOT: &str = "dot";

pub const WAIT: &str = "wait";

pub const IN_NIX_STORE: &str = "in-nix-store";

pub const LOGS: &str = "logs";

pub const KEEP_FAILED: &str = "keep-failed";

pub const RUNNER: &str = "runner";

pub const TRACE: &str = "trace";

pub const BUILD_DIR: &str = "build-dir";

pub const CORES: &str = "cores";

pub const PROFILE: &str = "profile";

pub const DRVS: &str = "DRV";

pub const NAME: &str = "NAME";

pub const FILE: &str = "FILE";

pub const PATHS: &str = "PATH";

pub const DEFAULT_STORE_DIR: &str = "/nix/store";

pub const DEFAULT_SYSTEM: &str = "x86_64-linux";

// The number of builders that run at a time, where none is given: as a word, and as a number.
pub const DEFAULT_JOBS_WORD: &str = "1";

pub const DEFAULT_JOBS: u8 = 1;

// The profiles; the plain one where none is given.
pub const PLAIN: &str = "plain";

pub const NIX: &str = "nix";

// The option that names the store folder.
pub fn store_dir<'a>(alloc: Global) -> Arg<'a>
    ensures rule { rule_of result ≡ store_dir_option }
    ensures local { result.global ≡ false }
{
    Arg::new(alloc, STORE_DIR)
        .long(STORE_DIR)
        .value_name("D")
        .help("The store folder, in paths and on disk")
        .default_value(DEFAULT_STORE_DIR)
}

// The option that names the journal file.
pub fn journal<'a>(alloc: Global) -> Arg<'a>
    ensures rule { rule_of result ≡ journal_option }
    ensures local { result.global ≡ false }
{
    Arg::new(alloc, JOURNAL).long(JOURNAL).value_name("F").help(
        "The journal file [default: realiser-journal in the store folder]",
    )
}

// The option that names the system for which derivations are built.
pub fn system<'a>(alloc: Global) -> Arg<'a>
    ensures rule { rule_of result ≡ system_option }
    ensures local { result.global ≡ false }
{
    Arg::new(alloc, SYSTEM)
        .long(SYSTEM)
        .value_name("S")
        .help("The system for which derivations are built")
        .default_value(DEFAULT_SYSTEM)
}

// The option that names the profile.
pub fn profile<'a>(alloc: Global) -> Arg<'a>
    ensures rule { rule_of result ≡ profile_option }
    ensures local { result.global ≡ false }
{
    Arg::new(alloc, PROFILE)
        .long(PROFILE)
        .value_name("KIND")
        .help("Under which rules: plain, for files and folders, or nix, as Nix builds nixpkgs")
        .default_value(PLAIN)
}

// The option that names the features of the system.
pub fn features<'a>(alloc: Global) -> Arg<'a>
    ensures rule { rule_of result ≡ features_option }
    ensures local { result.global ≡ false }
{
    Arg::new(alloc, FEATURES)
        .long(FEATURES)
        .value_name("LIST")
        .help("The features of this system, with commas between them, under the profile nix")
}

// The option that gives a builtin builder its program.
pub fn builtin<'a>(alloc: Global) -> Arg<'a>
    ensures rule { rule_of result ≡ builtin_option }
    ensures local { result.global ≡ false }
{
    Arg::new(alloc, BUILTIN)
        .long(BUILTIN)
        .value_name("NAME=PROGRAM")
        .help("Start this program, an absolute path, for the builder builtin:NAME")
        .action(ArgAction::Append)
}

// The option with the number of builders that run at a time.
pub fn jobs<'a>(alloc: Global) -> Arg<'a>
    ensures rule { rule_of result ≡ jobs_option }
    ensures local { result.global ≡ false }
{
    Arg::new(alloc, JOBS)
        .long(JOBS)
        .value_name("N")
        .help("How many builders run at a time, from 1 to 64")
        .value_parser(value_parser!(u8).range(1..=64))
        .default_value(DEFAULT_JOBS_WORD)
}

// The flag that asks for a graph.
pub fn dot<'a>(alloc: Global) -> Arg<'a>
    ensures rule { rule_of result ≡ dot_flag }
    ensures local { result.global ≡ false }
{
    Arg::new(alloc, DOT)
        .long(DOT)
        .help("Print the same as a graph in Graphviz's language")
        .action(ArgAction::SetTrue)
}

// The flag that asks to wait for another run.
pub fn wait<'a>(alloc: Global) -> Arg<'a>
    ensures rule { rule_of result ≡ wait_flag }
    ensures local { result.global ≡ false }
{
    Arg::new(alloc, WAIT)
        .long(WAIT)
        .help("Wait while another run uses the store folder")
        .action(ArgAction::SetTrue)
}

// The flag that asks to go on in a store that Nix manages.
pub fn in_nix_store<'a>(alloc: Global) -> Arg<'a>
    ensures rule { rule_of result ≡ in_nix_store_flag }
    ensures local { result.global ≡ false }
{
    Arg::new(alloc, IN_NIX_STORE)
        .long(IN_NIX_STORE)
        .help("Go on in a store that Nix manages, and replace what Nix made")
        .action(ArgAction::SetTrue)
}

// The option that names the folder of logs.
pub fn logs<'a>(alloc: Global) -> Arg<'a>
    ensures rule { rule_of result ≡ logs_option }
    ensures local { result.global ≡ false }
{
    Arg::new(alloc, LOGS).long(LOGS).value_name("FOLDER").help(
        "Write what each builder prints to a log of its own in this folder",
    )
}

// The flag that asks to keep the build folders of builders that failed.
pub fn keep_failed<'a>(alloc: Global) -> Arg<'a>
    ensures rule { rule_of result ≡ keep_failed_flag }
    ensures local { result.global ≡ false }
{
    Arg::new(alloc, KEEP_FAILED)
        .long(KEEP_FAILED)
        .help("Keep the build folders of builders that failed")
        .action(ArgAction::SetTrue)
}

// The option that names the program that starts builders.
pub fn runner<'a>(alloc: Global) -> Arg<'a>
    ensures rule { rule_of result ≡ runner_option }
    ensures local { result.global ≡ false }
{
    Arg::new(alloc, RUNNER)
        .long(RUNNER)
        .value_name("PROGRAM")
        .help("Start each builder by this program, an absolute path")
}

// The option that names the file of trace events.
pub fn trace<'a>(alloc: Global) -> Arg<'a>
    ensures rule { rule_of result ≡ trace_option }
    ensures local { result.global ≡ false }
{
    Arg::new(alloc, TRACE).long(TRACE).value_name("FILE").help(
        "Write to this file when each builder ran, as trace events",
    )
}

// The option that names the folder that gets the build folders.
pub fn build_dir<'a>(alloc: Global) -> Arg<'a>
    ensures rule { rule_of result ≡ build_dir_option }
    ensures local { result.global ≡ false }
{
    Arg::new(alloc, BUILD_DIR)
        .long(BUILD_DIR)
        .value_name("B")
        .help("Make the build folders in this folder, under the profile nix")
}

// The option with the number of processors that a builder is told of. A number without a sign, so
// that no minus is taken, not even that of -0.
pub fn cores<'a>(alloc: Global) -> Arg<'a>
    ensures rule { rule_of result ≡ cores_option }
    ensures local { result.global ≡ false }
{
    Arg::new(alloc, CORES)
        .long(CORES)
        .value_name("N")
        .help("How many processors a builder may use under the profile nix, up to 65,535")
        .value_parser(value_parser!(u64).range(0..=65_535))
}

// One or more words, each the path of a derivation.
pub fn drvs<'a>(alloc: Global, help: &'a str) -> Arg<'a>
    ensures rule { rule_of result ≡ drv_words }
    ensures local { result.global ≡ false }
{
    Arg::new(alloc, DRVS)
        .help(help)
        .required(true)
        .action(ArgAction::Append)
}

// One or more words, each the path of a derivation whose outputs are wanted.
pub fn wanted_drvs<'a>(alloc: Global) -> Arg<'a>
    ensures rule { rule_of result ≡ drv_words }
    ensures local { result.global ≡ false }
{
    drvs(alloc, "Paths of derivations whose outputs are wanted")
}

// A required word.
pub fn word<'a>(alloc: Global, id: &'a str, help: &'a str) -> Arg<'a>
    ensures rule { rule_of result ≡ required_word id.entry.now }
    ensures local { result.global ≡ false }
{
    Arg::new(alloc, id).help(help).required(true)
}

// Any number of words, each a path.
pub fn paths<'a>(alloc: Global, help: &'a str) -> Arg<'a>
    ensures rule { rule_of result ≡ path_words }
    ensures local { result.global ≡ false }
{
    Arg::new(alloc, PATHS).help(help).action(ArgAction::Append)
}
