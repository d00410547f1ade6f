//! What a command line asks the program for.
use drv_graph::Profile;

/// One request, by its subcommand.
#[derive(Debug, Drop)]
pub enum Request<'a> {
    /// `check`: are these texts store derivations, each under its own path?
    Check(CheckRequest<'a>),
    /// `add-text`: put a file's bytes into the store.
    AddText(AddTextRequest<'a>),
    /// `add-drv`: fill a draft and put it into the store.
    AddDrv(AddDrvRequest<'a>),
    /// `plan`: forecast the report of `realise`.
    Plan(PlanRequest<'a>),
    /// `realise`: make the outputs of derivations valid.
    Realise(RealiseRequest<'a>),
    /// `dump`: print the archive of what lies at a path.
    Dump(DumpRequest<'a>),
    /// `restore`: make at a path what an archive holds.
    Restore(RestoreRequest<'a>),
    /// `hash`: print the digest and the length of the archive of what lies at a path.
    Hash(HashRequest<'a>),
    /// `verify`: are valid paths still what the journal says?
    Verify(VerifyRequest<'a>),
    /// `help faults`: what each fault means, and what to do.
    Faults,
}

/// The words of `check`.
#[derive(Debug, Drop)]
pub struct CheckRequest<'a> {
    /// The store folder, as it was given.
    pub store_dir: &'a str,
    /// The paths to check, as they were given and in their order.
    pub drvs: Vec<&'a str>,
}

/// The words of `add-text`.
#[derive(Debug, Drop)]
pub struct AddTextRequest<'a> {
    /// The store folder, as it was given.
    pub store_dir: &'a str,
    /// The path of the journal file, where one was given.
    pub journal: Option<&'a str>,
    /// The name that the text gets in the store.
    pub name: &'a str,
    /// The path of the file whose bytes are the text.
    pub file: &'a str,
    /// Whether it waits while another run uses the store folder.
    pub wait: bool,
    /// Under which rules the text is registered: under those of Nix with its NAR.
    pub profile: Profile,
}

/// The words of `add-drv`.
#[derive(Debug, Drop)]
pub struct AddDrvRequest<'a> {
    /// The store folder, as it was given.
    pub store_dir: &'a str,
    /// The name of the derivation.
    pub name: &'a str,
    /// The path of the file whose bytes are the draft.
    pub file: &'a str,
    /// Under which rules the draft is filled.
    pub profile: Profile,
}

/// A builtin builder with its program.
#[derive(Clone, Copy, Debug)]
pub struct Builtin<'a> {
    /// Its name, as `fetchurl` of the builder `builtin:fetchurl`.
    pub name: &'a str,
    /// The path of the program that is started for it, as it was given.
    pub program: &'a str,
}

/// The words that `plan` and `realise` share.
#[derive(Debug, Drop)]
pub struct RunRequest<'a> {
    /// The store folder, as it was given.
    pub store_dir: &'a str,
    /// The path of the journal file, where one was given.
    pub journal: Option<&'a str>,
    /// The system for which derivations are built.
    pub system: &'a str,
    /// Under which rules derivations are read and built.
    pub profile: Profile,
    /// The features that the system offers, with commas between them, where they were given.
    pub features: Option<&'a str>,
    /// The builtin builders that have a program, as they were given and in their order.
    pub builtins: Vec<Builtin<'a>>,
    /// The paths of the derivations whose outputs are wanted, as they were given and in their
    /// order.
    pub drvs: Vec<&'a str>,
}

/// The words of `plan`.
#[derive(Debug, Drop)]
pub struct PlanRequest<'a> {
    /// The words of the run that is forecast.
    pub run: RunRequest<'a>,
    /// Whether the forecast is printed as a graph in Graphviz's language.
    pub dot: bool,
}

/// The words of `realise`.
#[derive(Debug, Drop)]
pub struct RealiseRequest<'a> {
    /// The words of the run.
    pub run: RunRequest<'a>,
    /// How many builders run at a time, from 1 to 64.
    pub jobs: u8,
    /// Whether it waits while another run uses the store folder.
    pub wait: bool,
    /// Whether it goes on in a store folder that Nix manages.
    pub in_nix_store: bool,
    /// The folder that gets a log of each builder, where one was given.
    pub logs: Option<&'a str>,
    /// Whether the build folders of builders that failed are kept.
    pub keep_failed: bool,
    /// The program that starts the builders, where one was given.
    pub runner: Option<&'a str>,
    /// The file that gets the trace events of the run, where one was given.
    pub trace: Option<&'a str>,
    /// The folder that gets the build folders, where one was given.
    pub build_dir: Option<&'a str>,
    /// How many processors a builder is told that it may use, where a number was given.
    pub cores: Option<u16>,
}

/// The word of `dump`.
#[derive(Debug, Drop)]
pub struct DumpRequest<'a> {
    /// The path of the file, folder or link that is archived, as it was given.
    pub path: &'a str,
}

/// The word of `restore`.
#[derive(Debug, Drop)]
pub struct RestoreRequest<'a> {
    /// The path at which the archive's file, folder or link is made, as it was given.
    pub path: &'a str,
}

/// The word of `hash`.
#[derive(Debug, Drop)]
pub struct HashRequest<'a> {
    /// The path of the file, folder or link whose archive is measured, as it was given.
    pub path: &'a str,
}

/// The words of `verify`.
#[derive(Debug, Drop)]
pub struct VerifyRequest<'a> {
    /// The store folder, as it was given.
    pub store_dir: &'a str,
    /// The path of the journal file, where one was given.
    pub journal: Option<&'a str>,
    /// The paths to verify, as they were given and in their order; none stands for all valid paths.
    pub paths: Vec<&'a str>,
}
