//! The one pass over an output.
ghost use Rattle.std.specs.Prelude.{◌≡◌, ◌↔◌, ◌⊎◌, IfErr, IfOk, IsTrue, List, ℕ};
ghost use Rattle.drv_graph.specs.declared.profile.Profile.TheVariants.{Nix, Plain};
ghost use Rattle.nix_archive.specs.Tokens.{tokens_of};
ghost use Rattle.nix_archive.specs.Trees.{IsArchivable, Tree as Archived};
ghost use Rattle.nix_names.specs.Rising.{IsRising};
ghost use Rattle.build_outcome.specs.declared.job.Job.{Job as AJob};
ghost use Rattle.build_outcome.specs.Heard.{IsHeardOutput, IsNotKept, file_algorithm};
ghost use Rattle.build_outcome.specs.Hearing.{IsOutputBegun, IsOutputHeard, IsStillWithin};

use super::archive_hearer::ArchiveHearer;
use super::file_hearer::FileHearer;
use super::heard_output::HeardOutput;
use crate::job::Job;
use crate::reason::Reason;
use drv_graph::{Kind, Method, Profile};
use nix_archive::{Event, Hear};
use nix_names::{Algorithm, StorePath};
use ref_scan::{ScanFault, TreeCounts, TreeScanner};
use std::alloc::{AllocError, Global};

/// Hears the tree of one output of a job, once, and keeps what a verdict asks of it. Bytes are
/// hashed only where somebody asks for the digest: those of a file for a fixed output by its bytes,
/// and under `plain` for one that isn't fixed; those of the archive under `nix`, and under `plain`
/// where the archive is declared. Hearing takes no memory.
#[derive(Drop)]
pub struct OutputHearer {
    profile: Profile,
    scanner: TreeScanner,
    counts: TreeCounts,
    file: FileHearer,
    archive: ArchiveHearer,
}

impl OutputHearer {
    /// A hearer of an output of this job, which may refer to these permitted paths alone. It has
    /// heard nothing. Takes memory for the paths and for a table of their hash parts.
    pub fn new(
        alloc: Global,
        job: &Job,
        permitted: &[StorePath],
    ) -> Result<OutputHearer, AllocError>
        requires { IsRising permitted.now }
        ensures { IfOk result (IsOutputBegun job.now permitted.now) }
    {
        let scanner = match TreeScanner::new(alloc, permitted) {
            Ok(scanner) => scanner,
            Err(ScanFault::NoMemory) => return Err(AllocError),
        };
        let archive = ArchiveHearer::new(job.profile, &job.kind)?;
        Ok(OutputHearer {
            profile: job.profile,
            scanner,
            counts: TreeCounts::new(),
            file: FileHearer::new(file_algorithm(job.profile, &job.kind)),
            archive,
        })
    }

    /// Whether what was heard may still be taken: under `plain` what keeps the limits of an output.
    /// Once it may not, nothing that is heard later changes this.
    pub fn may_be_taken(&self) -> bool
        ensures { IsTrue result ↔ IsStillWithin self.now.profile self.now.counts }
    {
        match self.profile {
            Profile::Plain => self.counts.fit(),
            Profile::Nix => true,
        }
    }

    /// What is kept of the tree, once all of it was heard. `OutOfMemory` where memory was refused.
    /// `ReadFault` where its archive is asked for and has 2^63 bytes or more, and `TooLarge`, which
    /// is of the profile `plain`, where the tree passes the limits of an output.
    pub fn finish(self, others_may_write: bool) -> Result<HeardOutput, Reason>
        ensures kept { IfOk result (λ output. (job : AJob) (permitted : List (List ℕ)) (start : _)
            (tree : Archived) → IsOutputBegun job permitted start
            → IsOutputHeard start (tokens_of tree) self → IsArchivable tree
            → IsHeardOutput job permitted tree others_may_write output) }
        ensures err { IfErr result (λ why. (job : AJob) (permitted : List (List ℕ)) (start : _)
            (tree : Archived) → IsOutputBegun job permitted start
            → IsOutputHeard start (tokens_of tree) self → IsNotKept job tree why) }
    {
        let is_taken = self.may_be_taken();
        let sum = self.archive.finish()?;
        if !is_taken {
            return Err(Reason::TooLarge);
        }
        let is_flat_file = self.file.is_flat_file(self.profile);
        let references = match self.scanner.finish() {
            Ok(references) => references,
            Err(ScanFault::NoMemory) => return Err(Reason::OutOfMemory),
        };
        let digest = self.file.finish();
        Ok(HeardOutput {
            references,
            is_flat_file,
            digest,
            sum,
            others_may_write,
        })
    }
}

// The algorithm by which the bytes of a file at an output of this kind are hashed, if they are.
fn file_algorithm(profile: Profile, kind: &Kind) -> Option<Algorithm>
    ensures { result ≡ file_algorithm profile kind.now }
{
    match kind {
        Kind::Fixed(Method::Flat, declared) => Some(declared.algorithm()),
        Kind::Fixed(Method::Recursive, _) => None,
        Kind::Addressed => match profile {
            Profile::Plain => Some(Algorithm::Sha256),
            Profile::Nix => None,
        },
    }
}

impl Hear for OutputHearer {
    ghost use Rattle.build_outcome.specs.private.HearingLaws.{output_both, output_none};

    ghost heard = { IsOutputHeard };

    ghost silence = { λ s. output_none s };

    ghost joins = { λ s m t before after h g. output_both s m t before after h g };

    fn hear(&mut self, event: Event<'_>) -> Result<(), AllocError> {
        self.scanner.hear(event)?;
        self.counts.hear(event)?;
        self.file.hear(event)?;
        self.archive.hear(event)
    }
}
