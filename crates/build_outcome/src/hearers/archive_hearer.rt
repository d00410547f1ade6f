//! The sum of the archive of a tree that is heard.
ghost use Rattle.std.specs.Prelude.{IfOk};
ghost use Rattle.drv_graph.specs.declared.kinds.Kind.{Kind as AKind};
ghost use Rattle.drv_graph.specs.declared.profile.Profile.{Profile as AProfile};
ghost use Rattle.nix_archive.specs.Trees.{Tree as Archived};
ghost use Rattle.nix_archive.specs.Tokens.{tokens_of};
ghost use Rattle.build_outcome.specs.Hearing.{IsArchiveBegun, IsArchiveHeard};
ghost use Rattle.build_outcome.specs.private.Hearing.{IsSumTold};

use super::archive_sink::ArchiveSink;
use crate::reason::Reason;
use crate::sums::{OutputSum, needs_archive};
use drv_graph::{Kind, Profile};
use nix_archive::{ArchiveWriter, Event, Hear};
use std::alloc::AllocError;

// A hearer that sums the archive of the tree that it hears, where archives are asked for. It takes
// no memory.
#[derive(Drop)]
pub(crate) struct ArchiveHearer {
    writer: Option<ArchiveWriter<ArchiveSink>>,
}

impl ArchiveHearer {
    // A hearer for an output of this kind, which has heard nothing.
    pub(crate) fn new(profile: Profile, kind: &Kind) -> Result<ArchiveHearer, AllocError>
        ensures { IfOk result (IsArchiveBegun profile kind.now) }
    {
        if !needs_archive(profile, kind) {
            return Ok(ArchiveHearer { writer: None });
        }
        let writer = ArchiveWriter::begin(ArchiveSink::new(kind))?;
        Ok(ArchiveHearer {
            writer: Some(writer),
        })
    }

    // The sum of the archive that was heard, where archives are asked for; an error where it has
    // 2^63 bytes or more.
    pub(crate) fn finish(self) -> Result<Option<OutputSum>, Reason>
        ensures { (profile : AProfile) (kind : AKind) (start : _) (tree : Archived)
            → IsArchiveBegun profile kind start → IsArchiveHeard start (tokens_of tree) self
            → IsSumTold profile kind tree result }
    {
        let Some(writer) = self.writer else {
            return Ok(None);
        };
        match writer.sink.finish() {
            Some(sum) => Ok(Some(sum)),
            None => Err(Reason::ReadFault),
        }
    }
}

impl Hear for ArchiveHearer {
    ghost use Rattle.build_outcome.specs.private.HearingLaws.{archive_both, archive_none};

    ghost heard = { IsArchiveHeard };

    ghost silence = { λ s. archive_none s };

    ghost joins = { λ s m t before after h g. archive_both s m t before after h g };

    fn hear(&mut self, event: Event<'_>) -> Result<(), AllocError> {
        match &mut self.writer {
            Some(writer) => writer.hear(event),
            None => Ok(()),
        }
    }
}
