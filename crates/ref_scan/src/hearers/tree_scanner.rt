//! The scan of a tree that is heard.
ghost use Rattle.std.specs.Prelude.{IfOk};
ghost use Rattle.nix_names.specs.Rising.{IsRising};
ghost use Rattle.ref_scan.specs.Hearing.{IsFoundAtHearing, IsNewScanner};

use crate::fault::ScanFault;
use crate::scanner::Scanner;
use nix_archive::{Event, Hear};
use nix_names::StorePath;
use std::alloc::{AllocError, Global};

/// Scans the tree that it hears: each file's bytes, each link's target and each entry's name are a
/// list of their own, and no hash part is found across two of them. Hearing takes no memory.
#[derive(Drop)]
pub struct TreeScanner {
    scanner: Scanner,
}

impl TreeScanner {
    /// A scanner for the hash parts of these paths, which has heard nothing. Takes memory for the
    /// paths and for a table of their hash parts. `NoMemory`, the only fault, where it was refused.
    pub fn new(alloc: Global, permitted: &[StorePath]) -> Result<TreeScanner, ScanFault>
        requires { IsRising permitted.now }
        ensures { IfOk result (λ scanner. IsNewScanner permitted.now scanner) }
    {
        Ok(TreeScanner {
            scanner: Scanner::new(alloc, permitted)?,
        })
    }

    /// The permitted paths to which the tree that was heard refers, in their order: just those that
    /// `scan` finds in it. `NoMemory`, the only fault, where memory was refused.
    pub fn finish(self) -> Result<Vec<StorePath>, ScanFault>
        ensures rising { IfOk result (λ found. IsRising found.items) }
        ensures found { IfOk result (λ found. IsFoundAtHearing self found.items) }
    {
        Ok(self.scanner.finish()?)
    }
}

impl Hear for TreeScanner {
    ghost use Rattle.ref_scan.specs.Hearing.{IsScanHeard};
    ghost use Rattle.ref_scan.specs.private.HearingLaws.{scan_both, scan_none};

    ghost heard = { IsScanHeard };

    ghost silence = { λ s. scan_none s };

    ghost joins = { λ s m t before after h g. scan_both s m t before after h g };

    fn hear(&mut self, event: Event<'_>) -> Result<(), AllocError> {
        match event {
            Event::Piece(bytes) => self.scanner.feed(bytes),
            Event::EndFile(_) => self.scanner.cut(),
            Event::BeginEntry(text) | Event::Link(text) => {
                self.scanner.feed(text);
                self.scanner.cut();
            }
            Event::BeginFolder | Event::EndEntry | Event::EndFolder | Event::BeginFile(_, _) => {}
        }
        Ok(())
    }
}
