//! The scan of bytes that come in pieces.
ghost use Rattle.std.specs.Prelude.{◌≡◌, ◌++◌, ◌∷◌, [], IfOk, IsTrue, ℕ, List, Contains};
ghost use Rattle.nix_names.specs.Rising.{IsRising};
ghost use Rattle.nix_names.specs.StorePaths.{hash_part_of, is_hash_part};
ghost use Rattle.ref_scan.specs.Feed.{lists_of};
ghost use Rattle.ref_scan.specs.Scan.{IsFoundIn};

use crate::fault::ScanFault;
use crate::marks::Marks;
use nix_names::StorePath;
use std::alloc::Global;
use std::marker::Model;

/// A scan of lists of bytes, each of which may come in pieces, for the hash parts of store paths. A
/// contract sees the permitted paths, the lists that a cut ended, and the list that goes on.
///
/// It looks at each window of 32 bytes from its end and goes on after a byte that no hash part
/// has, so most bytes of a program are not looked at. A window of base-32 digits alone is looked up
/// among all hash parts at once. It keeps at most 31 bytes from one piece to the next.
#[derive(Drop)]
pub struct Scanner {
    marks: Marks,
}

impl Model for Scanner {
    ghost use Rattle.nix_names.specs.Rising.{IsRising};
    ghost use Rattle.ref_scan.specs.Feed.{Feed};

    ghost Value = { Feed };

    ghost view = { λ s. record {
      permitted = s.marks.permitted;
      ended = s.marks.ended;
      present = s.marks.present;
    } };

    ghost invariant = { λ s. IsRising s.marks.permitted };
}

impl Scanner {
    /// A scanner for the hash parts of these paths, which was fed nothing; its first list begins.
    /// Takes memory for the paths and for a table of their hash parts. `NoMemory`, the only fault,
    /// where it was refused.
    pub fn new(alloc: Global, permitted: &[StorePath]) -> Result<Scanner, ScanFault>
        requires { IsRising permitted.now }
        ensures { IfOk result
            (λ scanner. scanner ≡ record { permitted = permitted.now; ended = []; present = [] }) }
    {
        Ok(Scanner {
            marks: Marks::new(alloc, permitted)?,
        })
    }

    /// The present list goes on with the piece, of any length. Takes no memory and has no fault.
    pub fn feed(&mut self, piece: &[u8])
        ensures { self.new ≡ record self.old { present = self.old.present ++ piece.now } }
    {
        self.marks.feed(piece);
    }

    /// The present list ends, and an empty one begins: no hash part is found across a cut. Takes no
    /// memory and has no fault.
    pub fn cut(&mut self)
        ensures { self.new
            ≡ record self.old { ended = self.old.ended ++ self.old.present ∷ []; present = [] } }
    {
        self.marks.cut();
    }

    /// The permitted paths whose hash part occurs within one of the lists, in their order, however
    /// the lists were cut into pieces. Two permitted paths with the same hash part are both found.
    /// `NoMemory`, the only fault, where memory was refused.
    pub fn finish(self) -> Result<Vec<StorePath>, ScanFault>
        ensures found { IfOk result
            (λ found. IsFoundIn (lists_of self) self.permitted found.items) }
        ensures are_parts { (path : List ℕ) → Contains self.permitted path
            → IsTrue (is_hash_part (hash_part_of path)) }
    {
        Ok(self.marks.found()?)
    }
}
