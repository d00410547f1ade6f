//! Which hash parts stand within the bytes that were fed.
ghost use Rattle.std.specs.Prelude.{◌≡◌, ◌↔◌, ◌++◌, ◌∷◌, ◌<◌, [], ℕ, List, Contains, IfOk, IsTrue, length, slice_index_or};
ghost use Rattle.nix_names.specs.Rising.{IsRising};
ghost use Rattle.nix_names.specs.StorePaths.{hash_part_of, is_hash_part};
ghost use Rattle.ref_scan.specs.Scan.{IsFoundIn, OccursIn};

use crate::fed_bytes::{FedBytes, Piece};
use crate::index::{Index, part_of};
use crate::seam::{KEPT, seam, tail_after};
use crate::search::search;
use arrayvec::ArrayVec;
use nix_names::StorePath;
use std::alloc::{AllocError, Global};
use std::marker::Model;

// A mark for each hash part that stands within the bytes that were fed.
#[derive(Drop)]
pub(crate) struct Marks {
    index: Index,
    met: Vec<bool>,
    tail: ArrayVec<u8, KEPT>,
    fed: FedBytes,
}

impl Model for Marks {
    ghost use Rattle.ref_scan.specs.private.Scanned.{Scanned, Sought};

    ghost Value = { Sought };

    ghost view = { λ m. record {
      permitted = m.index.permitted;
      parts = m.index.parts;
      in_order = m.index.in_order;
      ended = m.fed.ended;
      present = m.fed.present;
    } };

    ghost invariant = { λ m. Scanned
        (record {
          permitted = m.index.permitted;
          parts = m.index.parts;
          in_order = m.index.in_order;
          ended = m.fed.ended;
          present = m.fed.present;
        })
        m.met.items m.tail.items };
}

impl Marks {
    // No mark; the hash parts of these paths are sought, and the first list begins.
    pub(crate) fn new(alloc: Global, paths: &[StorePath]) -> Result<Marks, AllocError>
        ensures permitted { IfOk result (λ marks. marks.permitted ≡ paths.now) }
        ensures fed { IfOk result (λ marks. (marks.ended ≡ []) × (marks.present ≡ [])) }
    {
        let index = Index::new(alloc, paths)?;
        let met = vec![in alloc; false; index.len()]?;
        Ok(Marks {
            index,
            met,
            tail: ArrayVec::new(),
            fed: FedBytes::new(),
        })
    }

    // The present list goes on with the piece.
    pub(crate) fn feed(&mut self, piece: &[u8])
        ensures { self.new ≡ record self.old { present = self.old.present ++ piece.now } }
    {
        let seam = seam(self.tail.as_slice(), piece);
        search(&self.index, &mut self.met, seam.as_slice());
        search(&self.index, &mut self.met, piece);
        self.tail = tail_after(seam.as_slice(), piece);
        self.fed = self.fed.and(&Piece { bytes: piece });
    }

    // The present list ends, and an empty one begins.
    pub(crate) fn cut(&mut self)
        ensures { self.new
            ≡ record self.old { ended = self.old.ended ++ self.old.present ∷ []; present = [] } }
    {
        self.tail.clear();
        self.fed = self.fed.cut();
    }

    // Those of the permitted paths whose hash part stands within a list.
    pub(crate) fn found(&self) -> Result<Vec<StorePath>, AllocError>
        requires { IsRising self.now.permitted }
        ensures found { IfOk result
            (λ found. IsFoundIn (self.now.ended ++ self.now.present ∷ []) self.now.permitted
            found.items) }
        ensures are_parts { (path : List ℕ) → Contains self.now.permitted path
            → IsTrue (is_hash_part (hash_part_of path)) }
    {
        self.found_among(self.index.paths())
    }

    // Those of these paths, which are the permitted ones, whose hash part stands within a list.
    fn found_among(&self, paths: &[StorePath]) -> Result<Vec<StorePath>, AllocError>
        requires permitted { paths.now ≡ self.now.permitted }
        requires rising { IsRising paths.now }
        ensures { IfOk result
            (λ found. IsFoundIn (self.now.ended ++ self.now.present ∷ []) paths.now found.items) }
    {
        let alloc = *self.met.allocator();
        let mut found = Vec::new(alloc);
        for (number, path) in paths.iter().enumerate() {
            if self.is_met(number, paths) {
                found.push(path.copy(alloc)?)?;
            }
        }
        Ok(found)
    }

    // Whether the hash part of the permitted path of this number stands within a list.
    fn is_met(&self, number: usize, paths: &[StorePath]) -> bool
        requires permitted { paths.now ≡ self.now.permitted }
        requires number { number < length paths.now }
        ensures { IsTrue result ↔ OccursIn (hash_part_of (slice_index_or paths.now number []))
            (self.now.ended ++ self.now.present ∷ []) }
    {
        if self.index.is_in_order() {
            return self.met[number];
        }
        match self.index.part_number(&part_of(&paths[number])) {
            Some(part) => self.met[part],
            None => false,
        }
    }
}
