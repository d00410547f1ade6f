//! What is kept under names, by kind.

use crate::stop::{Stop, Taken};
use drv_graph::Plan;
use nix_drv::Derivation;
use nix_names::{NameFault, StoreDir, StorePath, parse_path};
use ref_scan::Tree;
use std::alloc::{AllocError, Global};
use std::slice;
use valid_table::{Journal, Table};

/// A table, and the paths of which a line asked it or which a line gave to it.
#[derive(Drop)]
pub(crate) struct KeptTable {
    pub(crate) table: Table,
    pub(crate) paths: Vec<StorePath>,
}

/// What is kept.
#[derive(Drop)]
pub(crate) struct World {
    pub(crate) alloc: Global,
    pub(crate) dir: StoreDir,
    pub(crate) texts: Shelf<Vec<u8>>,
    pub(crate) lists: Shelf<Vec<StorePath>>,
    pub(crate) drvs: Shelf<Derivation>,
    pub(crate) plans: Shelf<Plan>,
    pub(crate) journals: Shelf<Journal>,
    pub(crate) tables: Shelf<KeptTable>,
    pub(crate) trees: Shelf<Tree>,
}

impl World {
    /// Nothing is kept yet, and the store folder is Nix's until a line names another.
    pub(crate) fn new(alloc: Global) -> Result<World, NameFault> {
        Ok(World {
            alloc,
            dir: StoreDir::new(alloc, b"/nix/store")?,
            texts: Shelf::new(alloc),
            lists: Shelf::new(alloc),
            drvs: Shelf::new(alloc),
            plans: Shelf::new(alloc),
            journals: Shelf::new(alloc),
            tables: Shelf::new(alloc),
            trees: Shelf::new(alloc),
        })
    }

    /// The bytes that a word stands for: those of the text under its name, or its own.
    pub(crate) fn text<'a>(&'a self, word: &'a [u8]) -> &'a [u8] {
        match self.texts.get(word) {
            Ok(text) => text,
            Err(_) => word,
        }
    }

    /// The path whose text a word stands for.
    pub(crate) fn path(&self, word: &[u8]) -> Result<StorePath, NameFault> {
        parse_path(self.alloc, &self.dir, self.text(word))
    }

    /// The paths that words stand for, each a path or a list under its name.
    pub(crate) fn paths(&self, words: &[&[u8]]) -> Result<Vec<StorePath>, NameFault> {
        let mut paths = Vec::new(self.alloc);
        for word in words {
            match self.lists.get(word) {
                Ok(list) => push_copies(&mut paths, list)?,
                Err(_) => push_copies(&mut paths, slice::from_ref(&self.path(word)?))?,
            }
        }
        Ok(paths)
    }

    /// The texts that words stand for.
    pub(crate) fn copies(&self, words: &[&[u8]]) -> Result<Vec<Vec<u8>>, AllocError> {
        let mut texts = Vec::new(self.alloc);
        for word in words {
            texts.push(self.text(word).to_vec(self.alloc)?)?;
        }
        Ok(texts)
    }
}

// Adds copies of some paths to a list.
fn push_copies(list: &mut Vec<StorePath>, paths: &[StorePath]) -> Result<(), AllocError> {
    let alloc = *list.allocator();
    for path in paths {
        list.push(path.copy(alloc)?)?;
    }
    Ok(())
}

const NOTHING: Stop = Stop::Lost("nothing is kept so");

/// Values of one kind, each under a name of its own.
#[derive(Drop)]
pub(crate) struct Shelf<T> {
    kept: Vec<(Vec<u8>, T)>,
}

impl<T: Drop> Shelf<T> {
    pub(crate) fn new(alloc: Global) -> Shelf<T> {
        Shelf {
            kept: Vec::new(alloc),
        }
    }

    // Where the value that `$NAME` stands for is kept; past the end where none is.
    fn index(&self, word: &[u8]) -> usize {
        let index = match word.strip_prefix(b"$") {
            Some(name) => self.kept.iter().position(|kept| kept.0.as_slice() == name),
            None => None,
        };
        index.unwrap_or(self.kept.len())
    }

    /// The value that `$NAME` stands for.
    pub(crate) fn get(&self, word: &[u8]) -> Result<&T, Stop> {
        let kept = self.kept.get(self.index(word));
        Ok(&kept.ok_or(NOTHING)?.1)
    }

    /// The value that `$NAME` stands for, to be changed.
    pub(crate) fn get_mut(&mut self, word: &[u8]) -> Result<&mut T, Stop> {
        let index = self.index(word);
        Ok(&mut self.kept.get_mut(index).ok_or(NOTHING)?.1)
    }

    /// Takes out the value that `$NAME` stands for.
    pub(crate) fn take(&mut self, word: &[u8]) -> Result<T, Stop> {
        let index = self.index(word);
        if index < self.kept.len() {
            return Ok(self.kept.swap_remove(index).1);
        }
        Err(NOTHING)
    }

    /// Keeps a value under a name, in place of what was kept there; under no name not at all.
    pub(crate) fn put(&mut self, name: &[u8], value: T) -> Taken {
        if !name.is_empty() {
            self.kept.retain(|kept| kept.0.as_slice() != name);
            let name = name.to_vec(*self.kept.allocator())?;
            self.kept.push((name, value))?;
        }
        Ok(())
    }
}
