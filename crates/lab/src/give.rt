//! What is printed of an answer, and what of it is kept under the line's name.

use crate::line::Line;
use crate::stop::{Stop, Taken, call};
use crate::teller::Teller;
use crate::words::faults::Fault;
use crate::world::World;
use drv_graph::{Plan, Profile};
use nix_drv::Derivation;
use nix_names::{Digest, StoreDir, StorePath};
use ref_scan::{ArchiveSum, Tree};
use std::alloc::AllocError;
use std::fmt::{Debug, Display};
use valid_table::Journal;
use valid_view::Seen;

/// An answer of a call.
pub(crate) trait Give {
    /// Prints it, and keeps it under the line's name.
    fn give(self, teller: &mut Teller<'_>, world: &mut World, line: &Line<'_>) -> Taken;
}

impl<T: Give + Drop, F: Fault + Drop> Give for Result<T, F> {
    fn give(self, teller: &mut Teller<'_>, world: &mut World, line: &Line<'_>) -> Taken {
        teller.answered(self)?.give(teller, world, line)
    }
}

impl<A: Debug + Drop, B: Debug + Drop> Give for (A, B) {
    fn give(self, teller: &mut Teller<'_>, _world: &mut World, _line: &Line<'_>) -> Taken {
        teller.say(format_args!("{:?} {:?}", self.0, self.1));
        Ok(())
    }
}

impl<A: Display + Drop> Give for (A,) {
    fn give(self, teller: &mut Teller<'_>, _world: &mut World, _line: &Line<'_>) -> Taken {
        teller.say(self.0);
        Ok(())
    }
}

impl<const N: usize> Give for [u8; N] {
    fn give(self, teller: &mut Teller<'_>, _world: &mut World, _line: &Line<'_>) -> Taken {
        teller.hex(&self);
        Ok(())
    }
}

impl Give for Vec<[u8; 32]> {
    fn give(self, teller: &mut Teller<'_>, _world: &mut World, _line: &Line<'_>) -> Taken {
        for digest in &self {
            teller.hex(digest);
        }
        Ok(())
    }
}

// A text is printed where it is not kept.
impl Give for Vec<u8> {
    fn give(self, teller: &mut Teller<'_>, world: &mut World, line: &Line<'_>) -> Taken {
        if line.name.is_empty() {
            teller.text(&self);
        }
        world.texts.put(line.name, self)
    }
}

/// A text of whole lines. Where it is kept, its length is told.
#[derive(Drop)]
pub(crate) struct Lines(pub(crate) Vec<u8>);

impl Give for Lines {
    fn give(self, teller: &mut Teller<'_>, world: &mut World, line: &Line<'_>) -> Taken {
        if line.name.is_empty() {
            teller.lines(&self.0);
        } else {
            teller.say(format_args!("{} bytes", self.0.len()));
        }
        world.texts.put(line.name, self.0)
    }
}

// It becomes the store folder of the lines that follow.
impl Give for StoreDir {
    fn give(self, teller: &mut Teller<'_>, world: &mut World, _line: &Line<'_>) -> Taken {
        let text = call!(teller, "StoreDir::text" => self.text());
        teller.text(text);
        world.dir = self;
        Ok(())
    }
}

impl Give for StorePath {
    fn give(self, teller: &mut Teller<'_>, world: &mut World, line: &Line<'_>) -> Taken {
        teller.say(self.as_str());
        let text = self.text().to_vec(world.alloc)?;
        world.texts.put(line.name, text)
    }
}

impl Give for Vec<StorePath> {
    fn give(self, teller: &mut Teller<'_>, world: &mut World, line: &Line<'_>) -> Taken {
        if !line.name.is_empty() {
            teller.say(format_args!("{} paths", self.len()));
            return world.lists.put(line.name, self);
        }
        let mut text = Vec::new(world.alloc);
        for path in &self {
            text.extend_from_slice(b" ")?;
            text.extend_from_slice(path.text())?;
        }
        teller.text(text.get(1..).unwrap_or(b"none"));
        Ok(())
    }
}

impl Give for Tree {
    fn give(self, _teller: &mut Teller<'_>, world: &mut World, line: &Line<'_>) -> Taken {
        world.trees.put(line.name, self)
    }
}

impl Give for Derivation {
    fn give(self, teller: &mut Teller<'_>, world: &mut World, line: &Line<'_>) -> Taken {
        if line.name.is_empty() {
            teller.say("a derivation");
        }
        world.drvs.put(line.name, self)
    }
}

impl Give for Plan {
    fn give(self, teller: &mut Teller<'_>, world: &mut World, line: &Line<'_>) -> Taken {
        let profile = call!(teller, "Plan::profile" => self.profile());
        let under = ["", " under Nix"][usize::from(profile == Profile::Nix)];
        teller.say(format_args!("{} derivations{under}", self.len()));
        world.plans.put(line.name, self)
    }
}

impl Give for Journal {
    fn give(self, teller: &mut Teller<'_>, world: &mut World, line: &Line<'_>) -> Taken {
        let count = call!(teller, "Journal::entries" => self.entries()).len();
        teller.say(format_args!("{count} entries"));
        world.journals.put(line.name, self)
    }
}

// What there is, or `none`.
impl<T: Give + Drop> Give for Option<T> {
    fn give(self, teller: &mut Teller<'_>, world: &mut World, line: &Line<'_>) -> Taken {
        match self {
            Some(value) => value.give(teller, world, line),
            None => {
                teller.say("none");
                Ok(())
            }
        }
    }
}

impl Give for ArchiveSum {
    fn give(self, teller: &mut Teller<'_>, _world: &mut World, _line: &Line<'_>) -> Taken {
        teller.say(format_args!("{} bytes", self.length));
        teller.hex(&self.hash);
        Ok(())
    }
}

// The algorithm and the bytes of a digest.
impl Give for Digest {
    fn give(self, teller: &mut Teller<'_>, _world: &mut World, _line: &Line<'_>) -> Taken {
        let algorithm = call!(teller, "Digest::algorithm" => self.algorithm());
        let name = call!(teller, "Algorithm::name" => algorithm.name());
        let bytes = call!(teller, "Digest::bytes" => self.bytes());
        teller.text(name);
        teller.hex(bytes);
        Ok(())
    }
}

impl Give for Seen {
    fn give(self, teller: &mut Teller<'_>, world: &mut World, _line: &Line<'_>) -> Taken {
        match self {
            Seen::Absent => teller.say("absent"),
            Seen::Valid(None) => teller.say("valid"),
            Seen::Valid(Some(digest)) => {
                let mut text = Vec::from_slice(world.alloc, b"valid, ")?;
                digest.push_text(&mut text)?;
                teller.text(&text);
            }
        }
        Ok(())
    }
}

/// What a call answered that adds to the text of the first argument, and what came of that. What
/// stood there before has to stand there still.
pub(crate) struct Appended(pub(crate) Result<(), AllocError>, pub(crate) Vec<u8>);

impl Give for Appended {
    fn give(self, teller: &mut Teller<'_>, world: &mut World, line: &Line<'_>) -> Taken {
        let Appended(answer, text) = self;
        if !text.starts_with(world.text(line.argument(0))) {
            return Err(Stop::Lost("what stood before is gone"));
        }
        teller.answered(answer)?;
        teller.text(&text);
        world.texts.put(line.name, text)
    }
}
