//! The parts of a tree, and what makes them.
ghost use Rattle.std.specs.Prelude.{◌++◌, [], List, OnOk};

use crate::tree_maker::maker_fault::MakerFault;

/// A part of a tree, as it is made.
#[derive(Clone, Copy)]
pub enum Part<'a> {
    /// An empty folder at a path.
    Folder(&'a str),
    /// An empty file at a path, and whether its owner may execute it. What follows goes into it.
    File(&'a str, bool),
    /// More bytes of the file.
    Piece(&'a [u8]),
    /// The end of the file.
    EndFile,
    /// A symbolic link at a path; its target.
    Link(&'a str, &'a str),
}

/// What makes the parts of a tree.
pub trait MakeParts {
    ghost use Rattle.process_build.specs.MadeTrees.{Step};
    ghost use Rattle.process_build.specs.Making.{steps};

    // It became another one by these steps.
    ghost made: { Self → List Step → Self → Type 0 };

    /// Makes a part. After a fault nothing is known of what was made.
    fn make(&mut self, part: Part<'_>) -> Result<(), MakerFault>
        ensures { OnOk result (made self.old (steps part.entry) self.new) };

    // No steps change nothing.
    ghost silence: { (s : Self) → made s [] s };

    // Steps join.
    ghost joins: { (s m t : Self) (before after : List Step)
        → made s before m → made m after t → made s (before ++ after) t };
}
