//! Laws over the definitions that contracts cite, each on the contract of a function that does
//! nothing.
ghost use Rattle.ref_scan.specs.ArchivedTrees.{ArchivesHaveTrees, ArchivesMeasureAlike, ShortArchivesLie};
ghost use Rattle.ref_scan.specs.Archives.{ArchiveIsOne};
ghost use Rattle.ref_scan.specs.Counting.{CountsHearLimits, CountsStayPast, CountsTellLimits};
ghost use Rattle.ref_scan.specs.Hearing.{HeardTreesLie};
ghost use Rattle.ref_scan.specs.Links.{LinksAdd};
ghost use Rattle.ref_scan.specs.Scan.{IsFound};
ghost use Rattle.ref_scan.specs.declared.tree.Tree.{Tree};
ghost use Rattle.std.specs.Prelude.{◌≡◌, List, ℕ};

/// What is found is one list: there are no two that are found in a tree for the same permitted
/// paths.
pub fn found_is_one()
    ensures { (tree : Tree) (permitted a b : List (List ℕ)) → IsFound tree permitted a
        → IsFound tree permitted b → a ≡ b }
{}

/// What symbolic links add to a tree: a part occurs in it where it occurs in a file's bytes, in a
/// name or in a target; the bytes of the files and of the targets are counted together; and of a
/// tree without links the files and the names alone are searched.
pub fn links_add()
    ensures { (tree : Tree) → LinksAdd tree }
{}

/// A tree has one archive at most: of the trees that are that of its archive, one may stand in an
/// archive, in which each folder's names rise.
pub fn archive_is_one()
    ensures { ArchiveIsOne }
{}

/// The tree of an archive keeps the limits of an output where the tree in memory does of which it
/// is, and the same hash parts occur in the two, in whatever order a folder has its members.
pub fn archives_measure_alike()
    ensures { ArchivesMeasureAlike }
{}

/// Counts tell whether the tokens that they heard keep the limits of an output. Those of all of a
/// tree tell whether the tree does; and a tree is past the limits as soon as what was heard of it is.
pub fn counts_hear_limits()
    ensures tokens { CountsTellLimits }
    ensures whole { CountsHearLimits }
    ensures past { CountsStayPast }
{}

/// There is a tree in memory for each tree of an archive whose names, targets and folders are as
/// short as what lies in memory. This holds where the archive has fewer than 2^63 bytes, and of a
/// tree that a scanner heard and that keeps the limits.
pub fn archives_have_trees()
    ensures trees { ArchivesHaveTrees }
    ensures short { ShortArchivesLie }
    ensures heard { HeardTreesLie }
{}
