//! Why an entry can't be taken in, and the fault that says so.
ghost use Rattle.std.specs.Prelude.{◌<◌, IfSome, length};
ghost use Rattle.valid_table.specs.private.Blames.{IsFaultOf, IsObstacleOf};

use crate::entry::Registration;
use crate::fault::TableFault;
use crate::reachability::reference::Reference;
use nix_names::StorePath;

/// Why an entry can't be taken in. Borrows the path that is to blame.
#[derive(Clone, Copy, Debug)]
pub enum Obstacle<'a> {
    /// This path, which the entry registers, is valid already.
    AlreadyValid(&'a StorePath),
    /// This path, to which the entry refers, is neither valid nor registered by the entry.
    Unclosed(&'a StorePath),
}

// Which registration of an entry is to blame, and which of its references, if it is for one.
#[derive(Clone, Copy, Debug)]
pub(crate) struct FaultAt {
    // The registration's index among those of the entry.
    pub registration: usize,
    // The reference's index in the registration's record; none where the path is valid already.
    pub reference: Option<usize>,
}

// The obstacle of the registration that is to blame.
pub(crate) fn obstacle_of(registration: &Registration, reference: Option<usize>) -> Obstacle<'_>
    requires { IfSome reference (λ index. index < length registration.now.info.references) }
    ensures { IsObstacleOf registration.now reference result }
{
    match reference {
        None => Obstacle::AlreadyValid(&registration.path),
        Some(index) => Obstacle::Unclosed(&registration.info.references()[index]),
    }
}

// The fault of the registration that is to blame, whose path or record is moved into it.
pub(crate) fn fault_of(registration: Registration, reference: Option<usize>) -> TableFault
    requires { IfSome reference (λ index. index < length registration.info.references) }
    ensures { IsFaultOf registration reference result }
{
    match reference {
        None => TableFault::AlreadyValid(registration.path),
        Some(index) => TableFault::Unclosed(Reference::new(registration.info, index)),
    }
}
