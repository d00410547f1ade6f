//! Laws over the definitions that contracts cite, each on the contract of a function that does
//! nothing.
ghost use Rattle.valid_view.specs.SharedClosures.{ClosureIsShared, RecordsAreShared, ValidityLasts};

/// The closure of paths that are valid in a list of entries is the same in any two lists that begin
/// with it and may be shown: in the list that a reader saw, and in a journal that goes on from the
/// list that the reader was told of.
pub fn closure_is_shared()
    ensures { ClosureIsShared }
{}

/// So are the records of that closure.
pub fn records_are_shared()
    ensures { RecordsAreShared }
{}

/// What is valid in a list of entries is valid in each longer list that begins with it and may be
/// shown, and has there the record that it had, and no other. So the closure of paths that are
/// valid in a list that a reader was told of is never refused by `NotValid`.
pub fn validity_lasts()
    ensures { ValidityLasts }
{}
