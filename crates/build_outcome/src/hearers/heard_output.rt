//! What is kept of an output that was heard.
use crate::sums::OutputSum;
use nix_names::{Digest, StorePath};
use std::marker::Model;

/// What is kept of an output whose tree was heard, for a verdict on it: the permitted paths that
/// were found in it, whether it is a file whose bytes may be those of a fixed output, the digest of
/// its bytes and the sum of its archive where they are asked for, and whether its group or others
/// may write it. A contract sees these.
#[derive(Drop)]
pub struct HeardOutput {
    pub(crate) references: Vec<StorePath>,
    pub(crate) is_flat_file: bool,
    pub(crate) digest: Option<Digest>,
    pub(crate) sum: Option<OutputSum>,
    pub(crate) others_may_write: bool,
}

impl Model for HeardOutput {
    ghost use Rattle.nix_names.specs.Rising.{IsRising};
    ghost use Rattle.build_outcome.specs.Heard.{Kept};

    ghost Value = { Kept };

    ghost view = { λ o. record {
      references = o.references.items;
      is_flat_file = o.is_flat_file;
      digest = o.digest;
      sum = o.sum;
      others_may_write = o.others_may_write;
    } };

    ghost invariant = { λ o. IsRising o.references.items };
}
