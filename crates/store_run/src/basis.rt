//! What a run is over, as a type.

use std::marker::Brand;

/// What a run is over: a plan, a system, and the entries that it opens with. A contract says by it
/// which run a book behind a lock belongs to.
pub trait Basis {
    ghost use Rattle.std.specs.Prelude.{List};
    ghost use Rattle.run_states.specs.Runs.{Run};
    ghost use Rattle.valid_table.specs.declared.entry.Entry.{Entry};

    // Whether a run that opens with some entries is over this.
    ghost is_this_run: { Run → List Entry → Type 0 };
}

// Any run is over a `Brand`. A function that is generic in its basis is proved for every
// `is_this_run`. So the proof of a call at `Brand` may choose one: where `realise_kept` calls
// `run_kept`, it chooses the run of the book that was just opened, and its entries at that time.
impl Basis for Brand {
    ghost use Rattle.std.specs.Prelude.{⊤};

    ghost is_this_run = { λ run opening. ⊤ };
}
