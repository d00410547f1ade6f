//! Why a derivation is not begun, what has become of it, and events.
ghost use Rattle.std.specs.Prelude.{◌≡◌};
ghost use Rattle.run_states.specs.Numbers.{refusal_number_of};

use build_outcome::Reason;

/// Why a derivation is not begun.
#[derive(Clone, Copy, Debug, PartialEq, Eq)]
pub enum Refusal {
    /// It is for another system than the run's.
    WrongSystem,
    /// Its builder or one of its environment's keys asks for what is left out, or, but under the
    /// profile `nix`, its output is a whole tree with a declared hash. Under `nix` a builtin
    /// builder for which the run has a program is none of these.
    Unsupported,
    /// Under the profile `nix`: the system doesn't offer the feature with this number, counted from
    /// 0, among those that it asks for.
    MissingFeature(usize),
    /// The source with this number, counted from 0, isn't valid.
    MissingSource(usize),
    /// The input derivation with this number in the plan failed or is refused.
    InputNotRealised(usize),
    /// The output with this number, counted from 0, is valid, while another isn't.
    PartlyValid(usize),
}

impl Refusal {
    /// The refusal's number in the table of faults.
    pub fn number(&self) -> u8
        ensures { result ≡ refusal_number_of self.now }
    {
        match self {
            Refusal::WrongSystem => 60,
            Refusal::Unsupported => 61,
            Refusal::MissingSource(_) => 62,
            Refusal::InputNotRealised(_) => 63,
            Refusal::PartlyValid(_) => 64,
            Refusal::MissingFeature(_) => 78,
        }
    }
}

/// What has become of a derivation.
#[derive(Clone, Copy, Debug, PartialEq, Eq)]
pub enum State {
    /// It was built.
    Done,
    /// Its building failed.
    Failed(Reason),
    /// It is being built, under the lease with this number.
    Building(u64),
    /// Its outputs were valid before.
    Reused,
    /// It can't be begun.
    Refused(Refusal),
    /// It can be begun.
    Ready,
    /// It waits for its inputs.
    Blocked,
}

/// What happened to a derivation, by its number in the plan, under a lease, by its number.
#[derive(Clone, Copy, Debug, PartialEq, Eq)]
pub enum Event {
    /// It began.
    Begin(usize, u64),
    /// Its outputs were registered.
    Done(usize, u64),
    /// It failed.
    Fail(usize, u64, Reason),
}
