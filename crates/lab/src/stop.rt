//! Why a line is over before its end, and the calls that it makes.

use crate::words::faults::Fault;
use std::alloc::AllocFailed;

/// Why a line is over before its end.
#[derive(Clone, Copy)]
pub(crate) enum Stop {
    /// All that can be told is told.
    Told,
    /// The line asks for what isn't allowed.
    NotAllowed,
    /// It means nothing, or it could not be answered.
    Lost(&'static str),
}

impl<F: Fault + Drop> From<F> for Stop {
    fn from(_: F) -> Stop {
        Stop::Lost("no memory, no path, or no such value")
    }
}

impl<T: Drop> From<AllocFailed<T>> for Stop {
    fn from(_: AllocFailed<T>) -> Stop {
        Stop::Lost("no memory")
    }
}

/// What the taking of a line answers.
pub(crate) type Taken = Result<(), Stop>;

/// What the taking of a line answers that may be another module's: whether its call was found.
pub(crate) type Found = Result<bool, Stop>;

// Makes a call between the two lines that say where it begins and ends, and gives its answer.
macro_rules! call {
    ($teller:expr, $name:expr => $call:expr) => {{
        $teller.begins($name);
        let answer = $call;
        $teller.ends($name);
        answer
    }};
}

// Makes a call so. Where it answers a fault, that is told, and the line is over.
macro_rules! tried {
    ($teller:expr, $name:expr => $call:expr) => {{
        let answer = call!($teller, $name => $call);
        $teller.answered(answer)
    }};
}

// Takes each line up to a last one by an expression, and once more where memory was refused to a
// call of it. What is given of all that the line may change has to be as it was then.
macro_rules! take_lines {
    (
        $teller:ident, $last:literal, $line:ident => $taken:expr,
        $before:ident = $given:expr, $same:expr
    ) => {{
        for _ in 0..$teller.rest.len() {
            let Some($line) = $teller.next($last)? else { break };
            let $before = $given;
            let taken = $taken;
            if !$teller.wants() {
                $teller.end(taken);
            } else if $same {
                $teller.say("memory was refused");
                let taken = $taken;
                let wants = $teller.wants();
                $teller.end(if wants { Err(Stop::Lost("it was refused twice")) } else { taken });
            } else {
                $teller.end(Err(Stop::Lost("what was given is not as it was")));
            }
        }
        Ok(())
    }};
}

pub(crate) use call;
pub(crate) use take_lines;
pub(crate) use tried;
