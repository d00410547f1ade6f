//! Calls of the libraries, each by a line of the standard input. It prints what each call answers.
//!
//! A line is a call and its arguments, with one space between each two words: `parse_path TEXT`.
//! After `NAME =` stands a call whose answer is kept, and `$NAME` is an argument that was kept.
//! Any other argument stands for its own bytes. What is kept has a kind, and each kind has its own
//! names: texts, derivations, plans, journals, tables.
//!
//! Round each call two lines are printed, `begins N CALL` and `ends N CALL`, where N counts the
//! calls. Then comes the answer, or the name of the fault with its values. Where a call answers
//! want of memory, a line says so and whether what was given to it is as it was, and the call is
//! made again. A call that may not be made with its arguments is answered `not allowed`, and a
//! line that means nothing ends the program with status 1. With the argument `--times` a line
//! after the second one says how long the call took: `took N ns`.
#![tactic(auto)]

mod give;
mod line;
mod rising;
mod stop;
mod teller;
mod words;
mod world;

use crate::stop::{Stop, Taken, take_lines};
use crate::teller::Teller;
use crate::words::{given, take};
use crate::world::World;
use std::alloc::Global;
use std::env;
use std::io::{self, Read};
use std::process::ExitCode;
use std::sync::Wait;

// All bytes of the standard input.
fn input(rt: &HostRuntime) -> io::Result<Vec<u8>> {
    let mut bytes = Vec::new(rt.alloc());
    rt.reader().read_to_end(&mut bytes)?;
    Ok(bytes)
}

// Whether the program was asked to print times.
fn tells_times(rt: &HostRuntime) -> io::Result<bool> {
    let mut words = env::args(rt)?.skip(1);
    Ok(words.next().is_some_and(|word| word.as_str() == "--times"))
}

// Takes each line, up to one that means nothing. By `wait` a line may wait.
fn run<W: Wait>(wait: &W, teller: &mut Teller<'_>) -> Taken {
    let mut world = World::new(teller.rt.alloc())?;
    take_lines!(teller, "\n", line => take(wait, teller, &mut world, &line),
        before = given(teller, &world, &line)?, given(teller, &world, &line)? == before)
}

fn main(rt: HostRuntime) -> ExitCode {
    let Ok(text) = input(&rt) else {
        return ExitCode::from(1);
    };
    let mut teller = Teller::new(&rt, &text, tells_times(&rt).unwrap_or(false));
    let ran = run(&rt, &mut teller);
    ExitCode::from(u8::from(ran.is_err() || !teller.goes_on()))
}
