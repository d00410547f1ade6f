//! One run of the program in a process: on its arguments and its standard output.
ghost use Rattle.std.specs.Prelude.{◌≡◌, ◌⊎◌, IfOk, map, string_bytes};
ghost use Rattle.std.specs.Io.Buffered.{writer_inner};
ghost use Rattle.clap.specs.declared.error.kind.ErrorKind.TheVariants.{OutOfMemory};
ghost use Rattle.nix_realise.specs.ProgramEndings.{ProgramEnds, UsageEnds};

use crate::cli::exit::Exit;
use crate::cli::program::{Machine, print_no_memory, refuse_words, run};
use crate::io::journal_keeper::JournalSinks;
use crate::io::locks::Locks;
use process_build::Builders;
use std::alloc::{AllocError, Global};
use std::io::{BufWriter, ErrorKind, Input, Write};
use std::rt::{Env, Files};
use std::sync::Wait;
use std::thread::Threads;
use std::time::Clock;
use std::{env, io};

/// Runs the program on the arguments and the standard output of the process, with the builders that
/// `make` makes, and the locks and the sinks of journals of `host`. Says how the run ended. A word
/// that is not UTF-8 is a mistake in the words.
pub fn run_process<R, M, L, E>(rt: &R, make: &M, host: &L, err: &mut E) -> Exit
where
    R: Env + Files + Input + Print + Threads + Wait + Clock + Sync + AllocGlobal,
    M: Builders,
    L: Locks + JournalSinks,
    E: Write,
{
    match BufWriter::new(rt.alloc(), io::writer(rt)) {
        Ok(mut out) => {
            let machine = Machine { rt, make, host };
            let ending = run_arguments(&machine, &mut out, err);
            discard_buffer(out);
            ending
        }
        Err(_) => print_no_memory(err),
    }
}

// Gives the writer of a buffer, without flushing the buffer. The bytes that are still in it were
// refused, and are not written again.
fn discard_buffer<W: Write + Drop>(buffer: BufWriter<W>) -> W
    ensures { result ≡ writer_inner buffer }
{
    let (to, _refused) = buffer.into_parts();
    to
}

// Runs the program on the arguments of the process.
fn run_arguments<R, M, L, O, E>(machine: &Machine<'_, R, M, L>, out: &mut O, err: &mut E) -> Exit
where
    R: Env + Files + Input + Threads + Wait + Clock + Sync + AllocGlobal,
    M: Builders,
    L: Locks + JournalSinks,
    O: Write,
    E: Write,
{
    match arguments(machine.rt) {
        Ok(arguments) => run_texts(machine, &arguments, out, err),
        Err(error) if error.kind() == ErrorKind::InvalidData => {
            refuse_words(machine.rt.alloc(), out, err)
        }
        Err(_) => print_no_memory(err),
    }
}

// Runs the program on these arguments.
fn run_texts<R, M, L, O, E>(
    machine: &Machine<'_, R, M, L>,
    arguments: &[String],
    out: &mut O,
    err: &mut E,
) -> Exit
where
    R: Env + Files + Input + Threads + Wait + Clock + Sync + AllocGlobal,
    M: Builders,
    L: Locks + JournalSinks,
    O: Write,
    E: Write,
    ensures { ProgramEnds M.Builder.may (map string_bytes arguments.now)
        (O.contents out.old, O.contents out.new) (E.contents err.old, E.contents err.new) result
        ⊎ UsageEnds OutOfMemory
        (O.contents out.old, O.contents out.new) (E.contents err.old, E.contents err.new) result }
{
    match texts(machine.rt.alloc(), arguments) {
        Ok(words) => run(machine, &words, out, err),
        Err(_) => print_no_memory(err),
    }
}

// The arguments of the process.
fn arguments<R: Env + AllocGlobal>(rt: &R) -> io::Result<Vec<String>> {
    Ok(env::args(rt)?.collect(rt.alloc())?)
}

// The texts of the arguments.
fn texts(alloc: Global, arguments: &[String]) -> Result<Vec<&str>, AllocError>
    ensures { IfOk result (λ words.
        map (λ w. w.now) words.items ≡ map string_bytes arguments.now) }
{
    let mut words = Vec::new(alloc);
    for argument in arguments {
        words.push(argument.as_str())?;
    }
    Ok(words)
}
