//! A builder that is started and waited for.
ghost use Rattle.std.specs.Prelude.{◌≡◌, ◌++◌, ◌∷◌, [], IfErr, IfOk, OnOk, Some, map, option_map};
ghost use Rattle.std.specs.Prelude.{string_bytes};
ghost use Rattle.std.specs.Process.{command_arg0, command_args, command_dir, command_program};
ghost use Rattle.std.specs.Process.{SameDir, SameEnv, SameProgramAndArgs};
ghost use Rattle.process_build.specs.private.Answers.{IsRunFault};
ghost use Rattle.process_build.specs.Setups.{text_bytes};
ghost use Rattle.process_build.specs.private.BuilderCalls.{args_by, name_by, program_by, program_of, Runs};

use crate::disk::folders::BuildFolder;
use crate::disk::logs::OutputStreams;
use crate::failures::is_made_again;
use crate::process::environment::set_environment;
use crate::process::process_end::ProcessEnd;
use crate::process::setup::Setup;
use crate::process::texts::Text;
use crate::reasons::{no_start, read_fault};
use build_outcome::Reason;
use std::alloc::{AllocError, Global};
use std::io;
use std::io::ErrorKind;
use std::os::unix::process::CommandExt;
use std::process::{Child, Command, Processes, Stdio};

/// Starts a command and waits for its end. It waits for the builder alone, and not for what that
/// one has started. `NoStart` where it can't be started, `ReadFault` where it was and its end can't
/// be waited for.
pub fn run_command<P: Processes>(processes: &P, command: &mut Command) -> Result<ProcessEnd, Reason>
    ensures { IfErr result IsRunFault }
{
    let mut builder = start(command, processes).map_err(no_start)?;
    ProcessEnd::of(&mut builder).map_err(read_fault)
}

// Starts a builder, again if a signal interrupted the start, for example at the opening of its
// empty input: then no process was started.
fn start<P: Processes>(command: &mut Command, processes: &P) -> io::Result<Child<P::Started>> {
    for _ in 0..u64::MAX {
        match command.spawn(processes) {
            Err(error) if is_made_again(&error) => {}
            answer => return answer,
        }
    }
    Err(io::Error::from(ErrorKind::Interrupted))
}

/// The command that runs a builder with its setup in a folder, with these outputs, by a runner
/// where there is one.
pub fn command(
    alloc: Global,
    runner: Option<&str>,
    folder: &BuildFolder,
    setup: &Setup<'_>,
    outputs: OutputStreams<'_>,
) -> Result<Command, AllocError>
    ensures { IfOk result (Runs (option_map (λ r. r.now) runner.entry) setup.now
        (string_bytes folder.now.path)) }
{
    let mut command = program_command(alloc, runner, setup)?;
    set_streams(&mut command, outputs);
    set_environment(&mut command, &setup.env)?;
    set_folder(&mut command, folder.path(), name(runner, setup.name))?;
    Ok(command)
}

// The command of a builder's program and its arguments, by a runner where there is one, before
// anything else is said of it.
fn program_command(
    alloc: Global,
    runner: Option<&str>,
    setup: &Setup<'_>,
) -> Result<Command, AllocError>
    ensures program { IfOk result (λ c. command_program c
        ≡ program_by (option_map (λ r. r.now) runner.entry) setup.now.builder.now) }
    ensures args { IfOk result (λ c. command_args c
        ≡ args_by (option_map (λ r. r.now) runner.entry) setup.now.builder.now
        (map text_bytes setup.now.args.items)) }
{
    let program = program(alloc, setup.builder)?;
    let mut command = match runner {
        Some(runner) => by_runner(alloc, runner, program.as_str())?,
        None => Command::new(alloc, program)?,
    };
    set_args(&mut command, &setup.args)?;
    Ok(command)
}

// The command of a runner whose first argument is a program.
fn by_runner(alloc: Global, runner: &str, program: &str) -> Result<Command, AllocError>
    ensures program { IfOk result (λ c. command_program c ≡ runner.now) }
    ensures args { IfOk result (λ c. command_args c ≡ program.now ∷ []) }
{
    let mut command = Command::new(alloc, runner)?;
    command.arg(program)?;
    Ok(command)
}

// The name that what is started is told as its own: the builder's, or the runner's path.
fn name<'a>(runner: Option<&'a str>, own: &'a str) -> &'a str
    ensures { result.now ≡ name_by (option_map (λ r. r.now) runner.entry) own.now }
{
    match runner {
        Some(runner) => runner,
        None => own,
    }
}

// Runs a command in a folder, under the name that it is told as its own.
fn set_folder(command: &mut Command, folder: &str, name: &str) -> Result<(), AllocError>
    ensures dir { OnOk result (command_dir command.new ≡ Some folder.now) }
    ensures name { OnOk result (command_arg0 command.new ≡ Some name.now) }
    ensures call { OnOk result (SameProgramAndArgs command.old command.new) }
    ensures env { OnOk result (SameEnv command.old command.new) }
{
    command.current_dir(folder)?.arg0(name)?;
    Ok(())
}

// The path of a builder's program. One without a slash would be looked for in the folders of its
// `PATH`.
fn program(alloc: Global, builder: &str) -> Result<String, AllocError>
    ensures { IfOk result (λ path. string_bytes path ≡ program_of builder.now) }
{
    if builder.as_bytes().contains(&b'/') {
        String::from_str(alloc, builder)
    } else {
        format!(in alloc; "./{builder}")
    }
}

// Gives a command these arguments.
fn set_args(command: &mut Command, args: &[Text<'_>]) -> Result<(), AllocError>
    ensures args { OnOk result (command_args command.new
        ≡ command_args command.old ++ map text_bytes args.now) }
    ensures program { OnOk result (command_program command.new ≡ command_program command.old) }
    ensures env { OnOk result (SameEnv command.old command.new) }
    ensures dir { OnOk result (SameDir command.old command.new) }
{
    for arg in args {
        command.arg(arg.as_str())?;
    }
    Ok(())
}

// Gives a command no input, and these outputs.
fn set_streams(command: &mut Command, outputs: OutputStreams<'_>)
    ensures call { SameProgramAndArgs command.old command.new }
    ensures env { SameEnv command.old command.new }
    ensures dir { SameDir command.old command.new }
{
    let (out, err) = outputs.into_streams();
    command.stdin(Stdio::null()).stdout(out).stderr(err);
}
