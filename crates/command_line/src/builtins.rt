//! The words that give builtin builders their programs.
ghost use Rattle.std.specs.Prelude.{◌≡◌, ◌⊎◌, ◌↔◌, Any, IfErr, IfOk, IsTrue, MatchOption, MatchResult, map};
ghost use Rattle.clap.specs.Words.{kind_of};
ghost use Rattle.command_line.specs.Builtins.{AreApart, AreBuiltins, HasProgram, IsBuiltinFault};
ghost use Rattle.command_line.specs.Builtins.{name_in, program_in};
ghost use Rattle.command_line.specs.declared.options.Builtin.{Builtin};

use crate::command::command;
use crate::options::Builtin;
use clap::Error;
use clap::error::ErrorKind;
use std::alloc::{AllocError, Global};

// The builtin builders that words name, each word as NAME=PROGRAM, whose first `=` ends the name.
// A fault where a word has no `=`, and else where two words have the same name. Costs at most the
// square of the number of words.
pub fn builtins_in<'a>(alloc: Global, words: &[&'a str]) -> Result<Vec<Builtin<'a>>, Error>
    ensures ok { IfOk result
        (λ builtins. AreBuiltins (map (λ w. w.now) words.now) builtins.items) }
    ensures err { IfErr result (λ e. (kind_of e ≡ ErrorKind.OutOfMemory)
        ⊎ IsBuiltinFault (map (λ w. w.now) words.now) (kind_of e)) }
{
    let mut builtins = Vec::new(alloc);
    for word in words {
        match builtin_in(word) {
            Some(builtin) => builtins.push(builtin)?,
            None => return Err(without_program(alloc, word)?),
        }
    }
    match twin_in(&builtins) {
        Some(name) => Err(given_twice(alloc, name)?),
        None => Ok(builtins),
    }
}

// The builder that a word names, if it has a program.
fn builtin_in(word: &str) -> Option<Builtin<'_>>
    ensures { MatchOption result (¬ HasProgram word.now) (λ builtin. HasProgram word.now
        × (builtin.name.now ≡ name_in word.now) × (builtin.program.now ≡ program_in word.now)) }
{
    let (name, program) = word.split_once('=')?;
    Some(Builtin { name, program })
}

// A name that two of the builders have, if there is one.
fn twin_in<'a>(builtins: &[Builtin<'a>]) -> Option<&'a str>
    ensures { MatchOption result (AreApart (map (λ b. b.name.now) builtins.now))
        (λ _. ¬ AreApart (map (λ b. b.name.now) builtins.now)) }
{
    for (index, builtin) in builtins.iter().enumerate() {
        if is_named(&builtins[..index], builtin.name) {
            return Some(builtin.name);
        }
    }
    None
}

// Whether one of the builders has this name.
fn is_named(builtins: &[Builtin<'_>], name: &str) -> bool
    ensures { IsTrue result ↔ Any (λ (b : Builtin). b.name.now ≡ name.now) builtins.now }
{
    builtins.iter().any(|builtin| builtin.name == name)
}

// The usage fault of a word without a program.
fn without_program(alloc: Global, word: &str) -> Result<Error, AllocError>
    ensures { IfOk result (λ e. kind_of e ≡ ErrorKind.ValueValidation) }
{
    let message = format!(in alloc;
        "invalid value '{word}' for '--builtin <NAME=PROGRAM>': it has no '='"
    )?;
    command(alloc)?.error(ErrorKind::ValueValidation, message.as_str())
}

// The usage fault of a builder with two programs.
fn given_twice(alloc: Global, name: &str) -> Result<Error, AllocError>
    ensures { IfOk result (λ e. kind_of e ≡ ErrorKind.ArgumentConflict) }
{
    let message = format!(in alloc;
        "the argument '--builtin <NAME=PROGRAM>' gives '{name}' a program twice"
    )?;
    command(alloc)?.error(ErrorKind::ArgumentConflict, message.as_str())
}
