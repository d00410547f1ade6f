//! The calls, by the library.

// Words of a line as an argument of a call. A kind that is none of the others is a shelf.
macro_rules! argument {
    ($t:ident $w:ident $l:ident text $n:literal) => { $w.text($l.argument($n)) };
    ($t:ident $w:ident $l:ident copy $n:literal) => { $w.text($l.argument($n)).to_vec($w.alloc)? };
    ($t:ident $w:ident $l:ident copies $n:literal) => { $w.copies($l.arguments($n))? };
    ($t:ident $w:ident $l:ident number $n:literal) => { $l.number($n).unwrap_or(0) };
    ($t:ident $w:ident $l:ident path $n:literal) => { $w.path($l.argument($n))? };
    ($t:ident $w:ident $l:ident paths $n:literal) => { $w.paths($l.arguments($n))? };
    ($t:ident $w:ident $l:ident rising $n:literal) => { rising($w, $l.arguments($n))? };
    ($t:ident $w:ident $l:ident known $n:literal) => {
        $w.path($l.argument($n)).or(Err(Stop::NotAllowed))?
    };
    ($t:ident $w:ident $l:ident digest $n:literal) => { digest_of($l.argument($n))? };
    ($t:ident $w:ident $l:ident digests $n:literal) => { digests($w.alloc, $l.arguments($n))? };
    ($t:ident $w:ident $l:ident written $n:literal) => {
        Digest::of_text($l.argument($n)).ok_or(Stop::Lost("no digest"))?
    };
    ($t:ident $w:ident $l:ident version $n:literal) => {
        match $l.argument($n) {
            b"1" => Version::One,
            b"3" => Version::Three,
            _ => Version::Two,
        }
    };
    ($t:ident $w:ident $l:ident table $n:literal) => { table($t, $w, $l)? };
    ($t:ident $w:ident $l:ident entries $n:literal) => { entries($w, $l)? };
    ($t:ident $w:ident $l:ident node $n:literal) => { node_of($w, $l, $n)? };
    ($t:ident $w:ident $l:ident cause $n:literal) => { cause_of($l.argument($n)) };
    ($t:ident $w:ident $l:ident job $n:literal) => { made_job($w, b"", $l.argument($n))? };
    ($t:ident $w:ident $l:ident reached $n:literal) => { reached($w, $l)? };
    ($t:ident $w:ident $l:ident before $mark:literal) => { rising($w, $l.divided($mark).0)? };
    ($t:ident $w:ident $l:ident after $mark:literal) => { rising($w, $l.divided($mark).1)? };
    ($t:ident $w:ident $l:ident $shelf:ident $n:literal) => { $w.$shelf.get($l.argument($n))? };
}

// The name of a call: that of its word, unless another is given.
macro_rules! name {
    ($word:literal) => { $word };
    ($word:literal $name:literal) => { $name };
}

// Gives an answer, or has the teller tell it.
macro_rules! given {
    ($teller:ident $world:ident $line:ident $answer:ident) => {
        $answer.give($teller, $world, $line)
    };
    ($teller:ident $world:ident $line:ident $answer:ident $tell:ident) => {{
        let value = $teller.answered($answer)?;
        $teller.$tell(&value);
        Ok(())
    }};
}

// Takes a line, if its word is one of these: `WORD as NAME (ARGUMENTS) if ALLOWED => CALL => TELL`
// is a word that makes one call, `put WORD (ARGUMENTS) => VALUE` one that only keeps a value, and
// `do WORD => TAKEN` any other one.
macro_rules! words {
    (
        $teller:ident, $world:ident, $line:ident;
        $($word:literal $(as $name:literal)?
            $(($($argument:pat = $kind:ident $n:literal),*))?
            $(if $allowed:expr)?
            => $call:expr $(=> $tell:ident)?;)*
        $(put $kept:literal $(($($own:pat = $own_kind:ident $own_n:literal),*))? => $value:expr;)*
        $(do $($other:literal)|+ => $taken:expr;)*
    ) => {{
        let taken = match $line.call {
            $($word => {
                let answer = {
                    let $world = &*$world;
                    $($(let $argument = argument!($teller $world $line $kind $n);)*)?
                    $(if !$allowed {
                        return Err(Stop::NotAllowed);
                    })?
                    call!($teller, name!($word $($name)?) => $call)
                };
                given!($teller $world $line answer $($tell)?)
            })*
            $($kept => {
                let kept = {
                    $($(let $own = argument!($teller $world $line $own_kind $own_n);)*)?
                    $value
                };
                kept.give($teller, $world, $line)
            })*
            $($($other)|+ => $taken,)*
            _ => return Ok(false),
        };
        taken.and(Ok(true))
    }};
}

// Takes a line by the first of these with its call. A proof grows with the square of the calls.
macro_rules! any_of {
    ($teller:ident, $world:ident, $line:ident; $($take:path),+) => {{
        $(let taken = $take($teller, $world, $line);
        if !matches!(taken, Ok(false)) {
            return taken;
        })+
        Ok(false)
    }};
}

mod archives;
mod books;
mod derivations;
pub(crate) mod faults;
mod forecasts;
mod journals;
mod names;
mod scans;
mod tables;
mod views;

use crate::line::Line;
use crate::stop::{Found, call};
use crate::teller::Teller;
use crate::world::World;
use std::sync::Wait;
pub(crate) use tables::given;

/// Takes a line, and the lines after it that are of its book or its view.
pub(crate) fn take<W: Wait>(
    wait: &W,
    teller: &mut Teller<'_>,
    world: &mut World,
    line: &Line<'_>,
) -> Found {
    match line.call {
        "view" => views::take(wait, teller, world, line),
        "faults" => faults::take(teller, world),
        _ => any_of! { teller, world, line; names::take, derivations::take, archives::take,
            scans::take, journals::take, tables::take, books::take, forecasts::take },
    }
}
