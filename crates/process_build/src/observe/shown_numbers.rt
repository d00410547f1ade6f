//! The numbers that the terminal of the line of progress was shown last.
ghost use Rattle.std.specs.Prelude.{◌≡◌, List, OnOk, ℕ};
ghost use Rattle.std.specs.Io.KnownBytes.{Appends};
ghost use Rattle.process_build.specs.Progress.{IsShown, shown_text};

use crate::observe::counts::Numbers;
use crate::observe::line::{LineContent, NO_LINE};
use std::alloc::{AllocError, Global};
use std::io;
use std::io::Write;

/// The numbers that a terminal was shown. Only `ShownNumbers::by`, which writes a line, makes one.
#[derive(Drop)]
pub struct ShownNumbers {
    numbers: Numbers,
}

impl ShownNumbers {
    /// Shows a terminal a line. A refused write changes nothing.
    pub fn by<W: Write>(alloc: Global, line: &LineContent<'_>, to: &mut W) -> ShownNumbers
        ensures { result.numbers ≡ line.now.numbers }
    {
        let _ = write_line(alloc, line, to);
        ShownNumbers {
            numbers: line.numbers,
        }
    }
}

// Writes the line while a job runs, and clears it otherwise.
fn write_line<W: Write>(alloc: Global, line: &LineContent<'_>, to: &mut W) -> io::Result<()>
    ensures { OnOk result ((text : List ℕ) × IsShown line.now text
        × Appends (W.contents to.old) (W.contents to.new) text) }
{
    let text = line.text(alloc);
    to.write_all(text_of(line.numbers.running, &text))
}

// The line while a job runs. If no job runs, or there is no memory for the line, what clears it.
fn text_of(running: usize, line: &Result<Vec<u8>, AllocError>) -> &[u8]
    ensures { result.now ≡ shown_text running line.now }
{
    match line {
        Ok(line) if running > 0 => line,
        Ok(_) | Err(_) => NO_LINE.as_bytes(),
    }
}
