//! Printing bytes and texts.
ghost use Rattle.std.specs.Prelude.{IfSome, OnOk};
ghost use Rattle.std.specs.Io.KnownBytes.{Appends};

use std::fmt::Display;
use std::io;
use std::io::Write;

/// Writes bytes, and flushes them with all that was written before.
pub fn print_bytes<W: Write>(bytes: &[u8], to: &mut W) -> io::Result<()>
    ensures { OnOk result (Appends (W.contents to.old) (W.contents to.new) bytes.now) }
{
    to.write_all(bytes)?;
    to.flush()
}

/// Writes a text, and flushes it with all that was written before.
pub fn print_text<D: Display + Drop, W: Write>(text: D, to: &mut W) -> io::Result<()>
    ensures { OnOk result
        (IfSome (D.output text) (Appends (W.contents to.old) (W.contents to.new))) }
{
    write!(to, "{text}")?;
    to.flush()
}
