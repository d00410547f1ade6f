//! The journal file, which is written only where a later run can read it.
ghost use Rattle.std.specs.Prelude.{◌≡◌, ◌≤◌, ◌<◌, IfErr, IfOk, length};
ghost use Rattle.nix_realise.specs.JournalFiles.{IsUnwrittenJournal, max_journal_len};

use crate::io::whole_file::{WriteError, WriteReceipt, write_whole};
use std::rt::Files;
use valid_table::MAX_JOURNAL;

/// Evidence that a journal file was not written, and why. Only `write_journal` makes one.
#[derive(Clone, Copy, Debug, PartialEq, Eq)]
pub enum UnwrittenJournal {
    /// The text has more than 134,217,728 bytes.
    TooLong,
    /// The text is not too long, and the file could not be written.
    File(WriteError),
}

/// Puts a file with the text of a journal at a path, as `write_whole` does, unless the text has
/// more than 134,217,728 bytes: no run would read such a file. It is not written then, and the path
/// is left as it is.
pub fn write_journal<'a, R: Files + AllocGlobal>(
    rt: &R,
    path: &'a str,
    text: &'a [u8],
) -> Result<WriteReceipt<'a>, UnwrittenJournal>
    ensures ok { IfOk result (λ written.
        (written.path.now ≡ path.entry.now) × (written.bytes.now ≡ text.entry.now)) }
    ensures fits { IfOk result (λ _. length text.entry.now ≤ max_journal_len) }
    ensures err { IfErr result (IsUnwrittenJournal text.entry.now) }
{
    if let Err(fault) = check_len(text) {
        return Err(fault);
    }
    match write_whole(rt, path, text) {
        Ok(written) => Ok(written),
        Err(unwritten) => Err(UnwrittenJournal::File(unwritten)),
    }
}

// A fault for a text that has more bytes than a journal may have.
fn check_len(text: &[u8]) -> Result<(), UnwrittenJournal>
    ensures fits { IfOk result (λ _. length text.now ≤ max_journal_len) }
    ensures long { IfErr result (λ _. max_journal_len < length text.now) }
    ensures fault { IfErr result (λ fault. fault ≡ UnwrittenJournal.TooLong) }
    ensures err { IfErr result (IsUnwrittenJournal text.now) }
{
    if text.len() > MAX_JOURNAL {
        Err(UnwrittenJournal::TooLong)
    } else {
        Ok(())
    }
}
