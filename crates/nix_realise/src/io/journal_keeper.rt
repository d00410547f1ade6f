//! The journal file, as it is written while a run goes on.
ghost use Rattle.std.specs.Prelude.{◌≡◌, ◌≤◌, ◌<◌, IfErr, IfOk, false, length, string_bytes, true};
ghost use Rattle.nix_realise.specs.JournalFiles.{max_journal_len};

use crate::io::journal_write::{UnwrittenJournal, write_journal};
use crate::io::locks::LockProof;
use crate::io::whole_file::WriteReceipt;
use std::alloc::AllocError;
use std::rt::Files;
use store_run::CheckpointSink;
use valid_view::{ListId, Prefix};

/// What makes the sinks in which runs keep their journals while they go on.
pub trait JournalSinks {
    ghost use Rattle.std.specs.Prelude.{IfOk, List, string_bytes};
    ghost use Rattle.nix_names.specs.Bytes.{Bytes};
    ghost use Rattle.valid_table.specs.declared.entry.Entry.{Entry};

    /// The sink of a journal. It has all that it needs, so that a thread may own it.
    type Sink: CheckpointSink + Send + Drop;

    // A sink is that of the file at a path.
    ghost keeps_at: { Self.Sink → Bytes → Type 0 };

    /// The sink of the journal file at a path, which takes each text. The right to use the store
    /// folder is held. Want of memory is the only error.
    fn sink(&self, holding: LockProof<'_>, path: String) -> Result<Self::Sink, AllocError>
        ensures at { IfOk result (λ sink. keeps_at sink (string_bytes path)) }
        ensures each { IfOk result
            (λ _. (shown : List Entry) (text : Bytes) → Self.Sink.may_keep shown text) };
}

impl<R: Files + AllocGlobal + Clone + Send + Drop> JournalSinks for R {
    ghost use Rattle.std.specs.Prelude.{◌≡◌, string_bytes};

    type Sink = InJournal<R>;

    ghost keeps_at = { λ sink path. string_bytes sink.path ≡ path };

    fn sink(&self, holding: LockProof<'_>, path: String) -> Result<InJournal<R>, AllocError> {
        Ok(InJournal::new(self.clone()?, holding, path))
    }
}

/// Puts what a run has registered in place of the file at a path.
#[derive(Drop)]
pub struct InJournal<R> {
    rt: R,
    path: String,
}

impl<R> InJournal<R> {
    /// Over the journal file at a path, where the right to use the store folder is held.
    pub fn new(rt: R, _holding: LockProof<'_>, path: String) -> InJournal<R>
        ensures { result.path ≡ path }
    {
        InJournal { rt, path }
    }
}

impl<R: Files + AllocGlobal> CheckpointSink for InJournal<R> {
    ghost use Rattle.std.specs.Prelude.{⊤};

    ghost may_keep = { λ shown text. ⊤ };

    /// A fault of the write is not told. The file that was there stays then. So it does where the
    /// text has more bytes than a journal may have.
    fn keep<J: ListId>(&mut self, text: &[u8], _shown: &Prefix<J>) -> bool
        ensures long { max_journal_len < length text.now → result ≡ false }
    {
        let path = self.path.as_str();
        is_written(path, text, write_journal(&self.rt, path, text))
    }
}

// Whether a text was written to the file at a path: never a text that has more bytes than a journal
// may have.
#[tactic(auto, using(crate::proofs::WriteErrors::never_both))]
fn is_written(_path: &str, _text: &[u8], tried: Result<WriteReceipt<'_>, UnwrittenJournal>) -> bool
    requires path { IfOk tried (λ written. written.path.now ≡ _path.now) }
    requires text { IfOk tried (λ written. written.bytes.now ≡ _text.now) }
    requires fits { IfOk tried (λ _. length _text.now ≤ max_journal_len) }
    ensures ok { IfOk tried.entry (λ _. result ≡ true) }
    ensures err { IfErr tried.entry (λ _. result ≡ false) }
    ensures long { max_journal_len < length _text.now → result ≡ false }
{
    match tried {
        Ok(written) => {
            written.spend();
            true
        }
        Err(_) => false,
    }
}
