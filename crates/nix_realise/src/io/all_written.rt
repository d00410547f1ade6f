//! Evidence that the files of `add-text` and `add-drv` were written.
ghost use Rattle.std.specs.Prelude.{◌≡◌};
ghost use Rattle.nix_realise.specs.Filed.{AreFiled, IsDrvWritten};

use crate::additions::added_drv::AddedDrv;
use crate::additions::added_text::AddedText;
use crate::cli::exit::Status;
use crate::io::journal_file::OwnJournal;
use crate::io::whole_file::WriteReceipt;

/// Evidence that the files of a text were written.
pub struct Filed<'w> {
    /// That of the text.
    pub text: WriteReceipt<'w>,
    /// The journal.
    pub journal: WriteReceipt<'w>,
}

/// Evidence that the files of a run were written, or that none had to be; and the run's status.
/// Only this module makes one.
#[derive(Clone, Copy)]
pub struct AllWritten {
    status: Status,
}

impl AllWritten {
    /// The files of a text were written, unless its path was valid already.
    pub fn of_text(
        _file: &OwnJournal<'_>,
        _added: &AddedText,
        filed: Option<Filed<'_>>,
    ) -> AllWritten
        requires { AreFiled _added.now _file.now filed }
        ensures { result.status ≡ Status.Done }
    {
        if let Some(Filed { text, journal }) = filed {
            text.spend();
            journal.spend();
        }
        AllWritten {
            status: Status::Done,
        }
    }

    /// The file of a derivation was written.
    pub fn of_drv(_added: &AddedDrv, written: WriteReceipt<'_>) -> AllWritten
        requires { IsDrvWritten _added.now written }
        ensures { result.status ≡ Status.Done }
    {
        written.spend();
        AllWritten {
            status: Status::Done,
        }
    }

    /// The status of the run.
    pub fn status(self) -> Status
        ensures { result ≡ self.status }
    {
        self.status
    }
}
