//! The lines of `check`.
ghost use Rattle.std.specs.Prelude.{◌≡◌, ◌++◌, IfOk, IfErr, OnOk, if◌then◌else◌, map};
ghost use Rattle.sha2.specs.Sha256.{sha256};
ghost use Rattle.nix_drv.specs.Sources.{GivesSame};
ghost use Rattle.nix_realise.specs.CheckLines.{IsCheckReport, is_good, line_of};
ghost use Rattle.nix_realise.specs.private.CheckGroups.{AreLinesOf, IsLineOf, file_bytes};

use crate::cli::exit::Status;
use crate::queries::asked_words::{AskedWord, Found, ask};
use crate::queries::check_verdict::{Verdict, judge, write_line};
use digest_lanes::{DigestBytes, digests};
use nix_drv::{DrvFault, DrvSource};
use nix_names::StoreDir;
use std::alloc::{AllocError, Global};

// How many files are held at a time: as many as `digests` takes side by side.
const GROUP_LEN: usize = 4;

/// One line for each word, in their order, `ok WORD` or `bad WORD: FAULT`, and the status: `Done`
/// where no line is bad, else `Refused`. `NoMemory` is the only error. Each file is fetched and
/// read through once, four are held at a time, and their digests are taken together.
pub fn check_lines<S: DrvSource>(
    alloc: Global,
    source: &mut S,
    dir: &StoreDir,
    words: &[&str],
) -> Result<(Vec<u8>, Status), DrvFault>
    ensures keeps { GivesSame (S.gives source.old) (S.gives source.new) }
    ensures report { IfOk result (λ r.
        IsCheckReport (S.gives source.old) dir.now (map (λ w. w.now) words.now) r.0.items r.1) }
    ensures only { IfErr result (λ e. e ≡ DrvFault.NoMemory) }
{
    let mut report = Report {
        lines: Vec::new(alloc),
        status: Status::Done,
    };
    for group in words.chunks(GROUP_LEN) {
        let asked = ask(alloc, source, dir, group)?;
        let digests = digests(alloc, &asked)?;
        report.add_group(alloc, dir, &asked, &digests)?;
    }
    Ok((report.lines, report.status))
}

// The lines so far, and the status by them.
#[derive(Drop)]
struct Report {
    lines: Vec<u8>,
    status: Status,
}

impl Report {
    // Adds the lines of some words, whose files have these digests.
    fn add_group(
        &mut self,
        alloc: Global,
        dir: &StoreDir,
        asked: &[AskedWord<'_>],
        digests: &[DigestBytes],
    ) -> Result<(), DrvFault>
        requires { digests.now ≡ map (λ a. sha256 (file_bytes a.found)) asked.now }
        ensures added { OnOk result (AreLinesOf dir.now asked.now
            self.old.lines.items self.old.status self.new.lines.items self.new.status) }
        ensures only { IfErr result (λ e. e ≡ DrvFault.NoMemory) }
    {
        for i in 0..asked.len() {
            self.add_word(alloc, dir, &asked[i], &digests[i])?;
        }
        Ok(())
    }

    // Adds the line of a word, whose file has this digest.
    fn add_word(
        &mut self,
        alloc: Global,
        dir: &StoreDir,
        asked: &AskedWord<'_>,
        digest: &DigestBytes,
    ) -> Result<(), DrvFault>
        requires { digest.now ≡ sha256 (file_bytes asked.now.found) }
        ensures added { OnOk result (IsLineOf dir.now asked.now
            self.old.lines.items self.old.status self.new.lines.items self.new.status) }
        ensures only { IfErr result (λ e. e ≡ DrvFault.NoMemory) }
    {
        match &asked.found {
            Found::Known(verdict) => self.add_line(asked.word, verdict)?,
            Found::File(path, bytes) => {
                let verdict = judge(alloc, dir, path, bytes, digest)?;
                self.add_line(asked.word, &verdict)?;
            }
        }
        Ok(())
    }

    // Adds the line of a word by a verdict.
    fn add_line(&mut self, word: &[u8], verdict: &Verdict) -> Result<(), AllocError>
        ensures line { OnOk result
            (self.new.lines.items ≡ self.old.lines.items ++ line_of word.now verdict.now) }
        ensures status { self.new.status
            ≡ (if is_good verdict.now then self.old.status else Status.Refused) }
    {
        if !verdict.is_good() {
            self.status = Status::Refused;
        }
        write_line(word, verdict, &mut self.lines)
    }
}
