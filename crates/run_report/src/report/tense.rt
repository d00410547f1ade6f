//! The words of a report and of a forecast.
ghost use Rattle.std.specs.Prelude.{◌≡◌};
ghost use Rattle.run_report.specs.Reports.{built_word, failed_word, refused_word, reused_word};

// Whether a text tells what was, as a report, or what will be, as a forecast.
#[derive(Clone, Copy)]
pub(crate) enum Tense {
    Past,
    Future,
}

// Each word has the space after it.
impl Tense {
    // The word for what is built.
    pub(crate) fn built(self) -> &'static [u8]
        ensures { result.now ≡ built_word self }
    {
        match self {
            Tense::Past => b"built ",
            Tense::Future => b"build ",
        }
    }

    // The word for what is reused.
    pub(crate) fn reused(self) -> &'static [u8]
        ensures { result.now ≡ reused_word self }
    {
        match self {
            Tense::Past => b"reused ",
            Tense::Future => b"reuse ",
        }
    }

    // The word for what fails.
    pub(crate) fn failed(self) -> &'static [u8]
        ensures { result.now ≡ failed_word self }
    {
        match self {
            Tense::Past => b"failed ",
            Tense::Future => b"fail ",
        }
    }

    // The word for what is refused.
    pub(crate) fn refused(self) -> &'static [u8]
        ensures { result.now ≡ refused_word self }
    {
        match self {
            Tense::Past => b"refused ",
            Tense::Future => b"refuse ",
        }
    }
}
