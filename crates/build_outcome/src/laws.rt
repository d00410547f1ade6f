//! Laws over the definitions that contracts cite, each on the contract of a function that does
//! nothing.
ghost use Rattle.build_outcome.specs.Checks.{HasOneTestedVerdict, TestedVerdictStays};
ghost use Rattle.build_outcome.specs.Verdicts.{PlainRecordsAreFlat};

/// Under the profile `plain`, the records of outputs have no archives, and no digests but those of
/// files' bytes, save where the archive of a fixed output is declared.
pub fn plain_records_are_flat()
    ensures { PlainRecordsAreFlat }
{}

/// There is one verdict with the tests.
pub fn one_tested_verdict()
    ensures { HasOneTestedVerdict }
{}

/// The verdict with the tests stays the same where the permitted paths that are no outputs reach
/// the same paths, with the same records.
pub fn tested_verdicts_stay()
    ensures { TestedVerdictStays }
{}
