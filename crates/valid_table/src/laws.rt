//! Laws over the definitions that contracts cite, each on the contract of a function that does
//! nothing.
ghost use Rattle.valid_table.specs.BadLines.{BadLineIsOne, TextsHaveNoBadLine};
ghost use Rattle.valid_table.specs.Closure.{ClosureIsOne, ClosureStays};
ghost use Rattle.valid_table.specs.Equality.{EqualEntriesAreSame};
ghost use Rattle.valid_table.specs.ReadingLaws.{AnswerIsOne, JournalTextsAreRead, TextHasOneList, VersionsHaveTheSameEntries, WrittenJournalsAreReadAgain};
ghost use Rattle.valid_table.specs.Written.{TextGoesOn, WrittenTextsAreTexts};

/// The closure of paths that are valid in a closed list of entries stays the same in each list of
/// entries that begins with it.
pub fn closure_stays()
    ensures { ClosureStays }
{}

/// Some paths have at most one closure.
pub fn closure_is_one()
    ensures { ClosureIsOne }
{}

/// The text of a journal of a store folder has no bad line.
pub fn texts_have_no_bad_line()
    ensures { TextsHaveNoBadLine }
{}

/// Bytes have at most one first bad line, in a store folder.
pub fn bad_line_is_one()
    ensures { BadLineIsOne }
{}

/// A text is the text of at most one list of entries.
pub fn text_has_one_list()
    ensures { TextHasOneList }
{}

/// The text of a journal of a store folder, of at most 134,217,728 bytes in version 2 or 3, or
/// 67,108,864 in version 1, is read as just that journal, want of memory apart.
pub fn journal_texts_are_read()
    ensures { JournalTextsAreRead }
{}

/// Bytes are read with one answer, want of memory apart: two answers that reading them in a store
/// folder may give are the same, or one of them is `NoMemory`.
pub fn answer_is_one()
    ensures { AnswerIsOne }
{}

/// A text of version 1 or 2 and the text of its entries in a later version have the same entries;
/// the second is at most twice as long.
pub fn versions_have_the_same_entries()
    ensures { VersionsHaveTheSameEntries }
{}

/// The entries that are read of a text of version 1 or 2 of a store folder are read again of the
/// text of these entries in a later version, want of memory apart. Of version 2 that holds where
/// the text in version 3 is within the limit.
pub fn written_journals_are_read_again()
    ensures { WrittenJournalsAreReadAgain }
{}

/// A journal's text in a version, and then the lines of further entries in that version, are the
/// text of all of them.
pub fn text_goes_on()
    ensures { TextGoesOn }
{}

/// Entries that have a text in some version have one in the version in which they are written.
pub fn written_texts_are_texts()
    ensures { WrittenTextsAreTexts }
{}

/// Two entries are equal by `==` exactly where they are the same.
pub fn equal_entries_are_same()
    ensures { EqualEntriesAreSame }
{}
