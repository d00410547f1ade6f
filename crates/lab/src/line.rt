//! A line of the standard input, and its words.

use std::alloc::{AllocError, Global};

/// A line: the name under which the answer is kept, if there is one, the call, and its arguments.
#[derive(Drop)]
pub(crate) struct Line<'a> {
    /// No bytes where the answer isn't kept.
    pub(crate) name: &'a [u8],
    pub(crate) call: &'a str,
    words: Vec<&'a [u8]>,
}

impl<'a> Line<'a> {
    /// The line that a text is.
    pub(crate) fn of(alloc: Global, text: &'a [u8]) -> Result<Line<'a>, AllocError> {
        let mut words = pieces(alloc, text, b' ')?;
        let is_kept = words.get(1) == Some(&b"=".as_slice());
        let head = if is_kept { 3 } else { 1 };
        let name = if is_kept { word_at(&words, 0) } else { b"" };
        let call = as_text(word_at(&words, head - 1));
        let words = words.split_off(head.min(words.len()))?;
        Ok(Line { name, call, words })
    }

    /// The argument with this number; no bytes where there is none.
    pub(crate) fn argument(&self, number: usize) -> &'a [u8] {
        word_at(&self.words, number)
    }

    /// The arguments from this number on.
    pub(crate) fn arguments(&self, first: usize) -> &[&'a [u8]] {
        let (_, rest) = self.words.split_at(first.min(self.words.len()));
        rest
    }

    /// The arguments before a mark, and those after it.
    pub(crate) fn divided(&self, mark: &[u8]) -> (&[&'a [u8]], &[&'a [u8]]) {
        let index = self.words.iter().position(|word| *word == mark);
        let (before, rest) = self.words.split_at(index.unwrap_or(self.words.len()));
        (before, rest.get(1..).unwrap_or(rest))
    }

    /// The argument with this number as a number, if it is one.
    pub(crate) fn number(&self, number: usize) -> Option<usize> {
        number_of(self.argument(number))
    }
}

/// A word as a text; no text where it is no UTF-8.
pub(crate) fn as_text(word: &[u8]) -> &str {
    str::from_utf8(word).unwrap_or("")
}

/// The number that a word is, if it is one.
pub(crate) fn number_of(word: &[u8]) -> Option<usize> {
    str::from_utf8(word).ok()?.parse().ok()
}

/// The pieces of a word between its marks.
pub(crate) fn pieces(alloc: Global, word: &[u8], mark: u8) -> Result<Vec<&[u8]>, AllocError> {
    let mut pieces = Vec::new(alloc);
    for piece in word.split(|byte| *byte == mark) {
        pieces.push(piece)?;
    }
    Ok(pieces)
}

/// A word up to its first mark, and what stands after that; all of it where it has no mark.
pub(crate) fn halves(word: &[u8], mark: u8) -> (&[u8], &[u8]) {
    let index = word.iter().position(|byte| *byte == mark);
    let (head, rest) = word.split_at(index.unwrap_or(word.len()));
    (head, rest.get(1..).unwrap_or(rest))
}

// The word with this number; no bytes where there is none.
fn word_at<'a>(words: &[&'a [u8]], number: usize) -> &'a [u8] {
    words.get(number).copied().unwrap_or(b"")
}
