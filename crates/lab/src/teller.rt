//! What reads the lines, and prints the calls and their answers.
ghost use Rattle.std.specs.Prelude.{◌≡◌, IfOk, Ok};

use crate::line::{Line, halves};
use crate::stop::{Found, Stop};
use crate::words::faults::Fault;
use nix_names::StorePath;
use std::fmt::Display;
use std::io::Print;
use std::mem;
use std::time::Instant;

/// How it stands with the line that is taken.
#[derive(Clone, Copy, PartialEq, Eq)]
enum Stand {
    /// Each call of it was answered.
    Answered,
    /// A call of it was answered by want of memory.
    Wanting,
    /// It means nothing, or it could not be answered.
    Lost,
}

/// What reads and prints, and how it stands with the line that is taken.
#[derive(Drop)]
pub(crate) struct Teller<'a> {
    /// What the program stands on.
    pub(crate) rt: &'a HostRuntime,
    /// What was not read yet.
    pub(crate) rest: &'a [u8],
    number: u64,
    stand: Stand,
    /// Whether the time of each call is printed.
    pub(crate) tells_times: bool,
    start: Option<Instant>,
    is_hushed: bool,
    // The nanoseconds of the calls of which nothing was printed.
    hushed: u128,
}

impl<'a> Teller<'a> {
    /// Of a new program, which reads a text.
    pub(crate) fn new(rt: &'a HostRuntime, rest: &'a [u8], tells_times: bool) -> Teller<'a> {
        Teller {
            rt,
            rest,
            number: 0,
            stand: Stand::Answered,
            tells_times,
            start: None,
            is_hushed: false,
            hushed: 0,
        }
    }

    /// The next line that is not empty; none where it has the last call of some lines, or where no
    /// line can be taken any more.
    pub(crate) fn next(&mut self, last: &str) -> Result<Option<Line<'a>>, Stop> {
        for _ in 0..self.rest.len() {
            let (text, rest) = halves(self.rest, b'\n');
            self.rest = rest;
            if !text.is_empty() {
                let line = Line::of(self.rt.alloc(), text)?;
                let is_over = line.call == last || !self.goes_on();
                return Ok(if is_over { None } else { Some(line) });
            }
        }
        Ok(None)
    }

    /// Prints nothing from now on, or prints again: first the time of the calls of which nothing
    /// was printed.
    pub(crate) fn hush(&mut self, is_hushed: bool) {
        self.is_hushed = is_hushed;
        let passed = mem::replace(&mut self.hushed, 0);
        if self.tells_times {
            self.say(format_args!("took {passed} ns"));
        }
    }

    /// Prints a line.
    pub(crate) fn say<D: Display + Drop>(&mut self, line: D) {
        if !self.is_hushed && self.rt.println(line).is_err() {
            self.stand = Stand::Lost;
        }
    }

    /// Prints that a call begins.
    pub(crate) fn begins(&mut self, call: &str) {
        let number = self.number;
        self.say(format_args!("begins {number} {call}"));
        if self.tells_times {
            self.start = Instant::now(self.rt).ok();
        }
    }

    /// Prints that it ended.
    pub(crate) fn ends(&mut self, call: &str) {
        let passed = match &self.start {
            Some(start) => start.elapsed(self.rt).ok(),
            None => None,
        };
        let number = self.number;
        self.say(format_args!("ends {number} {call}"));
        self.number = self.number.wrapping_add(1);
        if let Some(passed) = passed {
            self.hushed = self.hushed.saturating_add(passed.as_nanos());
            self.say(format_args!("took {} ns", passed.as_nanos()));
        }
    }

    /// Tells why a line was over before its end, if it was.
    pub(crate) fn end(&mut self, taken: Found) {
        match taken {
            Ok(true) | Err(Stop::Told) => {}
            Ok(false) => self.lose("there is no such call"),
            Err(Stop::NotAllowed) => self.say("not allowed"),
            Err(Stop::Lost(why)) => self.lose(why),
        }
    }

    fn lose(&mut self, why: &str) {
        self.say(format_args!("no such line: {why}"));
        self.stand = Stand::Lost;
    }

    /// Whether the next line can be taken.
    pub(crate) fn goes_on(&self) -> bool {
        self.stand != Stand::Lost
    }

    /// Whether a call was answered by want of memory since this was asked last.
    pub(crate) fn wants(&mut self) -> bool {
        let wants = self.stand == Stand::Wanting;
        if wants {
            self.stand = Stand::Answered;
        }
        wants
    }

    /// What a call answered. The line is over where that is a fault, which is told.
    pub(crate) fn answered<T, F: Fault + Drop>(&mut self, answer: Result<T, F>) -> Result<T, Stop>
        ensures { IfOk result (λ value. answer ≡ Ok value) }
    {
        match answer {
            Ok(value) => Ok(value),
            Err(fault) => {
                self.tell_fault(&fault);
                Err(Stop::Told)
            }
        }
    }

    /// Tells a fault, or notes that memory was refused.
    pub(crate) fn tell_fault<F: Fault>(&mut self, fault: &F) {
        match fault.words(self.rt.alloc()) {
            Ok(words) => match words.as_str() {
                "NoMemory" | "OutOfMemory" | "AllocError" => self.stand = Stand::Wanting,
                words => self.say(words),
            },
            Err(_) => self.stand = Stand::Lost,
        }
    }

    /// Prints a text; one that is no UTF-8 with escapes.
    pub(crate) fn text(&mut self, text: &[u8]) {
        match str::from_utf8(text) {
            Ok(text) => self.say(text),
            Err(_) => self.say(text.escape_ascii()),
        }
    }

    /// Prints bytes in hex digits.
    pub(crate) fn hex(&mut self, bytes: &[u8]) {
        match hex::encode(self.rt.alloc(), bytes) {
            Ok(digits) => self.say(digits.as_str()),
            Err(_) => self.stand = Stand::Lost,
        }
    }

    /// Prints each line of a text. A last line without an end is marked.
    pub(crate) fn lines(&mut self, text: &[u8]) {
        match text.strip_suffix(b"\n") {
            Some(lines) => self.text(lines),
            None => {
                self.text(text);
                self.say("(without an end of line)");
            }
        }
    }

    /// Prints each path.
    pub(crate) fn paths(&mut self, paths: &[StorePath]) {
        for path in paths {
            self.say(path.as_str());
        }
    }
}
