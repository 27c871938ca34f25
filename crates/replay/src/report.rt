//! What the lines of a file come to.

use crate::line::Line;
use crate::question::answer;
use std::alloc::{AllocError, Global};
use std::fmt::Write as _;

// How many lines of a kind there are, and in how many of them the answers are the same.
#[derive(Drop)]
struct Tally<'t> {
    kind: &'t str,
    agree: u64,
    all: u64,
}

/// The text of a replay of a file, and its counts.
#[derive(Drop)]
pub struct Report<'t, 'a> {
    tallies: Vec<Tally<'t>, &'a Global>,
    text: String<&'a Global>,
    agree: u64,
    all: u64,
}

impl<'t, 'a> Report<'t, 'a> {
    /// The report on the lines of a text, and the library's answers to the same questions.
    ///
    /// An empty line is none, and one that begins with `#` says where those after it come from.
    pub fn of(alloc: &'a Global, lines: &'t str) -> Result<Self, AllocError> {
        let mut report = Report {
            tallies: Vec::new(alloc),
            text: String::new(alloc),
            agree: 0,
            all: 0,
        };
        for line in lines.lines() {
            if !line.is_empty() && !line.starts_with('#') {
                let (kind, rest) = line.split_once(' ').unwrap_or((line, ""));
                let agrees = write_difference(&mut report.text, alloc, kind, rest)?;
                report.count(kind, agrees)?;
            }
        }
        report.write_counts()?;
        Ok(report)
    }

    /// The lines that differ, and the counts of each kind and of all.
    pub fn text(&self) -> &str {
        self.text.as_str()
    }

    /// Whether there is a line, and all agree.
    pub fn agrees(&self) -> bool {
        self.all > 0 && self.agree == self.all
    }

    /// Whether there is a line, and none agrees.
    pub fn differs(&self) -> bool {
        self.all > 0 && self.agree == 0
    }

    // Counts a line of a kind.
    fn count(&mut self, kind: &'t str, agrees: bool) -> Result<(), AllocError> {
        let agree = u64::from(agrees);
        self.agree = self.agree.saturating_add(agree);
        self.all = self.all.saturating_add(1);
        if let Some(tally) = self.tallies.iter_mut().find(|tally| tally.kind == kind) {
            tally.agree = tally.agree.saturating_add(agree);
            tally.all = tally.all.saturating_add(1);
            return Ok(());
        }
        self.tallies.push(Tally {
            kind,
            agree,
            all: 1,
        })?;
        Ok(())
    }

    // Writes the counts of each kind, in the order in which the kinds came, and those of all.
    fn write_counts(&mut self) -> Result<(), AllocError> {
        for tally in self.tallies.iter() {
            writeln!(self.text, "{} {} of {}", tally.kind, tally.agree, tally.all)?;
        }
        writeln!(self.text, "total {} of {}", self.agree, self.all)
    }
}

// Asks the question of a line. Where the answer is another than the line's, writes the line and the
// answer, and tells whether they are the same.
fn write_difference<'a>(
    text: &mut String<&'a Global>,
    alloc: &'a Global,
    kind: &str,
    rest: &str,
) -> Result<bool, AllocError> {
    match Line::of(alloc, kind, rest)? {
        Some(line) => {
            let ours = answer(alloc, line.topic, kind, &line.question)?;
            write_other_answer(text, kind, rest, line.answer, ours)
        }
        None => {
            writeln!(text, "unknown: {kind} {rest}")?;
            Ok(false)
        }
    }
}

// Writes a line and the library's answer, where that is another than the line's.
fn write_other_answer(
    text: &mut String<&Global>,
    kind: &str,
    rest: &str,
    theirs: &str,
    ours: Option<String<&Global>>,
) -> Result<bool, AllocError> {
    match ours {
        Some(ours) if ours.as_str() == theirs => return Ok(true),
        Some(ours) => write_ours(text, kind, rest, ours.as_str())?,
        None => write_ours(text, kind, rest, "no question")?,
    }
    Ok(false)
}

// Writes a line, and the library's answer.
fn write_ours(
    text: &mut String<&Global>,
    kind: &str,
    rest: &str,
    ours: &str,
) -> Result<(), AllocError> {
    writeln!(text, "differs: {kind} {rest}")?;
    writeln!(text, "ours: {ours}")
}
