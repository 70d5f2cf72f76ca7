//! A run as a transcript says it.

use crate::fault::{Fault, same_bytes, same_number};
use crate::numbers::number;
use crate::paths::{changes, paths};
use crate::play::Left;
use crate::texts::{bytes, first_word, words};
use disk_model::MemDisk;
use gopass_base::FilePath;
use std::alloc::Global;

/// What a run is to print, and its status.
#[derive(Drop)]
struct Answer {
    out: Vec<u8>,
    err: Vec<u8>,
    status: u8,
    /// Whether a run gave it.
    is_given: bool,
}

/// A run, and what it is to leave.
#[derive(Drop)]
pub(crate) struct Run {
    pub words: Vec<String>,
    pub input: Vec<u8>,
    answers: Vec<Answer>,
    calls: Option<u64>,
    disk_calls: Option<u64>,
    commits: Option<u64>,
    left: Option<Vec<u8>>,
    changed: Option<Vec<FilePath>>,
}

/// Whether the line belongs to a run.
pub(crate) fn is_of_run(line: &str) -> bool {
    match first_word(line).0 {
        "<" | ">" | "!" | "?" | "or" | "left" | "calls" | "commits" | "changes" => true,
        "disk" => line.starts_with("disk calls "),
        _ => false,
    }
}

impl Answer {
    /// Nothing is printed, and the status is 0.
    fn silent(alloc: Global) -> Answer {
        Answer {
            out: Vec::new(alloc),
            err: Vec::new(alloc),
            status: 0,
            is_given: false,
        }
    }

    fn is(&self, left: &Left) -> bool {
        self.status == left.status
            && self.out.as_slice() == left.out.as_slice()
            && self.err.as_slice() == left.err.as_slice()
    }

    /// Tells what of the answer is not what a run left.
    fn compare(&self, alloc: Global, left: &Left) -> Result<(), Fault> {
        same_bytes(alloc, "told", &left.err, &self.err)?;
        same_bytes(alloc, "printed", &left.out, &self.out)?;
        let status = Some(self.status as u64);
        same_number(alloc, "status", left.status as u64, status)
    }
}

impl Run {
    /// The run of a line of words, which is to print nothing.
    pub(crate) fn new(alloc: Global, line: &str) -> Result<Run, Fault> {
        let mut answers = Vec::new(alloc);
        answers.push(Answer::silent(alloc))?;
        Ok(Run {
            words: words(alloc, line)?,
            input: Vec::new(alloc),
            answers,
            calls: None,
            disk_calls: None,
            commits: None,
            left: None,
            changed: None,
        })
    }

    /// Takes a line that belongs to the run.
    pub(crate) fn take(&mut self, alloc: Global, line: &str) -> Result<(), Fault> {
        let (word, rest) = first_word(line);
        match word {
            "<" => self.add_input(&bytes(alloc, rest)?),
            "or" => self.add_answer(alloc, rest),
            ">" | "!" | "?" => self.answer(alloc, word, rest),
            "left" => self.leave(bytes(alloc, rest)?),
            "changes" => self.change(alloc, rest),
            _ => self.count(word, rest),
        }
    }

    fn add_input(&mut self, bytes: &[u8]) -> Result<(), Fault> {
        self.input.extend_from_slice(bytes)?;
        Ok(())
    }

    fn add_answer(&mut self, alloc: Global, rest: &str) -> Result<(), Fault> {
        if !rest.is_empty() {
            return Err(Fault::BadLine);
        }
        self.answers.push(Answer::silent(alloc))?;
        Ok(())
    }

    fn answer(&mut self, alloc: Global, mark: &str, rest: &str) -> Result<(), Fault> {
        let Some(answer) = self.answers.last_mut() else {
            return Err(Fault::BadLine);
        };
        match mark {
            ">" => answer.out.extend_from_slice(&bytes(alloc, rest)?)?,
            "!" => answer.err.extend_from_slice(&bytes(alloc, rest)?)?,
            _ => answer.status = rest.parse::<u8>().map_err(|_| Fault::BadLine)?,
        }
        Ok(())
    }

    fn leave(&mut self, left: Vec<u8>) -> Result<(), Fault> {
        self.left = Some(left);
        Ok(())
    }

    fn change(&mut self, alloc: Global, rest: &str) -> Result<(), Fault> {
        let changed = match rest {
            "nothing" => Vec::new(alloc),
            "" => return Err(Fault::BadLine),
            _ => paths(alloc, rest)?,
        };
        self.changed = Some(changed);
        Ok(())
    }

    fn count(&mut self, word: &str, rest: &str) -> Result<(), Fault> {
        match word {
            "calls" => self.calls = Some(number(rest)?),
            "commits" => self.commits = Some(number(rest)?),
            _ => self.disk_calls = Some(number(first_word(rest).1)?),
        }
        Ok(())
    }

    /// How many bytes are printed at most, and so many more that another text is seen.
    pub(crate) fn room(&self) -> usize {
        let mut room = 0usize;
        for answer in &self.answers {
            room = room.max(answer.out.len()).max(answer.err.len());
        }
        room.saturating_add(1_000)
    }

    /// Compares what a run left with what it is to leave.
    pub(crate) fn compare(
        &mut self,
        alloc: Global,
        before: &MemDisk,
        left: &Left,
    ) -> Result<(), Fault> {
        self.find_answer(alloc, left)?;
        self.compare_counts(alloc, left)?;
        if let Some(wanted) = &self.left {
            same_bytes(alloc, "left", &left.rest, wanted)?;
        }
        match &self.changed {
            Some(paths) => changes(alloc, before, &left.disk, paths),
            None => Ok(()),
        }
    }

    fn compare_counts(&self, alloc: Global, left: &Left) -> Result<(), Fault> {
        same_number(alloc, "calls", left.calls, self.calls)?;
        same_number(alloc, "disk calls", left.disk.steps(), self.disk_calls)?;
        same_number(alloc, "commits", left.commits, self.commits)
    }

    fn find_answer(&mut self, alloc: Global, left: &Left) -> Result<(), Fault> {
        for answer in &mut self.answers {
            if answer.is(left) {
                answer.is_given = true;
                return Ok(());
            }
        }
        match self.answers.first() {
            Some(answer) => answer.compare(alloc, left),
            None => Err(Fault::BadLine),
        }
    }

    /// Each answer was given.
    pub(crate) fn finish(&self, alloc: Global) -> Result<(), Fault> {
        if self.answers.iter().all(|answer| answer.is_given) {
            return Ok(());
        }
        Err(Fault::Wrong(String::from_str(alloc, "no run gives one of the answers")?))
    }
}
