//! Running a transcript.

use crate::fault::Fault;
use crate::numbers::range;
use crate::run::is_of_run;
use crate::session::Session;
use crate::texts::{first_word, numbered};
use gopass_base::NoMemory;
use std::alloc::Global;
use std::mem;
use std::test::Fail;

/// A line of a transcript, with its number from 1.
#[derive(Clone, Copy)]
struct Place<'a> {
    number: usize,
    line: &'a str,
}

/// Says the fault of the line.
fn told(alloc: Global, place: &Place, fault: Fault) -> Result<String, NoMemory> {
    let Place { number, line } = *place;
    match fault {
        Fault::NoMemory => Err(NoMemory),
        Fault::BadLine => Ok(format!(in alloc; "line {number}: {line}: a bad line")?),
        Fault::Wrong(is) => Ok(format!(in alloc; "line {number}: {line}: {is}")?),
    }
}

/// A transcript that is read: what stands at the line, which line that is, and at which line the last
/// run has begun.
#[derive(Drop)]
struct Reading<'a> {
    session: Session,
    here: Place<'a>,
    begun: Place<'a>,
}

impl<'a> Reading<'a> {
    /// Takes one line more, which does not begin with `each`.
    fn take(&mut self, alloc: Global, line: &str) -> Result<(), Fault> {
        if is_of_run(line) {
            return self.session.take(alloc, line);
        }
        self.finish(alloc)?;
        self.begun = self.here;
        self.session.begin(alloc, line)
    }

    /// Makes the run that has begun. Where it does not hold, that is told at its own line.
    fn finish(&mut self, alloc: Global) -> Result<(), Fault> {
        let here = mem::replace(&mut self.here, self.begun);
        self.session.finish(alloc)?;
        self.here = here;
        Ok(())
    }

    /// Takes the line of `2..5 LINE` for each number, which stands for each `#` in it.
    fn take_each(&mut self, alloc: Global, rest: &str) -> Result<(), Fault> {
        let (numbers, line) = first_word(rest);
        let (from, to) = range(numbers)?;
        for number in from..to {
            let line = numbered(alloc, line, number)?;
            self.take(alloc, &line)?;
        }
        Ok(())
    }

    /// Takes one line more, unless it is empty or a comment.
    fn read_line(&mut self, alloc: Global, line: &str) -> Result<(), Fault> {
        if line.is_empty() || line.starts_with('#') {
            return Ok(());
        }
        match line.strip_prefix("each ") {
            Some(rest) => self.take_each(alloc, rest),
            None => self.take(alloc, line),
        }
    }

    /// Takes all lines.
    fn read(&mut self, alloc: Global, transcript: &'a str) -> Result<(), Fault> {
        let mut number = 0usize;
        for line in transcript.split('\n') {
            number = number.saturating_add(1);
            let line = line.trim_start();
            self.here = Place { number, line };
            self.read_line(alloc, line)?;
        }
        self.finish(alloc)?;
        if self.session.is_done() {
            return Ok(());
        }
        Err(Fault::BadLine)
    }
}

/// Why the transcript does not hold, where it does not, with the number and the text of the line.
pub fn refusal(alloc: Global, transcript: &str) -> Result<Option<String>, NoMemory> {
    let nowhere = Place {
        number: 0,
        line: "",
    };
    let session = match Session::new(alloc) {
        Ok(session) => session,
        Err(_) => return Err(NoMemory),
    };
    let mut reading = Reading {
        session,
        here: nowhere,
        begun: nowhere,
    };
    match reading.read(alloc, transcript) {
        Ok(()) => Ok(None),
        Err(fault) => Ok(Some(told(alloc, &reading.here, fault)?)),
    }
}

/// Makes the runs of a transcript, over stores in memory whose root directory is `root`, and compares what
/// they leave with what its lines say. Where it does not hold, the answer says why, with the number from 1
/// and the text of the line. Lines that are none are refused, and so is a transcript that makes no run.
///
/// The lines that put what a run finds are `new store`, `files PATH = TEXT`, `sealed PATH = IDS : TEXT`,
/// `adds PATH = TEXT`, `crowd N`, `knows IDS`, `holds IDS`, `WHAT fails at NUMBERS`,
/// `WHAT fails at each of NUMBERS`, `sure streams`, `crash after N PICK`, `crash at the end`,
/// `crash everywhere` and `undo`; `stands PATH = TEXT` and `none PATH` say what it left. A run is `$ WORDS`,
/// with the lines `< TEXT`, `> TEXT`, `! TEXT`, `? STATUS`, `or`, `left TEXT`, `calls N`, `disk calls N`,
/// `commits N` and `changes PATHS` right below it. `each N..M LINE` is the line once for each number.
/// `docs/TRANSCRIPTS.md` says what each of them is.
pub fn check(alloc: Global, transcript: &str) -> Result<(), Fail> {
    match refusal(alloc, transcript) {
        Ok(None) => Ok(()),
        Ok(Some(why)) => Err(Fail::new(why)),
        Err(NoMemory) => Err(Fail::new("out of memory")),
    }
}
