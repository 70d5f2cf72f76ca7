//! What fails in a run.

use crate::fault::Fault;
use crate::numbers::numbers;
use crate::texts::sides;
use std::alloc::Global;

/// The numbers of the calls that fail.
#[derive(Clone, Drop)]
pub(crate) struct Trial {
    pub disk: Vec<u64>,
    pub tool: Vec<u64>,
    pub input: Vec<u64>,
    pub output: Vec<u64>,
    pub errors: Vec<u64>,
}

impl Trial {
    fn calm(alloc: Global) -> Trial {
        Trial {
            disk: Vec::new(alloc),
            tool: Vec::new(alloc),
            input: Vec::new(alloc),
            output: Vec::new(alloc),
            errors: Vec::new(alloc),
        }
    }

    fn set(&mut self, what: &str, numbers: Vec<u64>) -> Result<(), Fault> {
        match what {
            "disk" => self.disk = numbers,
            "tool" => self.tool = numbers,
            "input" => self.input = numbers,
            "output" => self.output = numbers,
            "errors" => self.errors = numbers,
            _ => return Err(Fault::BadLine),
        }
        Ok(())
    }
}

/// What is tried with the next run: it is made once for each, on the same store.
#[derive(Drop)]
pub(crate) struct Trials {
    pub trials: Vec<Trial>,
    /// Whether the streams are of a kind that cannot fail.
    pub is_sure: bool,
    /// Whether a line asked for it.
    pub is_asked: bool,
}

impl Trials {
    /// One trial in which nothing fails.
    pub(crate) fn calm(alloc: Global) -> Result<Trials, Fault> {
        let mut trials = Vec::new(alloc);
        trials.push(Trial::calm(alloc))?;
        Ok(Trials {
            trials,
            is_sure: false,
            is_asked: false,
        })
    }

    /// Streams that cannot fail.
    pub(crate) fn be_sure(&mut self, rest: &str) -> Result<(), Fault> {
        if rest != "streams" {
            return Err(Fault::BadLine);
        }
        self.is_sure = true;
        self.is_asked = true;
        Ok(())
    }

    /// Reads `fails at NUMBERS` or `fails at each of NUMBERS`.
    pub(crate) fn fail(&mut self, alloc: Global, what: &str, rest: &str) -> Result<(), Fault> {
        self.is_asked = true;
        match rest.strip_prefix("fails at each of ") {
            Some(rest) => self.fail_each(alloc, what, &numbers(alloc, rest)?),
            None => self.fail_all(alloc, what, rest),
        }
    }

    fn fail_all(&mut self, alloc: Global, what: &str, rest: &str) -> Result<(), Fault> {
        let (_, rest) = sides(rest, "fails at ")?;
        let numbers = numbers(alloc, rest)?;
        for trial in &mut self.trials {
            trial.set(what, numbers.clone()?)?;
        }
        Ok(())
    }

    /// Makes of each trial one for each number.
    fn fail_each(&mut self, alloc: Global, what: &str, numbers: &[u64]) -> Result<(), Fault> {
        let mut trials = Vec::new(alloc);
        for trial in &self.trials {
            for number in numbers {
                trials.push(with_one(alloc, trial, what, *number)?)?;
            }
        }
        self.trials = trials;
        Ok(())
    }
}

/// The trial in which the call with this number fails, too.
fn with_one(alloc: Global, trial: &Trial, what: &str, number: u64) -> Result<Trial, Fault> {
    let mut one = Vec::new(alloc);
    one.push(number)?;
    let mut trial = trial.clone()?;
    trial.set(what, one)?;
    Ok(trial)
}
