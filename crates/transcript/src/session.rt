//! What stands at a line of a transcript.

use crate::fault::Fault;
use crate::numbers::{number, pick};
use crate::paths::{File, add_new, begun, longer, path, stands, stands_not, with_files};
use crate::play::{Keys, Left, play, play_surely};
use crate::run::Run;
use crate::texts::{bytes, first_word, ids, pair, sealed, sides};
use crate::trial::{Trial, Trials};
use crate::watched::Watched;
use disk_model::{MemDisk, Pick};
use std::alloc::Global;
use std::mem;

/// What stands at a line of a transcript.
#[derive(Drop)]
pub(crate) struct Session {
    /// What the last runs left: more than one after runs that were tried in several ways, and after
    /// crashes.
    disks: Vec<MemDisk>,
    /// What was there before the last run.
    before: Vec<MemDisk>,
    /// Files that are still to be put on each disk.
    files: Vec<File>,
    crowd: u64,
    keys: Keys,
    trials: Trials,
    run: Option<Run>,
    /// Whether a run was made.
    has_run: bool,
}

const PICKS: [Pick; 4] = [Pick::None, Pick::All, Pick::Even, Pick::Torn];

/// Adds what crashes after the calls with these numbers leave, by each pick.
fn add_crashes(disks: &mut Vec<MemDisk>, disk: &MemDisk, from: u64, to: u64) -> Result<(), Fault> {
    for moment in from..=to {
        for pick in PICKS {
            add_new(disks, crashed(disk, moment, pick)?)?;
        }
    }
    Ok(())
}

/// What a crash after so many calls leaves.
fn crashed(disk: &MemDisk, moment: u64, pick: Pick) -> Result<MemDisk, Fault> {
    if moment > disk.steps() {
        return Err(Fault::BadLine);
    }
    Ok(disk.crash(moment, pick)?)
}

impl Session {
    /// An empty store, and a tool that knows alice, bob and carol and has the key of alice.
    pub(crate) fn new(alloc: Global) -> Result<Session, Fault> {
        let mut disks = Vec::new(alloc);
        disks.push(MemDisk::new(alloc, Vec::new(alloc))?)?;
        Ok(Session {
            disks,
            before: Vec::new(alloc),
            files: Vec::new(alloc),
            crowd: 0,
            keys: Keys {
                known: ids(alloc, "alice bob carol")?,
                held: ids(alloc, "alice")?,
            },
            trials: Trials::calm(alloc)?,
            run: None,
            has_run: false,
        })
    }

    /// Takes a line that belongs to no run, or begins one.
    pub(crate) fn begin(&mut self, alloc: Global, line: &str) -> Result<(), Fault> {
        let (word, rest) = first_word(line);
        match word {
            "files" => self.put_file(alloc, rest),
            "sealed" => self.put_sealed(alloc, rest),
            _ => {
                self.put_files(alloc)?;
                self.obey(alloc, word, rest)
            }
        }
    }

    fn obey(&mut self, alloc: Global, word: &str, rest: &str) -> Result<(), Fault> {
        match word {
            "$" => self.begin_run(alloc, rest),
            "new" => self.renew(alloc, rest),
            "adds" => self.add(alloc, rest),
            "undo" => self.undo(alloc, rest),
            "crowd" => self.gather(rest),
            "knows" => self.know(alloc, rest),
            "holds" => self.hold(alloc, rest),
            "crash" => self.crash(alloc, rest),
            "stands" => self.stand(alloc, rest),
            "none" => self.stand_not(alloc, rest),
            "sure" => self.trials.be_sure(rest),
            _ => self.trials.fail(alloc, word, rest),
        }
    }

    fn begin_run(&mut self, alloc: Global, rest: &str) -> Result<(), Fault> {
        self.run = Some(Run::new(alloc, rest)?);
        Ok(())
    }

    /// Forgets all but whether a run was made.
    fn renew(&mut self, alloc: Global, rest: &str) -> Result<(), Fault> {
        if rest != "store" || self.trials.is_asked {
            return Err(Fault::BadLine);
        }
        let has_run = self.has_run;
        *self = Session::new(alloc)?;
        self.has_run = has_run;
        Ok(())
    }

    fn put_file(&mut self, alloc: Global, rest: &str) -> Result<(), Fault> {
        let (at, text) = pair(rest, " =")?;
        self.files.push((path(alloc, at)?, bytes(alloc, text)?))?;
        Ok(())
    }

    fn put_sealed(&mut self, alloc: Global, rest: &str) -> Result<(), Fault> {
        let (at, text) = pair(rest, " =")?;
        self.files.push((path(alloc, at)?, sealed(alloc, text)?))?;
        Ok(())
    }

    /// Puts the files of the lines above on each disk, all at once: one by one, thousands would take
    /// minutes.
    fn put_files(&mut self, alloc: Global) -> Result<(), Fault> {
        if self.files.is_empty() {
            return Ok(());
        }
        let files = mem::replace(&mut self.files, Vec::new(alloc));
        for disk in &mut self.disks {
            *disk = with_files(disk, alloc, &files)?;
        }
        Ok(())
    }

    fn add(&mut self, alloc: Global, rest: &str) -> Result<(), Fault> {
        let (at, text) = pair(rest, " =")?;
        let path = path(alloc, at)?;
        let more = bytes(alloc, text)?;
        for disk in &mut self.disks {
            let files = longer(alloc, disk, &path, &more)?;
            *disk = with_files(disk, alloc, &files)?;
        }
        Ok(())
    }

    fn undo(&mut self, alloc: Global, rest: &str) -> Result<(), Fault> {
        if !rest.is_empty() || self.before.is_empty() {
            return Err(Fault::BadLine);
        }
        self.disks = mem::replace(&mut self.before, Vec::new(alloc));
        Ok(())
    }

    fn gather(&mut self, rest: &str) -> Result<(), Fault> {
        self.crowd = number(rest)?;
        Ok(())
    }

    fn know(&mut self, alloc: Global, rest: &str) -> Result<(), Fault> {
        self.keys.known = ids(alloc, rest)?;
        Ok(())
    }

    fn hold(&mut self, alloc: Global, rest: &str) -> Result<(), Fault> {
        self.keys.held = ids(alloc, rest)?;
        Ok(())
    }

    fn stand(&mut self, alloc: Global, rest: &str) -> Result<(), Fault> {
        let (at, text) = pair(rest, " =")?;
        let path = path(alloc, at)?;
        let bytes = bytes(alloc, text)?;
        for disk in &self.disks {
            stands(alloc, disk, &path, &bytes)?;
        }
        Ok(())
    }

    fn stand_not(&mut self, alloc: Global, rest: &str) -> Result<(), Fault> {
        let path = path(alloc, rest)?;
        for disk in &self.disks {
            stands_not(alloc, disk, &path)?;
        }
        Ok(())
    }

    /// Reads `everywhere`, `at the end`, or `after CALLS PICK`.
    fn crash(&mut self, alloc: Global, rest: &str) -> Result<(), Fault> {
        match rest {
            "everywhere" => self.crash_everywhere(alloc),
            "at the end" => self.crash_at_end(alloc),
            _ => self.crash_after(rest),
        }
    }

    fn crash_everywhere(&mut self, alloc: Global) -> Result<(), Fault> {
        let mut disks = Vec::new(alloc);
        for disk in &self.disks {
            add_crashes(&mut disks, disk, 0, disk.steps())?;
        }
        self.disks = disks;
        Ok(())
    }

    fn crash_at_end(&mut self, alloc: Global) -> Result<(), Fault> {
        let mut disks = Vec::new(alloc);
        for disk in &self.disks {
            add_crashes(&mut disks, disk, disk.steps(), disk.steps())?;
        }
        self.disks = disks;
        Ok(())
    }

    fn crash_after(&mut self, rest: &str) -> Result<(), Fault> {
        let (_, rest) = sides(rest, "after ")?;
        let (moment, word) = sides(rest, " ")?;
        let moment = number(moment)?;
        let pick = pick(word)?;
        for disk in &mut self.disks {
            *disk = crashed(disk, moment, pick)?;
        }
        Ok(())
    }

    /// Takes a line that belongs to the run that has begun.
    pub(crate) fn take(&mut self, alloc: Global, line: &str) -> Result<(), Fault> {
        match &mut self.run {
            Some(run) => run.take(alloc, line),
            None => Err(Fault::BadLine),
        }
    }

    /// Makes the run that has begun, where there is one.
    pub(crate) fn finish(&mut self, alloc: Global) -> Result<(), Fault> {
        match self.run.take() {
            Some(run) => self.make(alloc, run),
            None => Ok(()),
        }
    }

    /// Makes the run on each disk in each way that is to be tried, and compares.
    fn make(&mut self, alloc: Global, run: Run) -> Result<(), Fault> {
        let mut run = run;
        let mut starts = Vec::new(alloc);
        for disk in &self.disks {
            add_new(&mut starts, begun(disk)?)?;
        }
        let trials = mem::replace(&mut self.trials, Trials::calm(alloc)?);
        let mut disks = Vec::new(alloc);
        for start in &starts {
            self.try_all(alloc, &mut run, start, &trials, &mut disks)?;
        }
        self.before = starts;
        self.disks = disks;
        self.has_run = true;
        run.finish(alloc)
    }

    /// Makes the run on this disk in each way, and adds the disks that it leaves.
    fn try_all(
        &self,
        alloc: Global,
        run: &mut Run,
        start: &MemDisk,
        trials: &Trials,
        disks: &mut Vec<MemDisk>,
    ) -> Result<(), Fault> {
        for trial in &trials.trials {
            let left = self.play(alloc, run, start, trial, trials.is_sure)?;
            run.compare(alloc, start, &left)?;
            disks.push(left.disk)?;
        }
        Ok(())
    }

    fn play(
        &self,
        alloc: Global,
        run: &Run,
        start: &MemDisk,
        trial: &Trial,
        is_sure: bool,
    ) -> Result<Left, Fault> {
        let mut disk = begun(start)?;
        disk.fail_at(trial.disk.clone()?);
        let watched = Watched {
            disk,
            crowd: self.crowd,
            commits: 0,
        };
        if is_sure {
            return play_surely(alloc, run, watched, &self.keys, trial);
        }
        play(alloc, run, watched, &self.keys, trial)
    }

    /// Whether a run was made, and none is still to be tried in a way that a line asked for.
    pub(crate) fn is_done(&self) -> bool {
        self.has_run && !self.trials.is_asked
    }
}
