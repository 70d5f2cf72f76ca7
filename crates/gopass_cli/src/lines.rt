//! The lines that tell faults of the outside. They are made before it is asked, so that no fault is told
//! as want of memory.

ghost use Rattle.std.specs.Prelude.{◌≡◌, ◌⊎◌, codes, IfErr, IfOk, Err, Ok};
ghost use Rattle.store_core.specs.Plans.{Refused};
ghost use Rattle.store_core.specs.declared.refusal.Refusal.TheVariants as refusal;
ghost use Rattle.gopass_cli.specs.Actions.{action_of, subject};
ghost use Rattle.gopass_cli.specs.Outcomes.{IsInner, meant};
ghost use Rattle.gopass_cli.specs.Texts.{err_line, tool_failed};

use crate::action::Action;
use crate::outcome::{Outcome, no_memory};
use crate::texts;
use command_words::Command;
use gopass_base::NoMemory;
use std::alloc::Global;

/// The line of a fault of the disk.
#[derive(Debug, Drop)]
pub(crate) struct DiskLine {
    pub(crate) line: Vec<u8>,
    ghost says: { line.items ≡ err_line (codes "the disk failed") },
}

impl DiskLine {
    pub(crate) fn new(alloc: Global) -> Result<DiskLine, NoMemory> {
        Ok(DiskLine {
            line: texts::err_line(alloc, "the disk failed")?,
        })
    }
}

/// The line of an input that failed, and that of one that is over its limit.
#[derive(Debug, Drop)]
pub(crate) struct InputLines {
    pub(crate) failed: Vec<u8>,
    pub(crate) long: Vec<u8>,
    ghost says_failed: { failed.items ≡ err_line (codes "the input failed") },
    ghost says_long: { long.items ≡ err_line (codes "the input is over 16777216 bytes") },
}

impl InputLines {
    pub(crate) fn new(alloc: Global) -> Result<InputLines, NoMemory> {
        Ok(InputLines {
            failed: texts::err_line(alloc, "the input failed")?,
            long: texts::err_line(alloc, "the input is over 16777216 bytes")?,
        })
    }
}

/// The lines of a run.
#[derive(Debug, Drop)]
pub(crate) struct RunLines {
    pub(crate) disk: DiskLine,
    pub(crate) input: InputLines,
}

impl RunLines {
    pub(crate) fn new(alloc: Global) -> Result<RunLines, NoMemory> {
        Ok(RunLines {
            disk: DiskLine::new(alloc)?,
            input: InputLines::new(alloc)?,
        })
    }
}

/// An action, and the lines of the faults that it may meet.
#[derive(Debug, Drop)]
pub(crate) struct TurnLines {
    pub(crate) action: Action,
    pub(crate) disk: DiskLine,
    pub(crate) tool: Vec<u8>,
    ghost says: { tool.items ≡ err_line (tool_failed (subject action)) },
}

impl TurnLines {
    fn new(alloc: Global, action: Action) -> Result<TurnLines, NoMemory>
        ensures { IfOk result (λ lines. lines.action ≡ action) }
    {
        let disk = DiskLine::new(alloc)?;
        let tool = texts::tool_line(alloc, action.subject())?;
        Ok(TurnLines { action, disk, tool })
    }

    /// The action of the command, with its lines.
    pub(crate) fn read(alloc: Global, command: &Command) -> Result<TurnLines, Outcome>
        ensures good { IfOk result (λ lines. action_of command.now ≡ Ok lines.action) }
        ensures bad { IfErr result (λ outcome. (meant outcome ≡ Refused refusal.NoMemory) ⊎ (action_of command.now ≡ Err (meant outcome))) }
        ensures own { IfErr result (λ outcome. IsInner (meant outcome)) }
    {
        let action = Action::read(alloc, command)?;
        match TurnLines::new(alloc, action) {
            Ok(lines) => Ok(lines),
            Err(_) => Err(no_memory()),
        }
    }
}
