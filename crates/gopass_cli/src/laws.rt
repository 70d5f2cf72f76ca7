//! What runs after one another leave.

ghost use Rattle.std.specs.Prelude.{◌≡◌, ◌≢◌, ℕ, List, Option, None};
ghost use Rattle.gopass_base.specs.Text.{Text};
ghost use Rattle.cipher_port.specs.Tool.{Opens, Ring};
ghost use Rattle.store_state.specs.State.{State};
ghost use Rattle.store_core.specs.Steps.{states_of};
ghost use Rattle.store_core.specs.Events.{Events};
ghost use Rattle.store_core.specs.Kept.{IsKept, AreAllKept};
ghost use Rattle.disk_model.specs.Files.{Files};
ghost use Rattle.pending_journal.specs.Redo.{RecoversTo};
ghost use Rattle.store_core.specs.Elsewhere.{IsSameElsewhere};
ghost use Rattle.gopass_cli.specs.History.{History, changes_of, first_disk};
ghost use Rattle.gopass_cli.specs.Plan.{plan_of};
ghost use Rattle.request_body.specs.Bodies.{Input};
ghost use Rattle.store_core.specs.Moment.{Faults};
ghost use Rattle.gopass_cli.specs.Safe.{StandsForOne, Went};
ghost use Rattle.gopass_cli.specs.Statuses.{code};
ghost use Rattle.gopass_cli.specs.declared.status.Status.TheVariants.{DiskFailed, NoMemory, SinkFailed};

use command_words::Command;
use disk_model::Disk;
use mount_table::DirPath;

/// A command keeps each secret made for exactly the ids that govern it, in each state that it passes.
pub fn commands_keep(command: &Command)
    ensures { (ring : Ring) (body : Option Text) (state : State) (events : Events) → IsKept state → AreAllKept (states_of (plan_of ring command.now body state events).steps) }
{}

/// A run that went through the plan of its command went through all of it, where its status tells no
/// fault of the disk or of a sink and no want of memory.
pub fn ended_runs_are_whole<D: Disk>(root: &DirPath, command: &Command)
    ensures { (opens : Opens) (ring : Ring) (input : Input) (before : List State) (old new : D) (faults now_faults : Faults) (status : ℕ)
        → (went : Went opens root.now ring command.now input before (D.meaning.view old) (D.meaning.view new) faults now_faults status)
        → status ≢ code DiskFailed → status ≢ code NoMemory → status ≢ code SinkFailed → went.stop ≡ None }
{}

/// Runs after one another keep the crash promise, each on the disk that the last one handed back or
/// on what a crash of it left: what a crash now would leave stands for one of the states that may be
/// found, and in each of these each secret is made for exactly the ids that govern it, where it was
/// so at first. Each file that no plan may change is as it was at first, byte for byte.
pub fn histories_are_safe<D: Disk>(root: &DirPath)
    ensures stands { D.meaning.tells → (opens : Opens) (first states : List State) (disk : D)
        → History D.meaning opens root.now first states disk → StandsForOne opens root.now states (D.meaning.view disk) }
    ensures kept { (opens : Opens) (first states : List State) (disk : D)
        → History D.meaning opens root.now first states disk → AreAllKept first → AreAllKept states }
    ensures others { D.meaning.tells → (opens : Opens) (first states : List State) (disk : D) (past : History D.meaning opens root.now first states disk) (files : Files)
        → ((m : Files) → (D.meaning.view (first_disk D.meaning opens root.now first states disk past)).images m → RecoversTo root.now m files)
        → (m : Files) → (D.meaning.view disk).images m → IsSameElsewhere root.now (changes_of D.meaning opens root.now first states disk past) files m }
{}
