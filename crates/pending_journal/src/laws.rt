//! What a vault's files stand for.

ghost use Rattle.std.specs.Prelude.{◌≡◌, ◌⊎◌};
ghost use Rattle.disk_model.specs.Files.{Files};
ghost use Rattle.pending_journal.specs.Journal.{JournalPlan, IsJournalPlan, journal_text};
ghost use Rattle.pending_journal.specs.Redo.{RecoversTo, IsBeforeOrAfter};
ghost use Rattle.pending_journal.specs.Faults.{HasBadJournal};

use gopass_base::DirPath;

/// No two plans have one text, so files stand for one state of the files at most.
pub fn one_meaning(root: &DirPath)
    ensures plans { (a b : JournalPlan) → IsJournalPlan root.now a → IsJournalPlan root.now b → journal_text a ≡ journal_text b → a ≡ b }
    ensures files { (files first second : Files) → RecoversTo root.now files first → RecoversTo root.now files second → first ≡ second }
{}

/// What a crash of a commit leaves is opened, and is then the files before or those after: such files
/// have no journal that does not read, and stand for nothing else.
pub fn crashes_are_mended(root: &DirPath)
    ensures reads { (files now : Files) → RecoversTo root.now files now → ¬ HasBadJournal root.now files }
    ensures mended { (files before after now : Files) → IsBeforeOrAfter root.now before after files → RecoversTo root.now files now → (now ≡ before) ⊎ (now ≡ after) }
{}
