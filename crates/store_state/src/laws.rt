//! What the files of a store stand for, and what its opening means.

ghost use Rattle.std.specs.Prelude.{◌≡◌, ◌↔◌, Contains, Err};
ghost use Rattle.gopass_base.specs.Text.{Text};
ghost use Rattle.mount_table.specs.Names.{IsName};
ghost use Rattle.disk_model.specs.Files.{Files};
ghost use Rattle.disk_model.specs.Listing.{IsThere};
ghost use Rattle.cipher_port.specs.Tool.{Opens};
ghost use Rattle.mount_table.specs.Mounts.{IsTable};
ghost use Rattle.store_state.specs.Agrees.{Agrees};
ghost use Rattle.store_state.specs.Places.{secret_path};
ghost use Rattle.store_state.specs.State.{State, StandsFor};
ghost use Rattle.store_state.specs.Faults.{IsFileFault};
ghost use Rattle.store_state.specs.Opening.{IsFound, OpensStore};
ghost use Rattle.store_state.specs.declared.fault.StoreFault.{StoreFault};
ghost use Rattle.store_state.specs.declared.opening.Found.{Found};

/// The files stand for one state at most: it is determined by them.
pub fn one_state()
    ensures { (opens : Opens) (root : Text) (files : Files) (a b : State) → StandsFor opens root files a → StandsFor opens root files b → a ≡ b }
{}

/// Files that stand for a state are those of a store that opens: no opening refuses them for a
/// reason of the files.
pub fn states_open()
    ensures { (opens : Opens) (root : Text) (files : Files) (state : State) → StandsFor opens root files state → (fault : StoreFault) → OpensStore root files (Err fault) → IsFileFault fault → ⊥ }
{}

/// The names that an opening finds are just those of the secrets whose files are there.
pub fn names_of_secrets()
    ensures { (root : Text) (files : Files) (found : Found) → IsFound root files found
        → (name : Text) → Contains found.seen.names.items name ↔ (IsName name × IsThere files (secret_path found.mounts name)) }
{}

/// The files of a store that opens stand for a state, whatever the tool opens, and what the opening
/// found is what that state has.
pub fn state_of_store()
    ensures { (opens : Opens) (root : Text) (files : Files) (found : Found) → IsFound root files found
        → (state : State) × StandsFor opens root files state × Agrees state found }
{}

/// What a state has for which the files stand is what an opening finds of them.
pub fn found_of_state()
    ensures { (opens : Opens) (root : Text) (files : Files) (state : State) → StandsFor opens root files state → IsTable root state.mounts
        → (found : Found) → Agrees state found → IsFound root files found }
{}
