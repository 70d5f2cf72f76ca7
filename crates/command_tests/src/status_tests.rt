//! The numbers of statuses: no transcript, since no run gives some of them.

use gopass_cli::Status;
use std::test::*;

/// Each status, and the number by which a process tells it.
const NUMBERS: &[(Status, u8)] = &[
    (Status::Done, 0),
    (Status::NoHit, 1),
    (Status::BadWords, 2),
    (Status::NotThere, 3),
    (Status::IsThere, 4),
    (Status::BadFile, 6),
    (Status::NoRule, 7),
    (Status::NotOpened, 8),
    (Status::UnknownId, 9),
    (Status::LimitPassed, 10),
    (Status::ToolFailed, 11),
    (Status::DiskFailed, 12),
    (Status::NoMemory, 14),
    (Status::InputFailed, 15),
    (Status::SinkFailed, 16),
];

#[test]
fn each_status_has_its_number(rt: HostRuntime) -> Result<(), Fail> {
    for (status, number) in NUMBERS {
        assert_eq!(rt; status.code(), *number, "{status:?}");
    }
    Ok(())
}
