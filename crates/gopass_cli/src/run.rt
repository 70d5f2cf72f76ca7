//! A run of the program.

ghost use Rattle.std.specs.Prelude.{◌≡◌, ◌≤◌, map, string_bytes, vec_len};
ghost use Rattle.cipher_port.specs.Tool.{Ring};
ghost use Rattle.store_core.specs.Moment.{HaveRing};
ghost use Rattle.gopass_cli.specs.Safe.{KeptOrOpens};
ghost use Rattle.gopass_cli.specs.Ran.{AsksOnly, Ran, RanCalmly, RanSafely, RanWithCauses, meanings, outside};

use crate::answers::{Answered, answer};
use crate::printing::print;
use cipher_port::Cipher;
use disk_model::Disk;
use io_ports::{Sink, Source};
use mount_table::DirPath;
use std::alloc::Global;

/// The status of a run, and the disk that it was given.
pub struct Ended<D> {
    pub status: u8,
    pub disk: D,
}

/// Does what the words ask for in the store whose root directory is `root`, and writes the answer to
/// `out` and `err`.
///
/// The words are `show NAME`, `insert [-f] [-m] NAME`, `ls [--flat] [FOLDER]`, `find TEXT`, `mounts` or
/// `recipients` as yet. The body of `insert` is one line of the input, or all of it with `-m`. The
/// status is
///
/// - 0 where the command is done, and 1 where `find` has no hit;
/// - 2 for bad words, a bad name, or a body that is missing;
/// - 3 for a secret or a folder that is not there, and 4 for a secret that is there and is not to be
///   written over, which `-f` allows;
/// - 6 where a pending file is there, or the journal, the mounts file or a rule file does not read;
/// - 7 where no rule governs the secret, 8 where the file is not sealed or no key is held, 9 where the
///   tool does not know a recipient, and 10 where a limit is passed;
/// - 11 where the tool failed, 12 where the disk failed, 14 for want of memory, 15 where the input
///   failed or is too long, and 16 where a sink failed.
///
/// There are 1 to 16 tools, and where they tell their rings these are equal.
pub fn gopass<D: Disk + Send, C: Cipher + Send, S: Source, O: Sink, E: Sink>(
    alloc: Global,
    words: &[String],
    root: &DirPath,
    disk: D,
    tools: &mut Vec<C>,
    input: &mut S,
    out: &mut O,
    err: &mut E,
) -> Ended<D>
    requires some { 1 ≤ vec_len tools.old }
    requires few { vec_len tools.old ≤ 16 }
    requires rings { C.meaning.tells → (ring : Ring) × HaveRing C.meaning tools.old.items ring }

    // Where disk and tools tell, the run says what is defined for what happened, and prints it.
    // Where nothing failed, it says what is defined where nothing fails, and prints all of it.
    ensures ran { Ran (meanings D.meaning C.meaning S.meaning O.meaning E.meaning) (map string_bytes words.now) root.now
        (outside disk tools.old.items input.old out.old err.old)
        (outside result.disk tools.new.items input.new out.new err.new) result.status }
    ensures complete { RanCalmly (meanings D.meaning C.meaning S.meaning O.meaning E.meaning) (map string_bytes words.now) root.now
        (outside disk tools.old.items input.old out.old err.old)
        (outside result.disk tools.new.items input.new out.new err.new) result.status }

    // The crash promise, where disk and tools tell: what a crash leaves at any moment of the run, its
    // opening included, stands for a state before or for one that the plan of the command passes
    // through, and at the end of one that begins a command for the last one, where the status tells
    // no fault of the disk or of a sink and no want of memory. A run that begins none says so by its status. Each file that the plan may not
    // change stays as it is, byte for byte; so does each file of a store that does not open.
    ensures safe { RanSafely (meanings D.meaning C.meaning S.meaning O.meaning E.meaning) (map string_bytes words.now) root.now
        (outside disk tools.old.items input.old out.old err.old)
        (outside result.disk tools.new.items input.new out.new err.new) result.status }
    ensures kept { D.meaning.tells → KeptOrOpens root.now (D.meaning.view disk) (D.meaning.view result.disk) }

    // Told or not: bad words ask nobody, tools are called no more often than the command may, and a
    // command without a body leaves the input. The rings and the number of tools stay.
    ensures asks { AsksOnly (meanings D.meaning C.meaning S.meaning O.meaning E.meaning) (map string_bytes words.now)
        (outside disk tools.old.items input.old out.old err.old)
        (outside result.disk tools.new.items input.new out.new err.new) }
    ensures rings { (ring : Ring) → HaveRing C.meaning tools.old.items ring → HaveRing C.meaning tools.new.items ring }
    ensures count { vec_len tools.new ≡ vec_len tools.old }

    // Told or not, a fault of the outside is answered only where its count rose, and a count rose with
    // its status alone; that of a sink is told in place of any other. That the input failed is said only where its count rose.
    ensures causes { RanWithCauses (meanings D.meaning C.meaning S.meaning O.meaning E.meaning)
        (outside disk tools.old.items input.old out.old err.old)
        (outside result.disk tools.new.items input.new out.new err.new) result.status }
{
    let Answered { reply, disk } = answer(alloc, words, root, disk, tools, input);
    let status = print(&reply, out, err);
    Ended { status, disk }
}
