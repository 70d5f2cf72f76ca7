//! What is printed of an answer.

ghost use Rattle.std.specs.Prelude.{◌≡◌, ◌≢◌, ◌≤◌};
ghost use Rattle.gopass_cli.specs.Replies.{said_in};
ghost use Rattle.gopass_cli.specs.Statuses.{code};
ghost use Rattle.gopass_cli.specs.Printed.{Prints, printed, stream_of};

use crate::reply::Reply;
use crate::status::Status;
use io_ports::{Sink, put_all};

/// The bytes for standard error. Want of memory has a fixed line, which needs none.
fn err_bytes(reply: &Reply) -> &[u8]
    ensures { result.now ≡ (printed (said_in reply.now)).err }
{
    if reply.status == Status::NoMemory.code() {
        b"gopass: out of memory\n"
    } else {
        &reply.err
    }
}

/// Puts the answer, first its bytes for standard output, and answers the status: that of a
/// sink where a call of one failed.
pub(crate) fn print<O: Sink, E: Sink>(reply: &Reply, out: &mut O, err: &mut E) -> u8
    ensures printed { Prints (printed (said_in reply.now)) result
        (stream_of O.meaning out.old) (stream_of O.meaning out.new)
        (stream_of E.meaning err.old) (stream_of E.meaning err.new) }
    ensures out_later { O.meaning.faults out.old ≤ O.meaning.faults out.new }
    ensures err_later { E.meaning.faults err.old ≤ E.meaning.faults err.new }
    ensures out_stays { result ≢ code Status.SinkFailed → O.meaning.faults out.new ≡ O.meaning.faults out.old }
    ensures err_stays { result ≢ code Status.SinkFailed → E.meaning.faults err.new ≡ E.meaning.faults err.old }
{
    if put_all(out, &reply.out).is_err() {
        return Status::SinkFailed.code();
    }
    if put_all(err, err_bytes(reply)).is_err() {
        return Status::SinkFailed.code();
    }
    reply.status
}
