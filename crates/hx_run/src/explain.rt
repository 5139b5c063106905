ghost use Rattle.std.specs.Prelude.{◌≡◌, OnOk, IsErrOf, Some};
ghost use Rattle.std.specs.Io.KnownBytes.{Appends};
ghost use Rattle.hx_outside.specs.Count.{Rose};
ghost use Rattle.hx_outside.specs.Prefixes.{AppendsPrefix};
ghost use Rattle.hx_program.specs.Machine.{texts_of};
ghost use Rattle.hx_replay.specs.Explanation.{told_of};
ghost use Rattle.hx_run.specs.Explanation.{ending_of, explanation, fault_ending, given_name};

use crate::command::command_of;
use crate::run_command::Ended;
use crate::run_fault::RunFault;
use hx_outside::{Sink, SinkFault};
use hx_program::text_of_status;
use hx_replay::{Ending, Told};

/// What the program takes, and how it ends.
pub const USAGE: &[u8] = b"usage: hxeval run CONFIG\n\
    \x20      hxeval check CONFIG\n\
    \x20      hxeval gen N\n\
    \x20      hxeval --help\n\
    \x20      hxeval --version\n\
    \n\
    run replays the record on standard input through the rules of the file CONFIG. It\n\
    writes for each request its verdict, its head where the rules change it, and where it\n\
    is redirected to; and for each management command its reply. check only judges CONFIG,\n\
    and writes ok, the number of its rules, and that of its files and lists of patterns.\n\
    gen makes an input of N requests, from 1 to 200000, answers it as run does, and writes\n\
    how many events it has, how many requests pass and how many are denied, and the SHA-256\n\
    of the answers.\n\
    \n\
    Exit status: 0 done, 2 wrong words, 3 configuration refused, 4 record refused,\n\
    5 a file or the record can't be read, 6 an answer can't be written, 7 out of memory,\n\
    8 a regular expression is too large.\n";

/// What is said of a run where its status says all: of 5, where it is no file that can't be read.
const STATUS_TEXTS: [(u8, &[u8]); 5] = [
    (0, b""),
    (2, USAGE),
    (5, b"hxeval: the record can't be read from standard input\n"),
    (
        6,
        b"hxeval: the answers can't be written to standard output\n",
    ),
    (7, b"hxeval: out of memory\n"),
];

/// What is said of any other status.
const UNKNOWN_STATUS: &[u8] = b"hxeval: ended with an unknown status\n";

/// Writes to `err`, in plain words for a person, why a run ended so; of a run without a fault and
/// with status 0, nothing.
///
/// A refused configuration is explained as `hxeval: CONFIG:LINE: PLACE: REASON (CODE NAME)`, a
/// refused record as `hxeval: record, byte OFFSET: PLACE: REASON (CODE NAME)`, by the code's row in
/// its table. LINE, OFFSET and CODE are those of the fault. What `told` has of the place and the
/// reason is handed on as it is.
///
/// `Failed` only where the count of faults of `err` rose, and `NoMemory` where memory ran out: a
/// prefix of the text was then written.
pub fn explain<K: Sink>(err: &mut K, ended: Ended, told: &Told<'_>) -> Result<(), SinkFault>
    ensures ok { OnOk result (Appends (K.written err.old) (K.written err.new)
        (explanation ended.status ended.fault (told_of told.now))) }
    ensures prefix { AppendsPrefix (K.written err.old) (K.written err.new)
        (explanation ended.status ended.fault (told_of told.now)) }
    ensures failed { IsErrOf result SinkFault.Failed → Rose (K.faults err.old) (K.faults err.new) }
{
    let of_status = text_of_status(&STATUS_TEXTS, ended.status, UNKNOWN_STATUS);
    hx_replay::explain(err, b"hxeval", ending_of(ended), of_status, told)
}

/// How a run ended, as it is told: by its fault, where the status is the fault's.
pub fn ending_of(ended: Ended) -> Ending
    ensures { result ≡ ending_of ended.status ended.fault }
{
    match ended.fault {
        Some(fault) => ending_with(ended.status, fault),
        None => Ending::Other,
    }
}

/// The same of a run that this fault ended.
fn ending_with(status: u8, fault: RunFault) -> Ending
    ensures { result ≡ ending_of status (Some fault) }
{
    if status == fault.status() {
        fault_ending(fault)
    } else {
        Ending::Other
    }
}

/// What is told of a fault, where the status is its own.
fn fault_ending(fault: RunFault) -> Ending
    ensures { result ≡ fault_ending fault }
{
    match fault {
        RunFault::ConfigRefused { line, code } => Ending::ConfigRefused { line, code },
        RunFault::RecordRefused { offset, code } => Ending::RecordRefused { offset, code },
        RunFault::Files => Ending::UnreadFile,
        RunFault::TooLarge => Ending::TooLarge,
        RunFault::Source => Ending::Other,
        RunFault::Sink => Ending::Other,
        RunFault::NoMemory => Ending::Other,
    }
}

/// The name of the configuration that a command line gives, or words for one.
pub(crate) fn given_name(words: &[Vec<u8>]) -> &[u8]
    ensures { result.now ≡ given_name (texts_of words.now) }
{
    match command_of(words) {
        Some(command) => command.name,
        None => b"the configuration",
    }
}
