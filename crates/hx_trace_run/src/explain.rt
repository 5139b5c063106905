ghost use Rattle.std.specs.Prelude.{◌≡◌, OnOk, IsErrOf};
ghost use Rattle.std.specs.Io.KnownBytes.{Appends};
ghost use Rattle.hx_outside.specs.Count.{Rose};
ghost use Rattle.hx_outside.specs.Prefixes.{AppendsPrefix};
ghost use Rattle.hx_program.specs.Machine.{texts_of};
ghost use Rattle.hx_replay.specs.Explanation.{told_of};
ghost use Rattle.hx_trace_run.specs.Explanation.{explanation, given_name};

use crate::command::{TraceCommand, command_of};
use hx_outside::{Sink, SinkFault};
use hx_program::text_of_status;
use hx_replay::Told;
use hx_run::Ended;
use hx_run::explain::ending_of;

/// What the program takes, and how it ends.
pub const USAGE: &[u8] = b"usage: hxtrace trace CONFIG\n\
    \x20      hxtrace check CONFIG TRACE\n\
    \x20      hxtrace --help\n\
    \x20      hxtrace --version\n\
    \n\
    trace replays the record on standard input through the rules of the file CONFIG, and writes\n\
    what hxeval run does. After the lines of each request it writes a line that says why it has\n\
    its verdict: `>`, the line of the statement that decided it, or 0; which part between `or` of\n\
    its condition holds, from 1, or 0; and by what each term of that part does: `not`, `true`, or\n\
    `#ID/NUMBER` for an entry that hits.\n\
    check compares the file TRACE with what trace writes of the record, by scans of lists. It\n\
    writes ok, or differs and the number of the first line of TRACE that isn't the text's.\n\
    \n\
    Exit status: 0 done, 2 wrong words, 3 configuration refused, 4 record refused,\n\
    5 a file or the record can't be read, 6 an answer can't be written, 7 out of memory,\n\
    8 a regular expression is too large, 9 the trace differs.\n";

/// What is said of a run where its status says all: of 5, where it is no file that can't be read.
const STATUS_TEXTS: [(u8, &[u8]); 6] = [
    (0, b""),
    (2, USAGE),
    (
        5,
        b"hxtrace: the record can't be read from standard input\n",
    ),
    (
        6,
        b"hxtrace: the answers can't be written to standard output\n",
    ),
    (7, b"hxtrace: out of memory\n"),
    (
        9,
        b"hxtrace: the trace isn't what trace writes of this configuration and record\n",
    ),
];

/// What is said of any other status.
const UNKNOWN_STATUS: &[u8] = b"hxtrace: ended with an unknown status\n";

/// Writes to `err`, in plain words for a person, why a run ended so; of a run without a fault and
/// with status 0, nothing.
///
/// A refused configuration is explained as `hxtrace: CONFIG:LINE: PLACE: REASON (CODE NAME)`, a
/// refused record as `hxtrace: record, byte OFFSET: PLACE: REASON (CODE NAME)`, by the code's row
/// in its table. LINE, OFFSET and CODE are those of the fault. What `told` has of the place and the
/// reason is handed on as it is.
///
/// `Failed` only where the count of faults of `err` rose, and `NoMemory` where memory ran out: a
/// prefix of the text was then written.
pub fn explain<K: Sink>(err: &mut K, ended: Ended, told: &Told<'_>) -> Result<(), SinkFault>
    ensures ok { OnOk result (Appends (K.written err.old) (K.written err.new)
        (explanation ended.status ended.fault (told_of told.now))) }
    ensures prefix { AppendsPrefix (K.written err.old) (K.written err.new)
        (explanation ended.status ended.fault (told_of told.now)) }
    ensures failed { IsErrOf result SinkFault.Failed → Rose (K.faults err.old) (K.faults err.new) }
{
    let of_status = text_of_status(&STATUS_TEXTS, ended.status, UNKNOWN_STATUS);
    hx_replay::explain(err, b"hxtrace", ending_of(ended), of_status, told)
}

/// The name of the configuration that a command line gives, or words for one.
pub(crate) fn given_name(words: &[Vec<u8>]) -> &[u8]
    ensures { result.now ≡ given_name (texts_of words.now) }
{
    match command_of(words) {
        Some(TraceCommand::Trace(command)) => command.name,
        Some(TraceCommand::Check { config, .. }) => config,
        None => b"the configuration",
    }
}
