ghost use Rattle.std.specs.Prelude.{◌≡◌, OnOk, IsErrOf, Some, map};
ghost use Rattle.std.specs.Io.KnownBytes.{Appends};
ghost use Rattle.hx_outside.specs.Count.{Rose};
ghost use Rattle.hx_outside.specs.Prefixes.{AppendsPrefix};
ghost use Rattle.hx_program.specs.Machine.{texts_of};
ghost use Rattle.hx_replay.specs.Explanation.{told_of};
ghost use Rattle.hx_diff.specs.Command.{asked_of};
ghost use Rattle.hx_diff.specs.Explanation.{ending_of, explanation, fault_ending, given_name, name_on};

use crate::command::{Command, command_of};
use crate::run::Ended;
use crate::run_fault::{RunFault, Side};
use hx_outside::{Sink, SinkFault};
use hx_program::text_of_status;
use hx_replay::{Ending, Told};

/// What the program takes, and how it ends.
pub const USAGE: &[u8] = b"usage: hxdiff lines [--why] OLD NEW\n\
    \x20      hxdiff counts OLD NEW\n\
    \x20      hxdiff --help\n\
    \x20      hxdiff --version\n\
    \n\
    Both replay the record on standard input through the rules of the files OLD and NEW. lines\n\
    writes where their answers differ: for each such request its number, method, target and host,\n\
    for each such management command the command, and then both answers; with --why, after each\n\
    answer to a request, the line of the rule that decided it, and why its condition held. counts\n\
    writes how many requests have which two verdicts. At the end both write how many requests and\n\
    commands there were, and how many of them differ.\n\
    \n\
    Exit status: 0 nothing differs, 1 something differs, 2 wrong words, 3 a configuration\n\
    refused, 4 record refused, 5 a file or the record can't be read, 6 a difference can't be\n\
    written, 7 out of memory, 8 a regular expression is too large.\n";

/// What is said of a run where its status says all: of 5, where it is no file that can't be read.
const STATUS_TEXTS: [(u8, &[u8]); 6] = [
    (0, b""),
    (1, b""),
    (2, USAGE),
    (5, b"hxdiff: the record can't be read from standard input\n"),
    (
        6,
        b"hxdiff: the differences can't be written to standard output\n",
    ),
    (7, b"hxdiff: out of memory\n"),
];

/// What is said of any other status.
const UNKNOWN_STATUS: &[u8] = b"hxdiff: ended with an unknown status\n";

/// Writes to `err`, in plain words for a person, why a run ended so; of a run without a fault and
/// with status 0 or 1, nothing.
///
/// A refused configuration is explained as `hxdiff: NAME:LINE: PLACE: REASON (CODE NAME)`, a
/// refused record as `hxdiff: record, byte OFFSET: PLACE: REASON (CODE NAME)`, by the code's row in
/// its table. LINE, OFFSET and CODE are those of the fault. What `told` has of the place and the
/// reason is handed on as it is.
///
/// `Failed` only where the count of faults of `err` rose, and `NoMemory` where memory ran out: a
/// prefix of the text was then written.
pub fn explain<K: Sink>(err: &mut K, ended: Ended, told: &Told<'_>) -> Result<(), SinkFault>
    ensures ok { OnOk result (Appends (K.written err.old) (K.written err.new)
        (explanation ended.status ended.fault (told_of told.now))) }
    ensures prefix { AppendsPrefix (K.written err.old) (K.written err.new)
        (explanation ended.status ended.fault (told_of told.now)) }
    ensures failed { IsErrOf result SinkFault.Failed → Rose (K.faults err.old) (K.faults err.new) }
{
    let of_status = text_of_status(&STATUS_TEXTS, ended.status, UNKNOWN_STATUS);
    hx_replay::explain(err, b"hxdiff", ending_of(ended), of_status, told)
}

/// How a run ended, as it is told.
pub(crate) fn ending_of(ended: Ended) -> Ending
    ensures { result ≡ ending_of ended.status ended.fault }
{
    match ended.fault {
        Some(fault) => ending_with(ended.status, fault),
        None => Ending::Other,
    }
}

/// The same of a run that this fault ended.
fn ending_with(status: u8, fault: RunFault) -> Ending
    ensures { result ≡ ending_of status (Some fault) }
{
    if status == fault.status() {
        fault_ending(fault)
    } else {
        Ending::Other
    }
}

/// What is told of a fault, where the status is its own.
fn fault_ending(fault: RunFault) -> Ending
    ensures { result ≡ fault_ending fault }
{
    match fault {
        RunFault::ConfigRefused { line, code, .. } => Ending::ConfigRefused { line, code },
        RunFault::RecordRefused { offset, code } => Ending::RecordRefused { offset, code },
        RunFault::Files => Ending::UnreadFile,
        RunFault::TooLarge => Ending::TooLarge,
        RunFault::Source => Ending::Other,
        RunFault::Sink => Ending::Other,
        RunFault::NoMemory => Ending::Other,
    }
}

/// The name of one of the configurations that a command line gives, or words for one.
pub(crate) fn given_name(side: Side, words: &[Vec<u8>]) -> &[u8]
    ensures { result.now ≡ given_name side (texts_of words.now) }
{
    match command_of(words) {
        Some(command) => name_on(side, command),
        None => b"the configuration",
    }
}

/// The name of one of the configurations of a command.
fn name_on(side: Side, command: Command<'_>) -> &[u8]
    ensures { result.now ≡ name_on side (asked_of command.entry) }
{
    match side {
        Side::Old => command.old_name,
        Side::New => command.new_name,
    }
}
