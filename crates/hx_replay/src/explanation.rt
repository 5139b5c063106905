ghost use Rattle.std.specs.Prelude.{◌≡◌, OnOk, IsErrOf, map};
ghost use Rattle.std.specs.Io.KnownBytes.{Appends};
ghost use Rattle.hx_outside.specs.Count.{Rose};
ghost use Rattle.hx_outside.specs.Prefixes.{AppendsPrefix};
ghost use Rattle.hx_program.specs.Parts.{all_of};
ghost use Rattle.hx_program.specs.Tables.{meaning_of};
ghost use Rattle.hx_replay.specs.Explanation.{ending_text, explanation, reason_of, refusal_text};
ghost use Rattle.hx_replay.specs.Explanation.{told_of, too_large_text, unread_text};

use crate::ending::Ending;
use hx_outside::{Sink, SinkFault};
use hx_program::{CONFIG_CODES, Parts, RECORD_CODES, Row, meaning_of, three_parts, write_parts};
use itoa::Buffer;

/// What is told of a run beside its ending. Contracts see the texts.
#[derive(Clone, Copy)]
pub struct Told<'t> {
    /// the name of the configuration
    pub name: &'t [u8],
    /// where the fault is, as far as that is known: nothing, or words that end in `: `
    pub place: &'t [u8],
    /// what is wrong there, where more is known than the code says; else nothing
    pub reason: &'t [u8],
    /// the name of the file that was read last
    pub file: &'t [u8],
    /// the last regular expression that was too large
    pub large: &'t [u8],
}

impl<'t> Told<'t> {
    /// What is told in these texts, which may have lifetimes of their own.
    pub fn new(
        name: &'t [u8],
        place: &'t [u8],
        reason: &'t [u8],
        file: &'t [u8],
        large: &'t [u8],
    ) -> Told<'t>
        ensures { told_of result ≡ record {
          name = name.now;
          place = place.now;
          reason = reason.now;
          file = file.now;
          large = large.now;
        } }
    {
        Told {
            name,
            place,
            reason,
            file,
            large,
        }
    }
}

/// Writes to `err`, in plain words for a person, why a run of this program ended so. `of_status` is
/// what is said where the exit status says all.
///
/// A refused configuration is explained as `PROGRAM: CONFIG:LINE: PLACE: REASON (CODE NAME)`, a
/// refused record as `PROGRAM: record, byte OFFSET: PLACE: REASON (CODE NAME)`, by the code's row
/// in its table. LINE, OFFSET and CODE are those of the ending. What `told` has of the place and
/// the reason is handed on as it is.
///
/// `Failed` only where the count of faults of `err` rose, and `NoMemory` where memory ran out: a
/// prefix of the text was then written.
pub fn explain<K: Sink>(
    err: &mut K,
    program: &[u8],
    ending: Ending,
    of_status: &[u8],
    told: &Told<'_>,
) -> Result<(), SinkFault>
    ensures ok { OnOk result (Appends (K.written err.old) (K.written err.new)
        (explanation program.now ending of_status.now (told_of told.now))) }
    ensures prefix { AppendsPrefix (K.written err.old) (K.written err.new)
        (explanation program.now ending of_status.now (told_of told.now)) }
    ensures failed { IsErrOf result SinkFault.Failed → Rose (K.faults err.old) (K.faults err.new) }
{
    let (number, code) = ending.numbers();
    let mut of_number = Buffer::new();
    let mut of_code = Buffer::new();
    let number = of_number.format(number).as_bytes();
    let code = of_code.format(code).as_bytes();
    // made anew, so that its texts live as long as the numbers
    let told = Told::new(told.name, told.place, told.reason, told.file, told.large);
    write_parts(
        err,
        &ending_parts(program, ending, of_status, &told, number, code),
    )
}

/// Why a run ended so, where the numbers of its ending are written so.
#[tactic(auto, unfolding(crate::specs::Explanation::ending_text))]
fn ending_parts<'t>(
    program: &'t [u8],
    ending: Ending,
    of_status: &'t [u8],
    told: &Told<'t>,
    number: &'t [u8],
    code: &'t [u8],
) -> Parts<'t>
    ensures { all_of result
        ≡ ending_text program.now ending of_status.now (told_of told.now) number.now code.now }
{
    match ending {
        Ending::ConfigRefused { .. } => {
            refusal(program, told.name, b":", number, told, code, &CONFIG_CODES)
        }
        Ending::RecordRefused { .. } => refusal(
            program,
            b"record",
            b", byte ",
            number,
            told,
            code,
            &RECORD_CODES,
        ),
        Ending::UnreadFile => unread(program, told),
        Ending::TooLarge => too_large(program, told),
        Ending::Other => three_parts(of_status, b"", b""),
    }
}

/// Where in the configuration or the record, and why, it is refused, by the table of codes.
fn refusal<'t>(
    program: &'t [u8],
    subject: &'t [u8],
    separator: &'t [u8],
    number: &'t [u8],
    told: &Told<'t>,
    code: &'t [u8],
    rows: &'static [Row],
) -> Parts<'t>
    ensures { let texts = map (λ row. (row.0.now, row.1.now, row.2.now)) rows.now in
        all_of result ≡ refusal_text program.now subject.now separator.now number.now
        (told_of told.now) code.now (meaning_of texts code.now) }
{
    let (name, reason) = meaning_of(rows, code);
    [
        program,
        b": ",
        subject,
        separator,
        number,
        b": ",
        told.place,
        reason_of(told.reason, reason),
        b" (",
        code,
        b" ",
        name,
        b")\n",
    ]
}

/// The reason that is known; without one, that of the code.
fn reason_of<'t>(known: &'t [u8], of_code: &'t [u8]) -> &'t [u8]
    ensures { result.now ≡ reason_of known.now of_code.now }
{
    if known.is_empty() { of_code } else { known }
}

/// Which file can't be read, and where it is named.
fn unread<'t>(program: &'t [u8], told: &Told<'t>) -> Parts<'t>
    ensures { all_of result ≡ unread_text program.now (told_of told.now) }
{
    [
        program,
        b": ",
        told.place,
        told.file,
        b" can't be read\n",
        b"",
        b"",
        b"",
        b"",
        b"",
        b"",
        b"",
        b"",
    ]
}

/// Which regular expression is too large.
fn too_large<'t>(program: &'t [u8], told: &Told<'t>) -> Parts<'t>
    ensures { all_of result ≡ too_large_text program.now (told_of told.now) }
{
    [
        program,
        b": this regular expression is too large: ",
        told.large,
        b"\n",
        b"",
        b"",
        b"",
        b"",
        b"",
        b"",
        b"",
        b"",
        b"",
    ]
}
