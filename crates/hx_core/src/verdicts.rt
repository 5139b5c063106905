ghost use Rattle.std.specs.Prelude.{◌≡◌, ◌++◌, codes, OnOk};
ghost use Rattle.std.specs.Fmt.{decimal};
ghost use Rattle.hx_core.specs.Answers.{changed_text, head_text, verdict_text};
ghost use Rattle.hx_core.specs.AnswerView.{verdict_without_head};

use hx_http::Message;
use hx_rules::Verdict;
use hx_text::NoMemory;
use itoa::Buffer;

/// Appends the line that answers the request with this number, whose bytes begin with no head;
/// where memory runs out, perhaps the first bytes of it.
pub(crate) fn append_bad(bytes: &mut Vec<u8>, number: u64) -> Result<(), NoMemory>
    ensures { OnOk result (bytes.new.items ≡ bytes.old.items
        ++ (decimal number ++ codes " bad 400\n")) }
{
    let mut digits = Buffer::new();
    bytes.extend_from_slice(digits.format(number).as_bytes())?;
    bytes.extend_from_slice(b" bad 400\n")?;
    Ok(())
}

/// Appends the lines that answer the request with this number, whose head the rules left as it was
/// read; where memory runs out, perhaps the first bytes of them.
pub(crate) fn append_verdict(
    bytes: &mut Vec<u8>,
    number: u64,
    verdict: &Verdict,
) -> Result<(), NoMemory>
    ensures { OnOk result (bytes.new.items ≡ bytes.old.items
        ++ (decimal number ++ verdict_without_head verdict.now)) }
{
    let mut digits = Buffer::new();
    bytes.extend_from_slice(digits.format(number).as_bytes())?;
    append_words(bytes, verdict)
}

/// Appends the lines that answer the request with this number, whose head was read as `read` and
/// which the rules made `made`; where memory runs out, perhaps the first bytes of them.
pub(crate) fn append_answer(
    bytes: &mut Vec<u8>,
    number: u64,
    verdict: &Verdict,
    read: &Message,
    made: &Message,
) -> Result<(), NoMemory>
    ensures { OnOk result (bytes.new.items
        ≡ bytes.old.items
        ++ (decimal number ++ verdict_text verdict.now read.now made.now)) }
{
    append_verdict(bytes, number, verdict)?;
    match verdict {
        Verdict::Pass { .. } => {
            append_changed(bytes, read, made)?;
            Ok(())
        }
        Verdict::Deny { .. } => Ok(()),
        Verdict::Redirect { .. } => Ok(()),
        Verdict::Error => Ok(()),
    }
}

/// Appends what follows the number of a request, without the head.
fn append_words(bytes: &mut Vec<u8>, verdict: &Verdict) -> Result<(), NoMemory>
    ensures { OnOk result (bytes.new.items
        ≡ bytes.old.items ++ verdict_without_head verdict.now) }
{
    match verdict {
        Verdict::Pass { backend: None } => {
            bytes.extend_from_slice(b" pass -\n")?;
            Ok(())
        }
        Verdict::Pass {
            backend: Some(name),
        } => {
            bytes.extend_from_slice(b" pass ")?;
            bytes.extend_from_slice(name.as_slice())?;
            bytes.extend_from_slice(b"\n")?;
            Ok(())
        }
        Verdict::Deny { code } => append_denied(bytes, *code),
        Verdict::Redirect { code, location } => append_redirect(bytes, *code, location.as_slice()),
        Verdict::Error => {
            bytes.extend_from_slice(b" error 500\n")?;
            Ok(())
        }
    }
}

/// Appends that the request is denied, and with which status.
fn append_denied(bytes: &mut Vec<u8>, code: u16) -> Result<(), NoMemory>
    ensures { OnOk result (bytes.new.items
        ≡ bytes.old.items ++ (codes " deny " ++ (decimal code ++ codes "\n"))) }
{
    let mut digits = Buffer::new();
    bytes.extend_from_slice(b" deny ")?;
    bytes.extend_from_slice(digits.format(code).as_bytes())?;
    bytes.extend_from_slice(b"\n")?;
    Ok(())
}

/// Appends where the client is sent, and with which status.
fn append_redirect(bytes: &mut Vec<u8>, code: u16, location: &[u8]) -> Result<(), NoMemory>
    ensures { OnOk result (bytes.new.items ≡ bytes.old.items ++ (codes " redirect "
        ++ (decimal code ++ (codes "\n| location: " ++ (location.now ++ codes "\n"))))) }
{
    let mut digits = Buffer::new();
    bytes.extend_from_slice(b" redirect ")?;
    bytes.extend_from_slice(digits.format(code).as_bytes())?;
    bytes.extend_from_slice(b"\n| location: ")?;
    bytes.extend_from_slice(location)?;
    bytes.extend_from_slice(b"\n")?;
    Ok(())
}

/// Appends the lines of the head that the rules made, where it isn't the one that was read.
fn append_changed(bytes: &mut Vec<u8>, read: &Message, made: &Message) -> Result<(), NoMemory>
    ensures { OnOk result (bytes.new.items ≡ bytes.old.items ++ changed_text read.now made.now) }
{
    if read.same(made) {
        return Ok(());
    }
    append_head(bytes, made)
}

/// Appends the lines of a head. What stands between two lines is written in one piece.
fn append_head(bytes: &mut Vec<u8>, head: &Message) -> Result<(), NoMemory>
    ensures { OnOk result (bytes.new.items ≡ bytes.old.items ++ head_text head.now) }
{
    bytes.extend_from_slice(b"| ")?;
    head.append_lines(b"\n| ", bytes)?;
    bytes.extend_from_slice(b"\n")?;
    Ok(())
}
