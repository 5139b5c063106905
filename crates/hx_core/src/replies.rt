ghost use Rattle.std.specs.Prelude.{◌≡◌, ◌≢◌, [], ◌++◌, codes, slice_get, OnOk};
ghost use Rattle.std.specs.Fmt.{decimal};
ghost use Rattle.std.specs.List.{flat_map};
ghost use Rattle.std.specs.Option.{option_map_or};
ghost use Rattle.hx_core.specs.Answers.{refusal_name, reply_end, reply_text, told_line};

use hx_cli::Reply;
use hx_text::NoMemory;
use itoa::Buffer;

/// Appends the lines of a reply to a session, if there is one; where memory runs out, perhaps the
/// first bytes of them.
pub(crate) fn append_reply(
    bytes: &mut Vec<u8>,
    session: u32,
    reply: &Option<Reply>,
) -> Result<(), NoMemory>
    ensures { OnOk result (bytes.new.items ≡ bytes.old.items
        ++ option_map_or (reply_text session) reply.now []) }
{
    match reply {
        Some(reply) => append_given(bytes, session, reply),
        None => Ok(()),
    }
}

/// Appends the lines of a reply.
fn append_given(bytes: &mut Vec<u8>, session: u32, reply: &Reply) -> Result<(), NoMemory>
    ensures { OnOk result (bytes.new.items ≡ bytes.old.items ++ reply_text session reply.now) }
{
    append_lines(bytes, session, reply)?;
    append_end(bytes, session, reply.code)
}

/// Appends the lines of a reply but the last.
fn append_lines(bytes: &mut Vec<u8>, session: u32, reply: &Reply) -> Result<(), NoMemory>
    ensures { OnOk result (bytes.new.items
        ≡ bytes.old.items ++ flat_map (told_line session) reply.now.lines) }
{
    for at in 0..reply.len() {
        append_line(bytes, session, reply, at)?;
    }
    Ok(())
}

/// Appends the line of a reply at a position, if there is one.
fn append_line(bytes: &mut Vec<u8>, session: u32, reply: &Reply, at: usize) -> Result<(), NoMemory>
    ensures { OnOk result (bytes.new.items ≡ bytes.old.items
        ++ option_map_or (told_line session) (slice_get reply.now.lines at) []) }
{
    let Some(line) = reply.line(at) else {
        return Ok(());
    };
    append_told(bytes, session, line)
}

/// Appends the last line of a reply with this code.
fn append_end(bytes: &mut Vec<u8>, session: u32, code: u32) -> Result<(), NoMemory>
    ensures { OnOk result (bytes.new.items
        ≡ bytes.old.items ++ told_line session (reply_end code)) }
{
    if code == 0 {
        return append_told(bytes, session, b"ok");
    }
    append_session(bytes, session)?;
    append_error(bytes, code)?;
    bytes.extend_from_slice(b"\n")?;
    Ok(())
}

/// Appends `error CODE NAME`.
fn append_error(bytes: &mut Vec<u8>, code: u32) -> Result<(), NoMemory>
    requires { code ≢ 0 }
    ensures { OnOk result (bytes.new.items ≡ bytes.old.items ++ reply_end code) }
{
    let mut digits = Buffer::new();
    bytes.extend_from_slice(b"error ")?;
    bytes.extend_from_slice(digits.format(code).as_bytes())?;
    bytes.extend_from_slice(b" ")?;
    bytes.extend_from_slice(refusal_name(code))?;
    Ok(())
}

/// Appends a line that is told to a session.
fn append_told(bytes: &mut Vec<u8>, session: u32, line: &[u8]) -> Result<(), NoMemory>
    ensures { OnOk result (bytes.new.items ≡ bytes.old.items ++ told_line session line.now) }
{
    append_session(bytes, session)?;
    bytes.extend_from_slice(line)?;
    bytes.extend_from_slice(b"\n")?;
    Ok(())
}

/// Appends what stands before a line that is told to a session.
fn append_session(bytes: &mut Vec<u8>, session: u32) -> Result<(), NoMemory>
    ensures { OnOk result (bytes.new.items
        ≡ bytes.old.items ++ (codes "@" ++ (decimal session ++ codes " "))) }
{
    let mut digits = Buffer::new();
    bytes.extend_from_slice(b"@")?;
    bytes.extend_from_slice(digits.format(session).as_bytes())?;
    bytes.extend_from_slice(b" ")?;
    Ok(())
}

/// The name of a refusal.
fn refusal_name(code: u32) -> &'static [u8]
    ensures { result.now ≡ refusal_name code }
{
    match code {
        1 => b"UnknownRef".as_slice(),
        2 => b"BadVersion".as_slice(),
        3 => b"KeyNotFound".as_slice(),
        4 => b"BadPattern".as_slice(),
        5 => b"BadValue".as_slice(),
        6 => b"NeedsMap".as_slice(),
        7 => b"UsedAsMap".as_slice(),
        8 => b"VersionFull".as_slice(),
        9 => b"VersionWorn".as_slice(),
        10 => b"NoMoreVersions".as_slice(),
        _ => b"BadCommand".as_slice(),
    }
}
