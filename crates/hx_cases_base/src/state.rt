use crate::arguments::{address, id, port, sample, variable};
use crate::fault::CaseFault;
use crate::showing::show_occurrence;
use hx_fetch::Conn;
use hx_http::{Message, read_head};
use hx_sample::{Vars, lend, own};
use hx_text::{Ip, cut_at};
use std::alloc::Global;

/// What earlier lines leave for later ones.
#[derive(Drop)]
pub struct State {
    pub message: Option<Message>,
    pub conn: Conn,
    pub vars: Vars,
}

impl State {
    /// No request, no variables, and connection 7 from 10.0.0.5 to 192.0.2.1.
    pub fn new(alloc: Global) -> State {
        State {
            message: None,
            conn: Conn {
                id: 7,
                src: Ip::V4(0x0a00_0005),
                src_port: 1000,
                dst: Ip::V4(0xc000_0201),
                dst_port: 80,
            },
            vars: Vars::new(alloc),
        }
    }
}

/// `request BYTES`: the request of the fetches that follow.
pub fn request_case(alloc: Global, state: &mut State, args: &[Vec<u8>]) -> Result<(), CaseFault> {
    let [bytes] = args else {
        return Err(CaseFault::BadArguments);
    };
    match read_head(alloc, bytes.as_slice()) {
        Ok((message, _)) => {
            state.message = Some(message);
            Ok(())
        }
        Err(_) => Err(CaseFault::BadArguments),
    }
}

/// `connection ID SRC SPORT DST DPORT`: the connection of the fetches that follow.
pub fn connection_case(state: &mut State, args: &[Vec<u8>]) -> Result<(), CaseFault> {
    let [conn, src, src_port, dst, dst_port] = args else {
        return Err(CaseFault::BadArguments);
    };
    state.conn = Conn {
        id: id(conn.as_slice())?,
        src: address(src.as_slice())?,
        src_port: port(src_port.as_slice())?,
        dst: address(dst.as_slice())?,
        dst_port: port(dst_port.as_slice())?,
    };
    Ok(())
}

/// `vars OPERATION ..`: what each `get` answers. The operations are `set,CONN,NAME,SAMPLE`,
/// `get,CONN,NAME`, `unset,CONN,NAME`, `end_request` and `end_session,CONN`.
pub fn vars_case(
    alloc: Global,
    vars: &mut Vars,
    out: &mut String,
    args: &[Vec<u8>],
) -> Result<(), CaseFault> {
    for text in args {
        match cut_at(b',', text.as_slice()) {
            Some((operation, rest)) => vars_step(alloc, vars, out, operation, rest)?,
            None => vars.end_request(),
        }
    }
    Ok(())
}

fn vars_step(
    alloc: Global,
    vars: &mut Vars,
    out: &mut String,
    operation: &[u8],
    rest: &[u8],
) -> Result<(), CaseFault> {
    if operation == b"end_session".as_slice() {
        vars.end_session(id(rest)?);
        return Ok(());
    }
    let (conn, rest) = cut_at(b',', rest).ok_or(CaseFault::BadArguments)?;
    let conn = id(conn)?;
    if operation == b"set".as_slice() {
        let (name, value) = cut_at(b',', rest).ok_or(CaseFault::BadArguments)?;
        let value = own(alloc, &sample(value)?)?;
        return Ok(vars.set(conn, &variable(alloc, name)?, value)?);
    }
    let name = variable(alloc, rest)?;
    if operation == b"unset".as_slice() {
        vars.unset(conn, &name);
        return Ok(());
    }
    match vars.get(conn, &name) {
        Some(value) => show_occurrence(out, &Some(lend(value))),
        None => show_occurrence(out, &None),
    }
}
