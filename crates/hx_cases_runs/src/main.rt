//! Cases of whole runs of hxeval, hxdiff and hxtrace: reads lines from standard input, of which
//! each says a part of a run or makes a call, and writes a line for each. A part, a comment (`#`)
//! and an empty line have an empty one, a call has what it answers, and a line that is neither has
//! the reason. Between two words stands one blank. In a text `~` stands for a line feed, `^` for CR
//! and a line feed, and a grave accent for `^` itself; in an answer `~` stands for a line feed.
//!
//! The parts:
//!
//! - `config TEXT` begins a run of hxeval or hxtrace over a configuration named `c`; its record is
//!   the line that opens connection 1.
//! - `old TEXT` begins a run of hxdiff over configurations named `o` and `n`, of which `new TEXT`
//!   has the second; its record is the same.
//! - `name NAME` asks for another configuration in place of the last one.
//! - `file NAME TEXT` adds a file. With `append TEXT` the last file or configuration goes on.
//! - `record TEXT` has another record in place of that line. With `more TEXT` the record goes on.
//! - `head TEXT` adds a request of connection 1 with this head. With `header TEXT` a head begins or
//!   goes on, and `request` adds the request with it.
//! - `cut N` ends the record after N bytes. `open N`, `read N` and `write N` number the file, the
//!   read or the write that fails, and `large N` the expression that is too large.
//! - `pieces READ WRITE` says for all runs from there on how many bytes a read gives at most, and
//!   how many a write takes.
//! - `times FIRST LAST PART TEXT` is the part for each number from FIRST to LAST, which stands in
//!   TEXT for `#`.
//!
//! The calls, of which each answers a status and, after a blank, a text, where there is one:
//!
//! - `run`, `check`, `lines`, `lines --why`, `counts` and `trace` are these commands over the
//!   configurations: what they write. `check t` is that of hxtrace, with the file `t` as its trace.
//! - `told COMMAND`, of `run`, `lines`, `trace` or `check t`: what standard error is told.
//! - `names COMMAND`: the names of the files that were read, in their order, a line each.
//! - `left COMMAND`: how many bytes of the record weren't read.
//! - `command WORD ..` is hxdiff with these words: the fault that ended it, the configuration that
//!   was read last, and how many requests were answered; or `none`.
//! - `explained PROGRAM STATUS FAULT NUMBER CODE`: what a program says of a run with this status
//!   and this fault, of which NUMBER is the line or the offset.
//! - `sum CALL` has the length and the SHA-256 of what the call answers in place of the text.
//! - `each PART FIRST LAST CALL` makes the call with this part (`cut`, `open`, `read`, `write` or
//!   `large`) at each number from FIRST to LAST. For numbers in a row with the same answer it has
//!   the first, the last, and that answer, with ` | ` between such rows.
//!
//! All runs have the variable A of value `x`.
#![tactic(auto)]

mod answer;
mod calls;
mod case;
mod faults;
mod given;
mod hxdiff_runs;
mod hxeval_runs;
mod hxtrace_runs;
mod lines;
mod machine;
mod text;

use crate::lines::answers;
use hx_outside::{StdSink, StdSource, read_to_end, write_all};
use std::io::writer;
use std::process::ExitCode;

fn main(rt: HostRuntime) -> ExitCode {
    let alloc = rt.alloc();
    let Ok(text) = read_to_end(alloc, &mut StdSource::new(rt.reader()), 16_777_216) else {
        return ExitCode::from(5);
    };
    let Ok(out) = answers(alloc, text.as_slice()) else {
        return ExitCode::from(7);
    };
    match write_all(&mut StdSink::new(writer(&rt)), out.as_slice()) {
        Ok(()) => ExitCode::from(0),
        Err(_) => ExitCode::from(6),
    }
}
