ghost use Rattle.std.specs.Prelude.{◌≡◌, ◌<◌, [], length};
ghost use Rattle.hx_rules.specs.Tables.{HasHeads, HasLists};
ghost use Rattle.hx_trace.specs.Statements.{HasPatternFaultsAlone, LinesNumber};

use crate::loading::{loaded_for, try_lines};
use crate::setting::{Setting, joined};
use crate::showing::{show_load_fault, show_plan_fault, show_verdict, show_why};
use hx_cases_base::CaseFault;
use hx_fetch::Conn;
use hx_http::{Message, read_head};
use hx_outside::{Files, ReMaker};
use hx_pool::Steps;
use hx_refs::Refs;
use hx_sample::{Tables, Vars};
use hx_text::Ip;
use hx_trace::{Explained, PlainTables, explain};
use std::alloc::Global;
use std::marker::Brand;
use std::sync::ledger::{Blank, Ledger};

/// By which tables statements are explained.
#[derive(Clone, Copy)]
pub enum Tabled {
    /// the references, which are searched through their indexes
    Indexed,
    /// all entries of the references, one by one
    Plain,
}

/// `explain REQUEST` and `scan REQUEST`
pub fn explanation_case(
    alloc: Global,
    setting: &Setting,
    out: &mut String,
    args: &[Vec<u8>],
    tabled: Tabled,
) -> Result<(), CaseFault> {
    let head = joined(alloc, args)?;
    let Ok((mut message, _)) = read_head(alloc, head.as_slice()) else {
        return Err(CaseFault::BadArguments);
    };
    let mut files = setting.held(alloc)?;
    let mut maker = setting.maker(alloc)?;
    explanation(
        alloc,
        setting.config.as_slice(),
        &mut files,
        &mut maker,
        &mut message,
        out,
        tabled,
    )
}

/// Writes why a request has its verdict by a configuration, or why it has none.
fn explanation<F: Files, M: ReMaker>(
    alloc: Global,
    config: &[u8],
    files: &mut F,
    maker: &mut M,
    message: &mut Message,
    out: &mut String,
    tabled: Tabled,
) -> Result<(), CaseFault> {
    match try_lines(alloc, config, maker) {
        Ok(()) => statements_explanation(alloc, config, files, maker, message, out, tabled),
        Err(fault) => show_load_fault(out, fault),
    }
}

/// The same, of a configuration whose lines have no fault.
fn statements_explanation<F: Files, M: ReMaker>(
    alloc: Global,
    config: &[u8],
    files: &mut F,
    maker: &mut M,
    message: &mut Message,
    out: &mut String,
    tabled: Tabled,
) -> Result<(), CaseFault>
    requires { HasPatternFaultsAlone [] config.now }
{
    match Explained::new(alloc, config, &[], maker) {
        Ok(prog) => loaded_explanation(alloc, &prog, config, files, maker, message, out, tabled),
        Err(fault) => show_plan_fault(out, fault),
    }
}

/// The same, by these statements of the configuration.
fn loaded_explanation<F: Files, M: ReMaker>(
    alloc: Global,
    prog: &Explained,
    config: &[u8],
    files: &mut F,
    maker: &mut M,
    message: &mut Message,
    out: &mut String,
    tabled: Tabled,
) -> Result<(), CaseFault>
    requires { LinesNumber [] config.now prog.now }
{
    match loaded_for(alloc, prog, config, files, maker) {
        Ok(mut refs) => tabled_explanation(alloc, prog, &mut refs, maker, message, out, tabled),
        Err(fault) => show_load_fault(out, fault),
    }
}

/// The same, over these references.
fn tabled_explanation<M: ReMaker>(
    alloc: Global,
    prog: &Explained,
    refs: &mut Refs,
    maker: &mut M,
    message: &mut Message,
    out: &mut String,
    tabled: Tabled,
) -> Result<(), CaseFault>
    requires heads { HasHeads refs.old.content.heads prog.now.program }
    requires lists { HasLists (length refs.old.content.references) prog.now.program }
{
    match tabled {
        Tabled::Indexed => {
            let blank = Blank::new(1);
            request_explanation::<Refs, M, Brand>(alloc, prog, refs, maker, message, out, blank)
        }
        Tabled::Plain => {
            let mut tables = PlainTables::new(alloc, refs)?;
            let blank = Blank::new(1);
            request_explanation::<PlainTables<'_>, M, Brand>(
                alloc,
                prog,
                &mut tables,
                maker,
                message,
                out,
                blank,
            )
        }
    }
}

/// The same, over these tables, with steps that nothing reads.
fn request_explanation<T: Tables, M: ReMaker, L: Ledger>(
    alloc: Global,
    prog: &Explained,
    tables: &mut T,
    maker: &mut M,
    message: &mut Message,
    out: &mut String,
    blank: Blank,
) -> Result<(), CaseFault>
    requires name { blank.name ≡ L.name }
    requires parts { blank.parts ≡ L.parts }
    requires some { 0 < L.parts }
    requires heads { HasHeads (T.heads (T.state tables.old)) prog.now.program }
    requires lists { HasLists (length (T.lists (T.state tables.old))) prog.now.program }
{
    let conn = Conn {
        id: 1,
        src: Ip::V4(0xc000_0207),
        src_port: 40000,
        dst: Ip::V4(0xcb00_7101),
        dst_port: 80,
    };
    let mut vars = Vars::new(alloc);
    let mut steps = Steps::<L>::open(blank);
    match explain(
        alloc, prog, message, &conn, &mut vars, tables, maker, &mut steps,
    ) {
        Ok((verdict, why)) => {
            show_verdict(out, &verdict)?;
            out.push_str(" by ")?;
            show_why(out, &why)
        }
        Err(_) => Err(CaseFault::NoMemory),
    }
}
