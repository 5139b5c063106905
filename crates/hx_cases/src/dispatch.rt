use crate::edits::{edits_case, edits_in_case};
use crate::fetch::fetch_case;
use crate::http::{read_head_case, read_head_in_case};
use crate::lists::{cookies_case, hdr_values_case, params_case};
use crate::machine::{failing_reads_case, failing_writes_case, machine_file_case};
use crate::outside::{
    dir_files_case, log_files_case, mem_files_case, read_to_end_case, reads_case, std_reads_case,
    std_sink_case, std_source_case, write_all_case, writes_case,
};
use crate::record::record_case;
use crate::sample::{
    cast_case, items_case, lone_case, own_case, same_case, sample_texts_case, samples_case,
};
use crate::text::{
    compare_case, compare_names_case, cut_at_case, map4to6_case, print_i64_case, print_ip_case,
    push_all_case, read_i64_case, read_ip_case, read_net_case, read_number_case, six_to_four_case,
    without_cr_case,
};
use crate::texts::texts_case;
use crate::words::{calls_case, next_call_case, split_case};
use hx_cases_base::{Calls, CaseFault, State, connection_case, request_case, vars_case};
use std::alloc::Global;
use std::rt;

/// The calls of the libraries, over the machine's files and what earlier lines left.
#[derive(Drop)]
pub struct LibraryCalls<'a, R: rt::Files> {
    pub rt: &'a R,
    pub state: State,
}

impl<'a, R: rt::Files> Calls for LibraryCalls<'a, R> {
    /// The calls stand by subject, in a chain of short functions: one function for all of them
    /// takes twice as long to prove.
    fn call(
        &mut self,
        alloc: Global,
        out: &mut String,
        name: &[u8],
        args: &[Vec<u8>],
    ) -> Result<(), CaseFault> {
        match name {
            b"dir_files" => dir_files_case(self.rt, alloc, out, args),
            b"machine_file" => machine_file_case(self.rt, alloc, out, args),
            b"vars" => vars_case(alloc, &mut self.state.vars, out, args),
            b"request" => request_case(alloc, &mut self.state, args),
            b"connection" => connection_case(&mut self.state, args),
            b"fetch" => fetch_case(alloc, &self.state, out, args),
            _ => sample_call(alloc, out, name, args),
        }
    }
}

/// Calls of samples and lists.
fn sample_call(
    alloc: Global,
    out: &mut String,
    name: &[u8],
    args: &[Vec<u8>],
) -> Result<(), CaseFault> {
    match name {
        b"cast" => cast_case(alloc, out, args),
        b"own" => own_case(alloc, out, args),
        b"same" => same_case(alloc, out, args),
        b"samples" => samples_case(alloc, out, args),
        b"sample_texts" => sample_texts_case(alloc, out, args),
        b"lone" => lone_case(alloc, out, args),
        b"items" => items_case(alloc, out, args),
        b"texts" => texts_case(out, args),
        _ => source_call(alloc, out, name, args),
    }
}

/// Calls of sources and records.
fn source_call(
    alloc: Global,
    out: &mut String,
    name: &[u8],
    args: &[Vec<u8>],
) -> Result<(), CaseFault> {
    match name {
        b"record" => record_case(alloc, out, args, false),
        b"record_reads" => record_case(alloc, out, args, true),
        b"reads" => reads_case(alloc, out, args),
        b"std_reads" => std_reads_case(alloc, out, args),
        b"failing_reads" => failing_reads_case(alloc, out, args),
        b"read_to_end" => read_to_end_case(alloc, out, args),
        b"std_source" => std_source_case(alloc, out, args),
        _ => sink_call(alloc, out, name, args),
    }
}

/// Calls of sinks and files in memory.
fn sink_call(
    alloc: Global,
    out: &mut String,
    name: &[u8],
    args: &[Vec<u8>],
) -> Result<(), CaseFault> {
    match name {
        b"writes" => writes_case(alloc, out, args),
        b"write_all" => write_all_case(alloc, out, args),
        b"failing_writes" => failing_writes_case(alloc, out, args),
        b"std_sink" => std_sink_case(alloc, out, args),
        b"mem_files" => mem_files_case(alloc, out, args),
        b"log_files" => log_files_case(alloc, out, args),
        _ => word_call(alloc, out, name, args),
    }
}

/// Calls of words, and of lists in lines.
fn word_call(
    alloc: Global,
    out: &mut String,
    name: &[u8],
    args: &[Vec<u8>],
) -> Result<(), CaseFault> {
    match name {
        b"split" => split_case(alloc, out, args),
        b"calls" => calls_case(alloc, out, args),
        b"next_call" => next_call_case(alloc, out, args),
        b"hdr_values" => hdr_values_case(out, args),
        b"cookies" => cookies_case(out, args),
        b"params" => params_case(out, args),
        _ => head_call(alloc, out, name, args),
    }
}

/// Calls of heads, and of edits of their messages.
fn head_call(
    alloc: Global,
    out: &mut String,
    name: &[u8],
    args: &[Vec<u8>],
) -> Result<(), CaseFault> {
    match name {
        b"read_head" => read_head_case(alloc, out, args),
        b"read_head_in" => read_head_in_case(alloc, out, args),
        b"edits" => edits_case(alloc, out, args),
        b"edits_in" => edits_in_case(alloc, out, args),
        _ => text_call(alloc, out, name, args),
    }
}

/// Calls of owned bytes, and of texts that are cut.
fn text_call(
    alloc: Global,
    out: &mut String,
    name: &[u8],
    args: &[Vec<u8>],
) -> Result<(), CaseFault> {
    match name {
        b"cut_at" => cut_at_case(out, args),
        b"without_cr" => without_cr_case(out, args),
        b"push_all" => push_all_case(alloc, out, args),
        b"compare" => compare_case(alloc, out, args),
        b"compare_names" => compare_names_case(alloc, out, args),
        _ => number_call(out, name, args),
    }
}

/// Calls of numbers and addresses.
fn number_call(out: &mut String, name: &[u8], args: &[Vec<u8>]) -> Result<(), CaseFault> {
    match name {
        b"read_i64" => read_i64_case(out, args),
        b"print_i64" => print_i64_case(out, args),
        b"read_number" => read_number_case(out, args),
        b"read_ip" => read_ip_case(out, args),
        b"print_ip" => print_ip_case(out, args),
        b"read_net" => read_net_case(out, args),
        b"map4to6" => map4to6_case(out, args),
        b"six_to_four" => six_to_four_case(out, args),
        _ => Err(CaseFault::UnknownCall),
    }
}
