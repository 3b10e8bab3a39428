//! Reads a table from standard input, a case a line, and writes what the libraries make of each: numbers, periods,
//! expressions, samples, bytes of changes, bodies of requests, values by their types. The stored `stdout` has the answers
//! that were worked out elsewhere.
#![tactic(auto)]

mod bodies;
mod cells;
mod changes;
mod expressions;
mod numbers;
mod out;
mod periods;
mod samples;
mod values;

use crate::out::Out;
use dh_outside::{StdIn, StdOut, read_all, write_all};
use std::alloc::Global;
use std::io;
use std::process::ExitCode;

const LONGEST_TABLE: u64 = 16_777_216;

fn row(out: &mut Out, line: &str) {
    let is_known = match line.split_once('|') {
        Some((kind, case)) => is_written(out, kind, case),
        None => false,
    };
    if !is_known {
        out.put(b"no such row");
    }
}

// Writes the answer to a case, if there are rows of the kind.
fn is_written(out: &mut Out, kind: &str, case: &str) -> bool {
    numbers::is_written(out, kind, case)
        || periods::is_written(out, kind, case)
        || expressions::is_written(out, kind, case)
        || is_record_written(out, kind, case)
}

// Rows of records: samples, the bytes of a change, bodies of requests, and values by their types.
fn is_record_written(out: &mut Out, kind: &str, case: &str) -> bool {
    match kind {
        "total" => samples::total_row(out, case),
        "change" => changes::change_row(out, case),
        "typed" => values::typed_row(out, case),
        "set" => bodies::set_row(out, case),
        "completions" => bodies::completions_row(out, case),
        _ => return false,
    }
    true
}

fn rows(alloc: Global, table: &str) -> Option<Vec<u8>> {
    let mut out = Out::new(alloc);
    for line in table.lines() {
        row(&mut out, line);
        out.put(b"\n");
    }
    out.finish()
}

fn table(rt: &HostRuntime) -> Option<Vec<u8>> {
    let mut input = StdIn::new(rt.reader());
    read_all(rt.alloc(), &mut input, LONGEST_TABLE).ok()
}

fn answers(alloc: Global, table: &[u8]) -> Option<Vec<u8>> {
    match str::from_utf8(table) {
        Ok(table) => rows(alloc, table),
        Err(_) => None,
    }
}

fn is_told(rt: &HostRuntime, answers: &[u8]) -> bool {
    let mut output = StdOut::new(io::writer(rt));
    write_all(&mut output, answers).is_ok()
}

fn is_answered(rt: &HostRuntime, table: &[u8]) -> bool {
    match answers(rt.alloc(), table) {
        Some(answers) => is_told(rt, &answers),
        None => false,
    }
}

fn main(rt: HostRuntime) -> ExitCode {
    match table(&rt) {
        Some(table) if is_answered(&rt, &table) => ExitCode::SUCCESS,
        _ => ExitCode::FAILURE,
    }
}
