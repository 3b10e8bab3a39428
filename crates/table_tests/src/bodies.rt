//! `BODY`, for value sets and completions: the texts that are read of the body of a request, those of the
//! set and then those of each object, or `at` and the path of the first fault. `-` stands for no text.
use crate::out::Out;
use dh_changes::outcome::{BodyFault, ImportStrategy};
use dh_changes::text::Text;
use import_forms::completion::{Completion, read_completions};
use import_forms::set::{SetParams, SetValue, ValueSet, read_set};

const PARAMS: SetParams = SetParams {
    strategy: ImportStrategy::CreateAndUpdate,
    dry: false,
};

fn put_text(out: &mut Out, text: &Option<Text>) {
    match text {
        Some(text) => out.put(text.as_slice()),
        None => out.put(b"-"),
    }
    out.put(b",");
}

fn put_truth(out: &mut Out, truth: bool) {
    if truth {
        out.put(b"yes;");
    } else {
        out.put(b"no;");
    }
}

fn put_value(out: &mut Out, value: &SetValue) {
    put_text(out, &value.element);
    put_text(out, &value.combo);
    put_text(out, &value.attribute);
    put_text(out, &value.value);
    put_text(out, &value.period);
    put_text(out, &value.unit);
    put_truth(out, value.deleted);
}

fn put_set(out: &mut Out, set: &ValueSet) {
    put_text(out, &set.data_set);
    put_text(out, &set.complete_date);
    put_text(out, &set.period);
    put_text(out, &set.unit);
    put_text(out, &set.attribute);
    for value in set.values.as_slice() {
        put_value(out, value);
    }
}

fn put_completion(out: &mut Out, completion: &Completion) {
    put_text(out, &completion.data_set);
    put_text(out, &completion.period);
    put_text(out, &completion.unit);
    put_text(out, &completion.attribute);
    put_text(out, &completion.date);
    put_truth(out, completion.done);
}

fn put_completions(out: &mut Out, list: &[Completion]) {
    for completion in list {
        put_completion(out, completion);
    }
}

fn put_fault(out: &mut Out, fault: &BodyFault) {
    out.put(b"at ");
    match fault {
        BodyFault::Bad { path } => out.put(path.as_slice()),
        BodyFault::Memory => out.fail(),
    }
}

pub(crate) fn set_row(out: &mut Out, body: &str) {
    match &read_set(out.alloc, body.as_bytes(), PARAMS) {
        Ok(set) => put_set(out, set),
        Err(fault) => put_fault(out, fault),
    }
}

pub(crate) fn completions_row(out: &mut Out, body: &str) {
    match &read_completions(out.alloc, body.as_bytes()) {
        Ok(list) => put_completions(out, list.as_slice()),
        Err(fault) => put_fault(out, fault),
    }
}
