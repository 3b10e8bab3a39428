//! `TYPE|TEXT`: the millionths that the text is as a value of the type, `none` for a value that
//! is no number, and `-` for a text that is no value of the type.
use crate::cells::Cells;
use crate::out::Out;
use dh_metadata::names::{ValueType, value_type_named};
use dh_records::number::number_of;
use dh_records::value::fits;

pub(crate) fn typed_row(out: &mut Out, row: &str) {
    let mut cells = Cells(row);
    match value_type_named(cells.before('|').as_bytes()) {
        Some(value_type) => put_typed(out, value_type, cells.0.as_bytes()),
        None => out.fail(),
    }
}

fn put_typed(out: &mut Out, value_type: ValueType, text: &[u8]) {
    if !fits(value_type, text) {
        return out.put(b"-");
    }
    match number_of(value_type, text) {
        Some(number) => out.put_number(i128::from(number.value())),
        None => out.put(b"none"),
    }
}
