//! A store of a few rows. Of two periods with one last day the longer stands first, and a row without
//! an approved position stands after those that have one.
use dh_base::plain::Need;
use dh_periods::Period;
use std::alloc::Global;
use std::process::Abort;
use table_rows::{ListRows, Row, RowStore, is_store};

fn row(rt: &impl Abort, text: &[u8], order: u32, approved: Option<u8>, micros: i64) -> Row {
    Row {
        element: 1,
        combo: 1,
        attribute: 1,
        period: Period::parse(text).expect(rt, "a period"),
        approved,
        order,
        micros: Some(micros),
    }
}

fn rows(rt: &impl Abort, alloc: Global) -> Vec<Row> {
    let mut rows = Vec::new(alloc);
    rows.push(row(rt, b"202401", 4, Some(0), 5))
        .expect(rt, "memory");
    rows.push(row(rt, b"202401", 3, None, 100))
        .expect(rt, "memory");
    rows.push(row(rt, b"2024Q1", 3, None, 1))
        .expect(rt, "memory");
    rows.push(row(rt, b"202403", 3, None, 1))
        .expect(rt, "memory");
    rows
}

fn store(rt: &impl Abort, alloc: Global) -> ListRows {
    let rows = rows(rt, alloc);
    assert!(rt; is_store(&rows, &[], &[], &[]));
    ListRows::of(rows, Vec::new(alloc), Vec::new(alloc), Vec::new(alloc))
}

#[test]
fn rows_are_grouped_and_added(rt: HostRuntime) {
    let store = store(&rt, rt.alloc());
    let groups = store.groups(rt.alloc(), 1).expect(&rt, "memory");
    assert!(rt; groups.len() == 3);
    let month = &groups.as_slice()[0];
    assert!(rt; store.range_sum(*month, Need::All, 0, 100).micros == 105);
    assert!(rt; store.range_sum(*month, Need::Upto(1), 0, 100).micros == 5);
}
