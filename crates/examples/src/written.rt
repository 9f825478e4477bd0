// What a writer holds that has no room for the whole of a refusal: it takes piece by piece, and a number comes with its space.
use arrayvec::ArrayString;
use drawing::{Refusal, Table};
use roadtext::{Cause, Fault};
use std::fmt::Write;
use std::process::Abort;

// That a writer of two bytes takes nothing.
fn takes_nothing(rt: &impl Abort, refusal: &Refusal) {
    let mut text = ArrayString::<2>::new();
    assert!(rt; write!(text, "{refusal}").is_err());
    assert!(rt; text.as_str() == "");
}

#[test]
fn pieces_of_a_refusal(rt: HostRuntime) {
    takes_nothing(&rt, &Refusal::ShortBook { words: 88 });
    let entry = Refusal::BadEntry {
        table: Table::Book,
        place: 7,
    };
    takes_nothing(&rt, &entry);
    let mut text = ArrayString::<1>::new();
    let short = Refusal::ShortTable { needed: 4_096 };
    assert!(rt; write!(text, "{short}").is_err());
    assert!(rt; text.as_str() == "");
}

#[test]
fn pieces_of_a_fault(rt: HostRuntime) {
    let fault = Fault {
        line: 5,
        field: 1,
        cause: Cause::Letter,
    };
    let mut text = ArrayString::<2>::new();
    assert!(rt; write!(text, "{fault}").is_err());
    assert!(rt; text.as_str() == "");
}
