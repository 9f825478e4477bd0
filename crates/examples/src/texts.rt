// Road texts, each with its outcome.
use drawing::{Junction, Mark, Refusal, Road};
use measure::Metres;
use roadtext::{Cause, Fault, Unread, answer_line, read};
use std::alloc::Global;
use std::process::Abort;
use std::test::Fail;

// What a table holds before a text is read: nothing that a text would write.
const PLACE: Junction = Junction { district: 77 };

const RECORD: Road = Road {
    first: 9,
    second: 9,
    value: 9,
    mark: Mark::Closed,
};

// What reading a text under metres is refused with, in tables of four junctions and three roads; and that a refusal leaves both
// tables as they were.
fn outcome(rt: &impl Abort, heap: Global, text: &[u8]) -> Result<Option<Fault>, Fail> {
    let mut junctions = [PLACE; 4];
    let mut roads = [RECORD; 3];
    match read::<Metres>(heap, text, &mut junctions, &mut roads) {
        Ok(_) => Ok(None),
        Err(Unread::Refused(fault)) => {
            assert!(rt; junctions == [PLACE; 4]);
            assert!(rt; roads == [RECORD; 3]);
            Ok(Some(fault))
        }
        Err(Unread::Memory) => Err(Fail::new("no memory")),
    }
}

// That a text is refused, with the fault of these numbers: those that users meet, so the cause is one too.
fn faults(
    rt: &impl Abort,
    heap: Global,
    text: &[u8],
    line: u64,
    field: u64,
    cause: u64,
) -> Result<(), Fail> {
    match outcome(rt, heap, text)? {
        Some(fault) => {
            assert_eq!(rt; fault.line, line);
            assert_eq!(rt; fault.field, field);
            assert_eq!(rt; fault.cause.number(), cause);
            Ok(())
        }
        None => Err(Fail::new("read, and not refused")),
    }
}

fn reads(rt: &impl Abort, heap: Global, text: &[u8]) -> Result<(), Fail> {
    assert_eq!(rt; outcome(rt, heap, text)?, None);
    Ok(())
}

#[test]
fn texts_that_are_read(rt: HostRuntime) -> Result<(), Fail> {
    let heap = rt.alloc();
    reads(&rt, heap, b"p sp 2 0")?;
    reads(&rt, heap, b"p sp 4 0\n")?;
    reads(
        &rt,
        heap,
        b"c\nc anything  at all \np sp 2 2\na 1 2 5\nc between twins\na 2 1 5\n",
    )?;
    reads(
        &rt,
        heap,
        b"p sp 0000000003 2\na 1 3 1000000\na 3 1 01000000\nd 1 63\nd 1 0\nq 1 1\nq 3 2",
    )?;
    reads(
        &rt,
        heap,
        b"p sp 2 6\na 1 2 5\na 2 1 5\na 1 2 5\na 2 1 5\na 2 1 6\na 1 2 6\nc",
    )
}

#[test]
fn letters_out_of_place(rt: HostRuntime) -> Result<(), Fail> {
    let heap = rt.alloc();
    faults(&rt, heap, b"", 1, 1, 31)?;
    faults(&rt, heap, b"\n", 1, 1, 31)?;
    faults(&rt, heap, b"c\nc\n", 3, 1, 31)?;
    faults(&rt, heap, b" p sp 2 0", 1, 1, 31)?;
    faults(&rt, heap, b"P sp 2 0", 1, 1, 31)?;
    faults(&rt, heap, b"cc\np sp 2 0", 1, 1, 31)?;
    faults(&rt, heap, b"a 1 2 5", 1, 1, 31)?;
    faults(&rt, heap, b"p sp 2 2\np sp 2 2", 2, 1, 31)?;
    faults(&rt, heap, b"p sp 2 2\nd 1 1", 2, 1, 31)?;
    faults(&rt, heap, b"p sp 2 2\na 1 2 5\nq 1 2", 3, 1, 31)?;
    faults(&rt, heap, b"p sp 2 2\na 1 2 5\n", 3, 1, 31)?;
    faults(&rt, heap, b"p sp 2 0\na 1 2 5", 2, 1, 31)?;
    faults(&rt, heap, b"p sp 2 0\nq 1 2\nd 1 1", 3, 1, 31)?;
    faults(&rt, heap, b"p sp 2 0\n\n", 2, 1, 31)?;
    faults(&rt, heap, b"p\tsp 2 0", 1, 1, 31)
}

#[test]
fn bad_head_lines(rt: HostRuntime) -> Result<(), Fail> {
    let heap = rt.alloc();
    faults(&rt, heap, b"p", 1, 2, 32)?;
    faults(&rt, heap, b"p  sp 2 0", 1, 2, 32)?;
    faults(&rt, heap, b"p sq 2 0", 1, 2, 32)?;
    faults(&rt, heap, b"p sp", 1, 3, 32)?;
    faults(&rt, heap, b"p sp x 0", 1, 3, 32)?;
    faults(&rt, heap, b"p sp 00000000002 0", 1, 3, 32)?;
    faults(&rt, heap, b"p sp 0 0", 1, 3, 2)?;
    faults(&rt, heap, b"p sp 4097 0", 1, 3, 2)?;
    faults(&rt, heap, b"p sp 5 0", 1, 3, 3)?;
    faults(&rt, heap, b"p sp 2", 1, 4, 32)?;
    faults(&rt, heap, b"p sp 2 -2", 1, 4, 32)?;
    faults(&rt, heap, b"p sp 2 0\r\n", 1, 4, 32)?;
    faults(&rt, heap, b"p sp 2 3", 1, 4, 33)?;
    faults(&rt, heap, b"p sp 2 0 ", 1, 5, 32)?;
    faults(&rt, heap, b"p sp 2 9999999998\n", 2, 1, 31)
}

#[test]
fn bad_arcs(rt: HostRuntime) -> Result<(), Fail> {
    let heap = rt.alloc();
    faults(&rt, heap, b"p sp 2 2\na", 2, 2, 32)?;
    faults(&rt, heap, b"p sp 2 2\na 0 1 5", 2, 2, 4)?;
    faults(&rt, heap, b"p sp 2 2\na 4294967297 1 5", 2, 2, 4)?;
    faults(&rt, heap, b"p sp 2 2\na 1  5", 2, 3, 32)?;
    faults(&rt, heap, b"p sp 2 2\na 1 3 5", 2, 3, 4)?;
    faults(&rt, heap, b"p sp 2 2\na 1 1 5", 2, 3, 6)?;
    faults(&rt, heap, b"p sp 2 2\na 1 2", 2, 4, 32)?;
    faults(&rt, heap, b"p sp 2 2\na 1 2 0", 2, 4, 7)?;
    faults(&rt, heap, b"p sp 2 2\na 1 2 1000001", 2, 4, 7)?;
    faults(&rt, heap, b"p sp 2 2\na 1 2 5 5", 2, 5, 32)?;
    faults(&rt, heap, b"p sp 3 2\na 1 2 5\na 3 1 5", 3, 1, 33)?;
    faults(&rt, heap, b"p sp 3 2\na 1 2 5\na 2 3 5", 3, 1, 33)?;
    faults(&rt, heap, b"p sp 3 2\na 1 2 5\nc\na 2 1 6", 4, 1, 33)?;
    faults(&rt, heap, b"p sp 3 2\na 1 2 5\na 1 2 5", 3, 1, 33)
}

#[test]
fn bad_districts_and_asks(rt: HostRuntime) -> Result<(), Fail> {
    let heap = rt.alloc();
    faults(&rt, heap, b"p sp 2 0\nd", 2, 2, 32)?;
    faults(&rt, heap, b"p sp 2 0\nd 3 0", 2, 2, 4)?;
    faults(&rt, heap, b"p sp 2 0\nd 1", 2, 3, 32)?;
    faults(&rt, heap, b"p sp 2 0\nd 1 64", 2, 3, 5)?;
    faults(&rt, heap, b"p sp 2 0\nd 1 1 1", 2, 4, 32)?;
    faults(&rt, heap, b"p sp 2 0\nq", 2, 2, 32)?;
    faults(&rt, heap, b"p sp 2 0\nq 3 1", 2, 2, 4)?;
    faults(&rt, heap, b"p sp 2 0\nq 1 x", 2, 3, 32)?;
    faults(&rt, heap, b"p sp 2 0\nq 1 0", 2, 3, 4)?;
    faults(&rt, heap, b"p sp 2 0\nq 1 2 ", 2, 4, 32)
}

#[test]
fn a_fourth_road_in_three_records(rt: HostRuntime) -> Result<(), Fail> {
    faults(
        &rt,
        rt.alloc(),
        b"p sp 2 8\na 1 2 5\na 2 1 5\na 1 2 5\na 2 1 5\na 1 2 5\na 2 1 5\na 1 2 5\na 2 1 5",
        9,
        1,
        8,
    )
}

// A text of so many bytes: a `p` line and a long comment.
fn long(heap: Global, bytes: usize) -> Result<Vec<u8>, Fail> {
    let mut text = Vec::new(heap);
    text.extend_from_slice(b"p sp 2 0\nc ")?;
    text.resize(bytes, b'x')?;
    Ok(text)
}

#[test]
fn long_texts(rt: HostRuntime) -> Result<(), Fail> {
    let heap = rt.alloc();
    reads(&rt, heap, &long(heap, 65_536)?)?;
    faults(&rt, heap, &long(heap, 65_537)?, 0, 0, 34)
}

#[test]
fn as_many_junctions_as_there_may_be(rt: HostRuntime) -> Result<(), Fail> {
    let heap = rt.alloc();
    let mut junctions = vec![in heap; PLACE; 4_097]?;
    let mut roads = [RECORD; 1];
    let text = b"p sp 4096 2\na 1 4096 5\na 4096 1 5\nd 4096 3\nq 4096 1\n";
    match read::<Metres>(heap, text, &mut junctions, &mut roads) {
        Ok(reading) => {
            assert_eq!(rt; reading.drawing.junctions(), 4_096);
            assert_eq!(rt; reading.drawing.roads(), 1);
            assert_eq!(rt; reading.asks.len(), 1);
        }
        Err(_) => return Err(Fail::new("refused")),
    }
    assert!(rt; roads[0].second == 4_096 && roads[0].value == 5);
    assert_eq!(rt; junctions.get(4_095).map(|j| j.district), Some(3));
    assert_eq!(rt; junctions.get(4_096).map(|j| j.district), Some(77));
    Ok(())
}

#[test]
fn faults_are_written_as_numbers(rt: HostRuntime) -> Result<(), Fail> {
    let heap = rt.alloc();
    let short = Fault {
        line: 1,
        field: 3,
        cause: Cause::Drawing(Refusal::ShortTable { needed: 5 }),
    };
    assert!(rt; outcome(&rt, heap, b"p sp 5 0")? == Some(short));
    assert!(rt; format!(in heap; "{short}")?.as_str() == "13 1 3 3");
    let twin = Fault {
        line: 12,
        field: 1,
        cause: Cause::Twin,
    };
    assert!(rt; format!(in heap; "{twin}")?.as_str() == "13 12 1 33");
    Ok(())
}

#[test]
fn lines_of_answers(rt: HostRuntime) -> Result<(), Fail> {
    let heap = rt.alloc();
    assert!(rt; answer_line(heap, 2, 6, Some(1_200))?.as_str() == "2 6 1200");
    assert!(rt; answer_line(heap, 2, 6, None)?.as_str() == "2 6 none");
    Ok(())
}
