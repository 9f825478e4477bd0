// The book of the network of six junctions, whole and damaged.
use super::rules::refusal;
use book::open;
use drawing::Refusal;
use measure::{Clearance, Metres};
use std::process::Abort;
use std::test::Fail;

const BOOK: [u64; 88] = [
    1, 1, 6, 2, 4, 16, 12, 88, 0, 0, 0, 1, 1, 1, 1, 3, 4, 5, 0, 1, 3, 5, 8, 12, 16, 0, 0, 0, 700,
    1, 900, 0, 450, 1, 0, 0, 250, 1, 200, 2, 0, 0, 100, 1, 350, 2, 150, 3, 0, 0, 500, 1, 750, 2,
    550, 3, 400, 0, 1, 3, 6, 7, 9, 12, 1, 0, 1, 700, 2, 0, 1, 450, 2, 900, 3, 0, 4, 0, 4, 150, 5,
    0, 4, 550, 5, 400, 6, 0,
];

// What open is refused with under metres.
fn opened(words: &[u64]) -> Option<Refusal> {
    open::<Metres>(words).err()
}

#[test]
fn the_book_opens(rt: HostRuntime) -> Result<(), Fail> {
    assert_eq!(rt; opened(&BOOK), None);
    assert_eq!(rt;
        opened(&BOOK[0..87]),
        Some(Refusal::ShortBook { words: 88 })
    );
    assert_eq!(rt; opened(&BOOK[0..7]), Some(Refusal::NoBook));
    assert_eq!(rt; open::<Clearance>(&BOOK).err(), Some(Refusal::OtherMeasure));
    Ok(())
}

// The word at one place changed to some others: open and the plain reading agree each time.
fn changed_at(rt: &impl Abort, words: &mut [u64], place: usize) -> Result<(), Fail> {
    if place >= words.len() {
        return Ok(());
    }
    let old = words[place];
    for new in [
        0,
        old.wrapping_add(1),
        old.wrapping_sub(1),
        9_223_372_036_854_775_808,
        u64::MAX,
    ] {
        words[place] = new;
        assert_eq!(rt; opened(words), refusal(words));
    }
    words[place] = old;
    Ok(())
}

// Each word by its place, since it is changed and put back among the others.
fn changed_everywhere(rt: &impl Abort, words: &mut [u64]) -> Result<(), Fail> {
    for place in 0..words.len() {
        changed_at(rt, words, place)?;
    }
    Ok(())
}

#[test]
fn damaged_books(rt: HostRuntime) -> Result<(), Fail> {
    let mut words = BOOK;
    changed_everywhere(&rt, &mut words)
}

#[test]
fn rows_and_joins(rt: HostRuntime) -> Result<(), Fail> {
    let book = open::<Metres>(&BOOK)?;
    let row = book.border_row(6)?;
    assert!(rt; row == [0, 500, 1, 750, 2, 550, 3, 400].as_slice());
    let second = book.border_row(2)?;
    assert_eq!(rt;
        book.meet_border_rows::<Metres>(second, row),
        Some((1_200, 1))
    );
    assert_eq!(rt;
        book.meet_border_rows::<Metres>(book.border_row(3)?, row),
        Some((750, 3))
    );
    let first = book.district_row(1)?;
    let third = book.district_row(3)?;
    assert!(rt; third == [1, 450, 2, 900, 3, 0].as_slice());
    assert_eq!(rt;
        book.meet_district_rows::<Metres>(first, third),
        Some((450, 1))
    );
    assert_eq!(rt;
        book.meet_district_rows::<Metres>(first, book.district_row(4)?),
        None
    );
    assert_eq!(rt; book.district(4), Ok(1));
    assert_eq!(rt; book.district(7), Err(Refusal::NoJunction));
    assert_eq!(rt; book.border(3), Some(5));
    assert_eq!(rt; book.border(4), None);
    Ok(())
}
