// Edits that are refused, each of which leaves the tables as they were.
use drawing::{Junction, Mark, Refusal, Rest, Road};
use measure::{Clearance, Metres};
use std::process::Abort;
use std::test::Fail;

// Three junctions in two districts, and two roads, in tables with one entry to spare.
fn drawn(junctions: &mut [Junction], roads: &mut [Road]) -> Result<Rest, Refusal> {
    let mut drawing = Rest::start::<Metres>(3, 2, junctions)?;
    drawing.add::<Metres>(roads, 1, 2, 700)?;
    drawing.add::<Metres>(roads, 2, 3, 900)?;
    drawing.assign(junctions, 3, 1)?;
    Ok(drawing)
}

fn adds_are_refused(rt: &impl Abort, drawing: &mut Rest, roads: &mut [Road]) {
    for (first, second, value, refusal) in [
        (0, 0, 0, Refusal::NoJunction),
        (1, 4, 0, Refusal::NoJunction),
        (4, 1, 0, Refusal::NoJunction),
        (2, 2, 0, Refusal::EndsAlike),
        (1, 3, 0, Refusal::NotLawful),
        (1, 3, 1_000_001, Refusal::NotLawful),
    ] {
        assert_eq!(rt;
            drawing.add::<Metres>(roads, first, second, value),
            Err(refusal)
        );
    }
}

#[test]
fn refused_adds_change_nothing(rt: HostRuntime) -> Result<(), Fail> {
    let mut junctions = [Junction::default(); 4];
    let mut roads = [Road::default(); 3];
    let mut drawing = drawn(&mut junctions, &mut roads)?;
    let before = roads;
    assert_eq!(rt;
        drawing.add::<Clearance>(&mut roads, 0, 0, 0),
        Err(Refusal::OtherMeasure)
    );
    adds_are_refused(&rt, &mut drawing, &mut roads);
    assert_eq!(rt; drawing.roads(), 2);
    assert!(rt; roads == before);
    Ok(())
}

fn no_such_road(rt: &impl Abort, drawing: &Rest, roads: &mut [Road]) {
    for road in [0, 3, u64::MAX] {
        assert_eq!(rt; drawing.set::<Metres>(roads, road, 0), Err(Refusal::NoRoad));
        assert_eq!(rt; drawing.close(roads, road), Err(Refusal::NoRoad));
        assert_eq!(rt; drawing.reopen(roads, road), Err(Refusal::NoRoad));
    }
}

#[test]
fn refused_changes_of_a_road_change_nothing(rt: HostRuntime) -> Result<(), Fail> {
    let mut junctions = [Junction::default(); 4];
    let mut roads = [Road::default(); 3];
    let drawing = drawn(&mut junctions, &mut roads)?;
    let before = roads;
    assert_eq!(rt;
        drawing.set::<Clearance>(&mut roads, 0, 0),
        Err(Refusal::OtherMeasure)
    );
    assert_eq!(rt;
        drawing.set::<Metres>(&mut roads, 2, 1_000_001),
        Err(Refusal::NotLawful)
    );
    no_such_road(&rt, &drawing, &mut roads);
    assert!(rt; roads == before);
    Ok(())
}

fn assigns_are_refused(rt: &impl Abort, drawing: &Rest, junctions: &mut [Junction]) {
    for (junction, district, refusal) in [
        (0, 2, Refusal::NoJunction),
        (4, 0, Refusal::NoJunction),
        (1, 2, Refusal::NoDistrict),
        (1, u64::MAX, Refusal::NoDistrict),
    ] {
        assert_eq!(rt; drawing.assign(junctions, junction, district), Err(refusal));
    }
}

#[test]
fn refused_assigns_change_nothing(rt: HostRuntime) -> Result<(), Fail> {
    let mut junctions = [Junction::default(); 4];
    let mut roads = [Road::default(); 3];
    let drawing = drawn(&mut junctions, &mut roads)?;
    let before = junctions;
    assigns_are_refused(&rt, &drawing, &mut junctions);
    assert!(rt; junctions == before);
    Ok(())
}

#[test]
fn short_tables_are_refused_first(rt: HostRuntime) -> Result<(), Fail> {
    let mut junctions = [Junction::default(); 4];
    let mut roads = [Road::default(); 3];
    let mut drawing = drawn(&mut junctions, &mut roads)?;
    let before = roads;
    let short = Refusal::ShortTable { needed: 2 };
    assert_eq!(rt;
        drawing.add::<Metres>(&mut roads[0..1], 0, 0, 0),
        Err(short)
    );
    assert_eq!(rt; drawing.set::<Metres>(&mut roads[0..1], 0, 0), Err(short));
    assert_eq!(rt; drawing.close(&mut roads[0..1], 1), Err(short));
    assert_eq!(rt; drawing.reopen(&mut roads[0..1], 1), Err(short));
    assert_eq!(rt;
        drawing.assign(&mut junctions[0..2], 1, 1),
        Err(Refusal::ShortTable { needed: 3 })
    );
    assert!(rt; roads == before);
    Ok(())
}

#[test]
fn accepted_edits_change_one_entry(rt: HostRuntime) -> Result<(), Fail> {
    let mut junctions = [Junction::default(); 4];
    let mut roads = [Road::default(); 3];
    let drawing = drawn(&mut junctions, &mut roads)?;
    let mut expected = roads;
    assert_eq!(rt; drawing.close(&mut roads, 2), Ok(()));
    assert_eq!(rt; drawing.close(&mut roads, 2), Ok(()));
    assert_eq!(rt; drawing.set::<Metres>(&mut roads, 2, 1_000_000), Ok(()));
    expected[1].mark = Mark::Closed;
    expected[1].value = 1_000_000;
    assert!(rt; roads == expected);
    assert_eq!(rt; drawing.reopen(&mut roads, 2), Ok(()));
    assert_eq!(rt; drawing.reopen(&mut roads, 1), Ok(()));
    expected[1].mark = Mark::Open;
    assert!(rt; roads == expected);
    assert!(rt; junctions[2].district == 1 && junctions[3].district == 0);
    Ok(())
}
