// Each limit of a drawing, at its edge and one past it.
use drawing::{Junction, Refusal, Rest, Road};
use measure::{Clearance, Measure, Metres};
use std::process::Abort;
use std::test::Fail;

// What starting a drawing of n junctions and m districts is refused with.
fn start(n: u64, m: u64, table: &mut [Junction]) -> Option<Refusal> {
    Rest::start::<Metres>(n, m, table).err()
}

#[test]
fn counts(rt: HostRuntime) -> Result<(), Fail> {
    let mut table = vec![in rt.alloc(); Junction::default(); 4_097]?;
    assert_eq!(rt; start(4_096, 64, &mut table), None);
    assert_eq!(rt; start(1, 1, &mut table), None);
    for (n, m) in [(4_097, 1), (0, 1), (1, 65), (1, 0), (u64::MAX, u64::MAX)] {
        assert_eq!(rt; start(n, m, &mut table), Some(Refusal::BadCount));
    }
    Ok(())
}

#[test]
fn a_table_one_too_short(rt: HostRuntime) -> Result<(), Fail> {
    let mut table = vec![in rt.alloc(); Junction::default(); 4_095]?;
    assert_eq!(rt;
        start(4_096, 1, &mut table),
        Some(Refusal::ShortTable { needed: 4_096 })
    );
    Ok(())
}

// The greatest lawful value passes, the next does not, and neither does 0.
fn values_up_to<M: Measure>(rt: &impl Abort, most: u64) -> Result<(), Fail> {
    let mut junctions = [Junction::default(); 2];
    let mut roads = [Road::default(); 4];
    let mut drawing = Rest::start::<M>(2, 1, &mut junctions)?;
    assert_eq!(rt; drawing.add::<M>(&mut roads, 1, 2, most), Ok(1));
    assert_eq!(rt;
        drawing.add::<M>(&mut roads, 1, 2, most.saturating_add(1)),
        Err(Refusal::NotLawful)
    );
    assert_eq!(rt;
        drawing.add::<M>(&mut roads, 1, 2, 0),
        Err(Refusal::NotLawful)
    );
    assert_eq!(rt; drawing.set::<M>(&mut roads, 1, 1), Ok(()));
    assert_eq!(rt;
        drawing.set::<M>(&mut roads, 1, most.saturating_add(1)),
        Err(Refusal::NotLawful)
    );
    Ok(())
}

#[test]
fn values(rt: HostRuntime) -> Result<(), Fail> {
    values_up_to::<Metres>(&rt, 1_000_000)?;
    values_up_to::<Clearance>(&rt, 2_000)
}

#[test]
fn a_full_road_table(rt: HostRuntime) -> Result<(), Fail> {
    let mut junctions = [Junction::default(); 2];
    let mut roads = [Road::default(); 2];
    let mut drawing = Rest::start::<Metres>(2, 1, &mut junctions)?;
    assert_eq!(rt; drawing.add::<Metres>(&mut roads, 1, 2, 5), Ok(1));
    assert_eq!(rt; drawing.add::<Metres>(&mut roads, 2, 1, 5), Ok(2));
    assert_eq!(rt;
        drawing.add::<Metres>(&mut roads, 1, 2, 5),
        Err(Refusal::RoadsFull)
    );
    Ok(())
}

#[test]
fn the_road_after_the_last(rt: HostRuntime) -> Result<(), Fail> {
    let mut junctions = [Junction::default(); 2];
    let mut roads = vec![in rt.alloc(); Road::default(); 16_385]?;
    let mut drawing = Rest::start::<Metres>(2, 1, &mut junctions)?;
    for number in 1..=16_384 {
        assert_eq!(rt; drawing.add::<Metres>(&mut roads, 1, 2, 5), Ok(number));
    }
    assert_eq!(rt;
        drawing.add::<Metres>(&mut roads, 1, 2, 5),
        Err(Refusal::RoadsFull)
    );
    Ok(())
}
