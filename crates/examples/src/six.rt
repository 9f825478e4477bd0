// The network of six junctions, drawn and edited.
use drawing::{Junction, Mark, Refusal, Rest, Road};
use measure::Metres;
use std::process::Abort;
use std::test::Fail;

// The roads of the network: two ends and a length in metres.
const ROADS: [(u64, u64, u64); 6] = [
    (1, 2, 700),
    (2, 3, 900),
    (3, 4, 200),
    (1, 5, 100),
    (4, 5, 150),
    (5, 6, 400),
];

pub(super) fn draw(junctions: &mut [Junction], roads: &mut [Road]) -> Result<Rest, Refusal> {
    let mut drawing = Rest::start::<Metres>(6, 2, junctions)?;
    for (first, second, metres) in ROADS {
        drawing.add::<Metres>(roads, first, second, metres)?;
    }
    for junction in 4..=6 {
        drawing.assign(junctions, junction, 1)?;
    }
    Ok(drawing)
}

fn edit(rt: &impl Abort, drawing: &Rest, junctions: &mut [Junction], roads: &mut [Road]) {
    assert_eq!(rt; drawing.count_borders(junctions, roads), Ok(4));
    assert_eq!(rt; drawing.set::<Metres>(roads, 6, 450), Ok(()));
    assert_eq!(rt; drawing.close(roads, 3), Ok(()));
    assert_eq!(rt; drawing.count_borders(junctions, roads), Ok(2));
    assert_eq!(rt; drawing.close(roads, 4), Ok(()));
    assert_eq!(rt; drawing.count_borders(junctions, roads), Ok(0));
    assert_eq!(rt; drawing.reopen(roads, 3), Ok(()));
    assert_eq!(rt;
        drawing.set::<Metres>(roads, 1, 1_000_001),
        Err(Refusal::NotLawful)
    );
    assert_eq!(rt; drawing.close(roads, 7), Err(Refusal::NoRoad));
    assert_eq!(rt; drawing.assign(junctions, 7, 1), Err(Refusal::NoJunction));
}

#[test]
fn drawn_and_edited(rt: HostRuntime) -> Result<(), Fail> {
    let mut junctions = [Junction::default(); 6];
    let mut roads = [Road::default(); 6];
    let drawing = draw(&mut junctions, &mut roads)?;
    let mut expected = roads;
    edit(&rt, &drawing, &mut junctions, &mut roads);
    expected[3].mark = Mark::Closed;
    expected[5].value = 450;
    assert!(rt; roads == expected);
    assert!(rt; junctions[2].district == 0 && junctions[3].district == 1);
    Ok(())
}
