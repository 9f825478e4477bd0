// Searches of the network of six junctions.
use super::six::draw;
use drawing::{Junction, Refusal, Rest, Road};
use measure::{Clearance, Measure, Metres};
use search::{Scope, search};
use std::test::Fail;

// The same roads with heights in centimetres.
const HEIGHTS: [(u64, u64, u64); 6] = [
    (1, 2, 420),
    (2, 3, 500),
    (3, 4, 300),
    (1, 5, 450),
    (4, 5, 400),
    (5, 6, 380),
];

fn draw_heights(junctions: &mut [Junction], roads: &mut [Road]) -> Result<Rest, Refusal> {
    let mut drawing = Rest::start::<Clearance>(6, 2, junctions)?;
    for (first, second, height) in HEIGHTS {
        drawing.add::<Clearance>(roads, first, second, height)?;
    }
    Ok(drawing)
}

#[test]
fn the_best_from_one_junction(rt: HostRuntime) -> Result<(), Fail> {
    let mut junctions = [Junction::default(); 6];
    let mut roads = [Road::default(); 6];
    let drawing = draw(&mut junctions, &mut roads)?;
    let mut values = [Metres::NONE; 6];
    values[0] = Metres::START;
    search::<Metres>(&drawing, Scope::Everywhere, &junctions, &roads, &mut values);
    assert_eq!(rt; values, [0, 700, 450, 250, 100, 500]);
    Ok(())
}

#[test]
fn the_best_inside_a_district(rt: HostRuntime) -> Result<(), Fail> {
    let mut junctions = [Junction::default(); 6];
    let mut roads = [Road::default(); 6];
    let drawing = draw(&mut junctions, &mut roads)?;
    let mut values = [Metres::NONE; 6];
    values[3] = Metres::START;
    search::<Metres>(&drawing, Scope::Inside(1), &junctions, &roads, &mut values);
    let none = Metres::NONE;
    assert_eq!(rt; values, [none, none, none, 0, 150, 550]);
    Ok(())
}

#[test]
fn the_best_of_several_offers(rt: HostRuntime) -> Result<(), Fail> {
    let mut junctions = [Junction::default(); 6];
    let mut roads = [Road::default(); 6];
    let drawing = draw(&mut junctions, &mut roads)?;
    let mut values = [u64::MAX, 300, Metres::NONE, Metres::NONE, 900, 1];
    search::<Metres>(&drawing, Scope::Everywhere, &junctions, &roads, &mut values);
    assert_eq!(rt; values, [501, 300, 751, 551, 401, 1]);
    Ok(())
}

#[test]
fn the_highest_from_one_junction(rt: HostRuntime) -> Result<(), Fail> {
    let mut junctions = [Junction::default(); 6];
    let mut roads = [Road::default(); 6];
    let drawing = draw_heights(&mut junctions, &mut roads)?;
    let mut values = [Clearance::NONE; 6];
    values[0] = Clearance::START;
    search::<Clearance>(&drawing, Scope::Everywhere, &junctions, &roads, &mut values);
    assert_eq!(rt; values, [65_535, 420, 420, 400, 450, 380]);
    Ok(())
}

#[test]
fn a_short_table_leaves_the_words(rt: HostRuntime) -> Result<(), Fail> {
    let mut junctions = [Junction::default(); 6];
    let mut roads = [Road::default(); 6];
    let drawing = draw(&mut junctions, &mut roads)?;
    let mut values = [7; 6];
    search::<Metres>(
        &drawing,
        Scope::Everywhere,
        &junctions,
        &roads[0..5],
        &mut values,
    );
    search::<Metres>(
        &drawing,
        Scope::Everywhere,
        &junctions[0..5],
        &roads,
        &mut values,
    );
    assert_eq!(rt; values, [7; 6]);
    Ok(())
}
