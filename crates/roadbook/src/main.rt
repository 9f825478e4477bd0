// Reads a road text from standard input, and says what network it describes.
#![tactic(auto)]

use anyhow::anyhow;
use drawing::{Junction, MOST_DISTRICTS, Road};
use measure::Metres;
use roadtext::{MOST_BYTES, Reading, Unread, read};
use std::alloc::Global;
use std::fmt;
use std::io::Read;

// The entries of each table.
const ENTRIES: usize = 8_192;

// One byte more than a text may have: so much is ever held.
const HELD: usize = MOST_BYTES + 1;

// Standard input up to its end, or one byte more than a text may have. (There is room for a byte more than is read: a reader makes
// room before it finds the end, and would want more memory in a buffer that is full.)
fn hold(rt: &HostRuntime, heap: Global) -> anyhow::Result<Vec<u8>> {
    let mut text = Vec::with_capacity(heap, HELD + 1)?;
    rt.stdin().take(HELD as u64).read_to_end(&mut text)?;
    Ok(text)
}

// How many districts have one of the first n junctions.
fn districts_in_use(junctions: &[Junction], n: u64) -> u32 {
    let mut used: u64 = 0;
    for junction in junctions.iter().take(n as usize) {
        if junction.district < MOST_DISTRICTS {
            used |= 1 << junction.district;
        }
    }
    used.count_ones()
}

// Prints what was read. (Two tables, as every call of a drawing is lent them.)
fn state(
    rt: &impl Print,
    reading: &Reading,
    junctions: &[Junction],
    roads: &[Road],
) -> anyhow::Result<()> {
    let n = reading.drawing.junctions();
    let k = reading.drawing.roads();
    let used = districts_in_use(junctions, n);
    let asks = reading.asks.len();
    println!(rt; "junctions {n}")?;
    println!(rt; "roads {k}")?;
    println!(rt; "districts in use {used}")?;
    match reading.drawing.count_borders(junctions, roads) {
        Ok(borders) => println!(rt; "borders {borders}")?,
        Err(refusal) => return refuse(rt, &refusal),
    }
    println!(rt; "asks that wait {asks}")?;
    Ok(())
}

// Prints the numbers of a refusal or of a fault, and nothing else; the program then ends with status 1.
fn refuse(rt: &impl Print, numbers: &impl fmt::Display) -> anyhow::Result<()> {
    println!(rt; "refused {numbers}")?;
    Err(anyhow!("refused"))
}

fn run(rt: &HostRuntime, heap: Global) -> anyhow::Result<()> {
    let text = hold(rt, heap)?;
    let mut junctions = vec![in heap; Junction::default(); ENTRIES]?;
    let mut roads = vec![in heap; Road::default(); ENTRIES]?;
    match read::<Metres>(heap, &text, &mut junctions, &mut roads) {
        Ok(reading) => state(rt, &reading, &junctions, &roads),
        Err(Unread::Refused(fault)) => refuse(rt, &fault),
        Err(Unread::Memory) => Err(anyhow!("no memory")),
    }
}

fn main(rt: HostRuntime) -> anyhow::Result<()> {
    run(&rt, rt.alloc())
}
