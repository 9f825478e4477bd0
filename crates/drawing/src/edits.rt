// Starting a drawing, and the edits of one at rest.
ghost use Rattle.std.specs.Prelude.{◌≡◌, not, [], ◌∷◌, length};
ghost use Rattle.drawing.specs.Edits.{start_checks, StartsWithNoRoad};
ghost use Rattle.drawing.specs.Edits.{add_checks, AppendsAnOpenRoad};
ghost use Rattle.drawing.specs.Edits.{ChangesOneValue, ChangesOneMark, MovesOneJunction};
ghost use Rattle.drawing.specs.Edits.{within, measure_check, size_check, value_check, district_check, record_checks};
ghost use Rattle.drawing.specs.Outcomes.{refuse, verdict};
ghost use Rattle.drawing.specs.declared.tables.Mark.TheVariants.{Open, Closed};

use super::tables::used;
use super::{Junction, Mark, Refusal, Rest, Road};
use measure::Measure;

// The limits of a drawing.
pub const MOST_JUNCTIONS: u64 = 4_096;

pub const MOST_DISTRICTS: u64 = 64;

pub const MOST_ROADS: u64 = 16_384;

// The refusal, where a check fails.
fn refuse_if(fails: bool, refusal: Refusal) -> Result<(), Refusal>
    ensures { result ≡ verdict (refuse refusal fails ∷ []) }
{
    if fails { Err(refusal) } else { Ok(()) }
}

// Refuses a number that is not one of 1 to `most`.
fn check_numbered(number: u64, most: u64, refusal: Refusal) -> Result<(), Refusal>
    ensures { result ≡ verdict (refuse refusal (not (within 1 most number)) ∷ []) }
{
    refuse_if(!(1..=most).contains(&number), refusal)
}

// Refuses a value that no road may have.
fn check_value<M: Measure>(value: u64) -> Result<(), Refusal>
    ensures { result ≡ verdict (value_check M.Measure.scale value ∷ []) }
{
    refuse_if(!M::is_lawful(value), Refusal::NotLawful)
}

// Refuses counts over their limits, and a junction table that is too short for them.
fn check_start(
    junction_count: u64,
    district_count: u64,
    junctions: &[Junction],
) -> Result<(), Refusal>
    ensures { result ≡ verdict (start_checks junction_count district_count junctions.now) }
{
    check_numbered(junction_count, MOST_JUNCTIONS, Refusal::BadCount)?;
    check_numbered(district_count, MOST_DISTRICTS, Refusal::BadCount)?;
    used(junctions, junction_count)?;
    Ok(())
}

impl Rest {
    // A new drawing under the measure M: every junction in district 0, and no road.
    pub fn start<M: Measure>(
        junction_count: u64,
        district_count: u64,
        junctions: &mut [Junction],
    ) -> Result<Rest, Refusal>
        ensures { StartsWithNoRoad M.Measure.scale junction_count district_count junctions.old result junctions.new }
    {
        check_start(junction_count, district_count, junctions)?;
        junctions[..junction_count as usize].fill(Junction { district: 0 });
        Ok(Rest {
            tag: M::TAG,
            junctions: junction_count,
            districts: district_count,
            roads: 0,
        })
    }

    // Appends an open road between two junctions, and answers its number.
    pub fn add<M: Measure>(
        &mut self,
        roads: &mut [Road],
        first: u64,
        second: u64,
        value: u64,
    ) -> Result<u64, Refusal>
        ensures { AppendsAnOpenRoad M.Measure.scale self.old roads.old first second value result self.new roads.new }
    {
        self.check_add::<M>(roads, first, second, value)?;
        roads[self.roads as usize] = Road {
            first,
            second,
            value,
            mark: Mark::Open,
        };
        self.roads += 1;
        Ok(self.roads)
    }

    // Changes the value of a road, open or closed.
    pub fn set<M: Measure>(&self, roads: &mut [Road], road: u64, value: u64) -> Result<(), Refusal>
        ensures { ChangesOneValue M.Measure.scale self.now roads.old road value result roads.new }
    {
        self.check_measure::<M>()?;
        self.check_roads(roads)?;
        check_numbered(road, self.roads, Refusal::NoRoad)?;
        check_value::<M>(value)?;
        roads[road as usize - 1].value = value;
        Ok(())
    }

    // Closes a road; a closed one stays closed. (The rules name this call and the next; both are one line on `mark`.)
    pub fn close(&self, roads: &mut [Road], road: u64) -> Result<(), Refusal>
        ensures { ChangesOneMark self.now roads.old road Closed result roads.new }
    {
        self.mark(roads, road, Mark::Closed)
    }

    // Opens a road again; an open one stays open.
    pub fn reopen(&self, roads: &mut [Road], road: u64) -> Result<(), Refusal>
        ensures { ChangesOneMark self.now roads.old road Open result roads.new }
    {
        self.mark(roads, road, Mark::Open)
    }

    // Moves a junction to a district.
    pub fn assign(
        &self,
        junctions: &mut [Junction],
        junction: u64,
        district: u64,
    ) -> Result<(), Refusal>
        ensures { MovesOneJunction self.now junctions.old junction district result junctions.new }
    {
        self.check_junctions(junctions)?;
        check_numbered(junction, self.junctions, Refusal::NoJunction)?;
        self.check_district(district)?;
        junctions[junction as usize - 1].district = district;
        Ok(())
    }

    fn mark(&self, roads: &mut [Road], road: u64, mark: Mark) -> Result<(), Refusal>
        ensures { ChangesOneMark self.now roads.old road mark result roads.new }
    {
        self.check_roads(roads)?;
        check_numbered(road, self.roads, Refusal::NoRoad)?;
        roads[road as usize - 1].mark = mark;
        Ok(())
    }

    // Refuses another measure than the drawing's.
    pub fn check_measure<M: Measure>(&self) -> Result<(), Refusal>
        ensures { result ≡ verdict (measure_check M.Measure.scale self.now ∷ []) }
    {
        refuse_if(self.tag != M::TAG, Refusal::OtherMeasure)
    }

    // Refuses a junction table that is too short for the drawing. (One line on `used`, as the next: of one call for both tables a
    // caller would have to say which count it means.)
    pub fn check_junctions(&self, junctions: &[Junction]) -> Result<(), Refusal>
        ensures { result ≡ verdict (size_check self.now.junctions (length junctions.now) ∷ []) }
    {
        used(junctions, self.junctions)?;
        Ok(())
    }

    // Refuses a road table that is too short for the drawing.
    pub fn check_roads(&self, roads: &[Road]) -> Result<(), Refusal>
        ensures { result ≡ verdict (size_check self.now.roads (length roads.now) ∷ []) }
    {
        used(roads, self.roads)?;
        Ok(())
    }

    // Refuses what no road can be added for.
    fn check_add<M: Measure>(
        &self,
        roads: &[Road],
        first: u64,
        second: u64,
        value: u64,
    ) -> Result<(), Refusal>
        ensures { result ≡ verdict (add_checks M.Measure.scale self.now roads.now first second value) }
    {
        self.check_measure::<M>()?;
        self.check_roads(roads)?;
        self.check_record::<M>(first, second, value)?;
        let full = self.roads >= MOST_ROADS || self.roads >= roads.len() as u64;
        refuse_if(full, Refusal::RoadsFull)
    }

    // Refuses a number that no district of the drawing has.
    pub fn check_district(&self, district: u64) -> Result<(), Refusal>
        ensures { result ≡ verdict (district_check self.now district ∷ []) }
    {
        refuse_if(self.districts <= district, Refusal::NoDistrict)
    }

    // Refuses ends that are no two junctions of the drawing, and a value that a road may not have. (Three numbers, as the
    // rules give them to `add`.)
    pub fn check_record<M: Measure>(
        &self,
        first: u64,
        second: u64,
        value: u64,
    ) -> Result<(), Refusal>
        ensures { result ≡ verdict (record_checks M.Measure.scale self.now first second value) }
    {
        check_numbered(first, self.junctions, Refusal::NoJunction)?;
        check_numbered(second, self.junctions, Refusal::NoJunction)?;
        refuse_if(first == second, Refusal::EndsAlike)?;
        check_value::<M>(value)
    }
}
