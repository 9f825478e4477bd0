// The parts of its tables that a drawing uses.
ghost use Rattle.std.specs.Prelude.{◌≡◌, ◌-◌, slice_index};
ghost use Rattle.drawing.specs.Borders.{places_in, UsesTheTables};

use super::tables::used;
use super::{Junction, Refusal, Rest, Road};

// The parts of the two tables that a drawing uses: an entry for each junction, and a record for each road added.
#[derive(Clone, Copy, PartialEq, Eq, Debug)]
pub struct Used<'a> {
    pub junctions: &'a [Junction],
    pub roads: &'a [Road],
}

impl<'a> Used<'a> {
    // The district of a junction. It is 0, and no `None`, where there is none: the definition of a border reads it so,
    // and two ends outside would differ from one in district 0.
    pub fn district_of(&self, v: u64) -> u64
        ensures { result ≡ slice_index (places_in self.now.junctions.now) (v - 1) }
    {
        self.junctions
            .get(v.saturating_sub(1) as usize)
            .map_or(0, |junction| junction.district)
    }
}

impl Rest {
    // The parts of the tables that the drawing uses, where these are long enough.
    pub fn used<'a>(
        &self,
        junctions: &'a [Junction],
        roads: &'a [Road],
    ) -> Result<Used<'a>, Refusal>
        ensures { UsesTheTables self.now junctions.now roads.now result }
    {
        Ok(Used {
            junctions: used(junctions, self.junctions)?,
            roads: used(roads, self.roads)?,
        })
    }
}
