// Finding the borders of a drawing.
ghost use Rattle.std.specs.Prelude.{◌≡◌, ℕ, ◌≤◌, false, ◌&&◌, ◌||◌, ◌==◌, map};
ghost use Rattle.network.specs.Networks.{Network, is_border};
ghost use Rattle.drawing.specs.Marked.{is_marked};
ghost use Rattle.drawing.specs.Borders.{road_of, places_in, road_crosses, CountsTheBorders, ListsTheBorders};

use super::tables::used;
use super::{Junction, Mark, Marks, Refusal, Rest, Road, Used};

impl<'a> Used<'a> {
    // Whether a road is open and leads into another district.
    fn crosses(&self, road: &Road) -> bool
        ensures { result ≡ road_crosses (places_in self.now.junctions.now) road.now }
    {
        road.mark == Mark::Open && self.district_of(road.first) != self.district_of(road.second)
    }

    // Marks both ends of a road that crosses.
    fn mark_ends(&self, road: &Road, marks: &mut Marks)
        ensures { (v : ℕ) → v ≤ 4096 → is_marked marks.new v ≡ (is_marked marks.old v || (road_crosses (places_in self.now.junctions.now) road.now && (road.now.first == v || road.now.second == v))) }
    {
        if self.crosses(road) {
            marks.mark(road.first);
            marks.mark(road.second);
        }
    }

    // Marks the borders, both ends of each road that crosses, where nothing is marked yet. (The marks are lent: they are too many to
    // be handed from call to call.)
    fn mark_borders(&self, marks: &mut Marks)
        requires { (v : ℕ) → is_marked marks.old v ≡ false }
        ensures { (net : Network) → net.places ≡ places_in self.now.junctions.now → net.roads ≡ map road_of self.now.roads.now → (v : ℕ) → v ≤ 4096 → is_marked marks.new v ≡ is_border net v }
    {
        for road in self.roads {
            self.mark_ends(road, marks);
        }
    }
}

impl Rest {
    // How many junctions are borders: ends of an open road into another district. (The rules lend each table for itself.)
    pub fn count_borders(&self, junctions: &[Junction], roads: &[Road]) -> Result<u64, Refusal>
        ensures { CountsTheBorders self.now junctions.now roads.now result }
    {
        let used_parts = self.used(junctions, roads)?;
        let mut marks = Marks::new();
        used_parts.mark_borders(&mut marks);
        Ok(marks.count(self.junctions))
    }

    // Writes the borders to the front of a list, ascending, and answers how many there are. (The list is lent: no heap here.)
    pub fn list_borders(
        &self,
        junctions: &[Junction],
        roads: &[Road],
        list: &mut [u64],
    ) -> Result<u64, Refusal>
        ensures { ListsTheBorders self.now junctions.now roads.now list.old result list.new }
    {
        let used_parts = self.used(junctions, roads)?;
        let mut marks = Marks::new();
        used_parts.mark_borders(&mut marks);
        let needed = marks.count(self.junctions);
        used(list, needed)?;
        marks.list(self.junctions, list);
        Ok(needed)
    }
}
