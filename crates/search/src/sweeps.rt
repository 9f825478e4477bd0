// A search: sweeps over the roads, each of which improves what stands at its two ends, until a sweep changes nothing.
ghost use Rattle.std.specs.Prelude.{◌≡◌, ◌-◌, false, [], ◌∷◌, map, length, reverse, slice_index, slice_index_or, slice_set};
ghost use Rattle.measure.specs.Scale.{counts};
ghost use Rattle.network.specs.Walks.{arc};
ghost use Rattle.drawing.specs.Borders.{places_in};
ghost use Rattle.search.specs.Searching.{LeavesTheBest, StayWhereShort};
ghost use Rattle.search.specs.Sweeps.{is_used, arcs_over, there_and_back, after_arc, after_arcs, after_sweeps};

use super::Scope;
use drawing::{Junction, Mark, Rest, Road, Used};
use measure::Measure;

// The word of a junction; none where there is no word for it.
fn word_of<M: Measure>(values: &[u64], junction: u64) -> u64
    ensures { result ≡ slice_index_or values.now (junction - 1) M.Measure.scale.none }
{
    values
        .get(junction.saturating_sub(1) as usize)
        .copied()
        .unwrap_or(M::NONE)
}

// Writes the word of a junction, where there is one for it.
fn write(values: &mut [u64], junction: u64, word: u64)
    ensures { values.new ≡ slice_set values.old (junction - 1) word }
{
    let index = junction.saturating_sub(1) as usize;
    if index < values.len() {
        values[index] = word;
    }
}

// Improves the word of a junction by an arc that leads there, and says whether what the arc brings is better.
fn improve<M: Measure>(values: &mut [u64], from: u64, to: u64, value: u64) -> bool
    ensures written { values.new ≡ after_arc M.Measure.scale values.old (arc from to value) }
    ensures told { result ≡ false → values.new ≡ values.old }
{
    let brought = M::join(value, word_of::<M>(values, from));
    let improves = M::better(brought, word_of::<M>(values, to));
    if improves {
        write(values, to, brought);
    }
    improves
}

// Leaves what each word counts as: itself, or none if it is no value of the measure.
fn make_values<M: Measure>(values: &mut [u64])
    ensures { values.new ≡ map (counts M.Measure.scale) values.old }
{
    for word in values.iter_mut() {
        *word = M::counted(*word);
    }
}

// What a search goes over: the parts of the tables that the drawing uses, and its scope.
#[derive(Clone, Copy, PartialEq, Eq, Debug)]
struct Searched<'a> {
    used: Used<'a>,
    scope: Scope,
}

impl<'a> Searched<'a> {
    // Whether the search may use a road: it is open, and lies in the scope.
    fn uses(&self, road: &Road) -> bool
        ensures { result ≡ is_used (places_in self.now.used.junctions.now) self.now.scope road.now }
    {
        road.mark == Mark::Open
            && match self.scope {
                Scope::Everywhere => true,
                Scope::Inside(k) => {
                    self.used.district_of(road.first) == k
                        && self.used.district_of(road.second) == k
                }
            }
    }

    // Improves the words at both ends of a road, and says whether any changed.
    fn improve_ends<M: Measure>(&self, road: &Road, values: &mut [u64]) -> bool
        ensures written { values.new ≡ after_arcs M.Measure.scale values.old (arcs_over self.now (road.now ∷ [])) }
        ensures told { result ≡ false → values.new ≡ values.old }
    {
        if !self.uses(road) {
            return false;
        }
        let there = improve::<M>(values, road.first, road.second, road.value);
        let back = improve::<M>(values, road.second, road.first, road.value);
        there || back
    }

    // Improves the words at the ends of each road, from the first to the last, and says whether any changed.
    fn go_there<M: Measure>(&self, values: &mut [u64]) -> bool
        ensures written { values.new ≡ after_arcs M.Measure.scale values.old (arcs_over self.now self.now.used.roads.now) }
        ensures told { result ≡ false → values.new ≡ values.old }
    {
        let mut changed = false;
        for road in self.used.roads {
            changed |= self.improve_ends::<M>(road, values);
        }
        changed
    }

    // Improves the words at the ends of each road, from the last to the first, and says whether any changed. (A function of its own:
    // one over any iterator would have to say what the iterator yields.)
    fn go_back<M: Measure>(&self, values: &mut [u64]) -> bool
        ensures written { values.new ≡ after_arcs M.Measure.scale values.old (arcs_over self.now (reverse self.now.used.roads.now)) }
        ensures told { result ≡ false → values.new ≡ values.old }
    {
        let mut changed = false;
        for road in self.used.roads.iter().rev() {
            changed |= self.improve_ends::<M>(road, values);
        }
        changed
    }

    // Goes over all roads, there and back, and says whether any word changed.
    #[tactic(auto, using(crate::proofs::Turns::roads_and_others))]
    fn sweep<M: Measure>(&self, values: &mut [u64]) -> bool
        ensures written { values.new ≡ after_arcs M.Measure.scale values.old (arcs_over self.now (there_and_back self.now.used.roads.now)) }
        ensures told { result ≡ false → values.new ≡ values.old }
    {
        let there = self.go_there::<M>(values);
        let back = self.go_back::<M>(values);
        there || back
    }

    // Sweeps until nothing changes, and at most as often as there are words: what more sweeps would leave is the same.
    fn settle<M: Measure>(&self, values: &mut [u64])
        ensures { values.new ≡ after_sweeps M.Measure.scale (arcs_over self.now (there_and_back self.now.used.roads.now)) (length values.old) values.old }
    {
        for _ in 0..values.len() {
            if !self.sweep::<M>(values) {
                return;
            }
        }
    }
}

// Leaves at each junction the best over an offer joined with a walk in the scope that goes on from there; none where no offer reaches.
// Where a table is too short, the words stay.
pub fn search<M: Measure>(
    drawing: &Rest,
    scope: Scope,
    junctions: &[Junction],
    roads: &[Road],
    values: &mut [u64],
)
    ensures best { LeavesTheBest M.Measure.scale drawing.now junctions.now roads.now scope values.old values.new }
    ensures short { StayWhereShort drawing.now junctions.now roads.now values.old values.new }
{
    let Ok(used) = drawing.used(junctions, roads) else {
        return;
    };
    make_values::<M>(values);
    let searched = Searched { used, scope };
    searched.settle::<M>(values);
}
