// The state of a drawing at rest.
ghost use Rattle.std.specs.Prelude.{◌≡◌, ◌≤◌};

// A drawing at rest: the tag of its measure, and how many junctions, districts and roads it has. Its junctions and roads
// stand in tables that each call is lent: a rule of the project, so a count here has its table elsewhere. It moves, and is never
// copied.
#[derive(Drop)]
pub struct Rest {
    pub(crate) tag: u64,
    pub(crate) junctions: u64,
    pub(crate) districts: u64,
    pub(crate) roads: u64,
    ghost few_junctions: { junctions ≤ 4096 },
    ghost few_districts: { districts ≤ 64 },
    ghost few_roads: { roads ≤ 16384 },
}

impl Rest {
    // The tag of the drawing's measure.
    pub fn tag(&self) -> u64
        ensures { result ≡ self.now.tag }
    {
        self.tag
    }

    // How many junctions the drawing has.
    pub fn junctions(&self) -> u64
        ensures { result ≡ self.now.junctions }
    {
        self.junctions
    }

    // How many districts the drawing has.
    pub fn districts(&self) -> u64
        ensures { result ≡ self.now.districts }
    {
        self.districts
    }

    // How many roads have been added.
    pub fn roads(&self) -> u64
        ensures { result ≡ self.now.roads }
    {
        self.roads
    }
}
