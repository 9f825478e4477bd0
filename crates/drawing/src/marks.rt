// Marks on numbers: one for each junction that there may be.
ghost use Rattle.std.specs.Prelude.{◌≡◌, ℕ, ◌≤◌, ◌||◌, ◌==◌, false, ◌++◌, length, drop, filter};
ghost use Rattle.drawing.specs.Marked.{is_marked};
ghost use Rattle.std.specs.List.{range_with_len};

use super::MOST_JUNCTIONS;

// How many numbers can be marked: 0, and each number that a junction may have.
const MARKS: usize = MOST_JUNCTIONS as usize + 1;

// Which of the numbers 0 to 4,096 are marked. They lie where they are used, so that marking never wants memory.
#[derive(Drop)]
pub struct Marks {
    set: [bool; MARKS],
}

impl Marks {
    // No number is marked.
    pub fn new() -> Marks
        ensures { (v : ℕ) → is_marked result v ≡ false }
    {
        Marks {
            set: [false; MARKS],
        }
    }

    // Marks a number; one above 4,096 has no mark.
    pub fn mark(&mut self, v: u64)
        ensures { (k : ℕ) → k ≤ 4096 → is_marked self.new k ≡ (v == k || is_marked self.old k) }
    {
        if v <= MOST_JUNCTIONS {
            self.set[v as usize] = true;
        }
    }

    // Whether a number is marked.
    pub fn has(&self, v: u64) -> bool
        ensures { result ≡ is_marked self.now v }
    {
        self.set.get(v as usize).copied().unwrap_or(false)
    }

    // How many of the numbers 1 to n are marked.
    pub(crate) fn count(&self, n: u64) -> u64
        requires { n ≤ 4096 }
        ensures { result ≡ length (filter (is_marked self.now) (range_with_len 1 n)) }
    {
        (1..n + 1).filter(|&v| self.has(v)).count() as u64
    }

    // Writes those of the numbers 1 to n that are marked to the front of a list, ascending.
    pub(crate) fn list(&self, n: u64, list: &mut [u64])
        requires few { n ≤ 4096 }
        requires room { length (filter (is_marked self.now) (range_with_len 1 n)) ≤ length list.old }
        ensures { list.new ≡ filter (is_marked self.now) (range_with_len 1 n) ++ drop (length (filter (is_marked self.now) (range_with_len 1 n))) list.old }
    {
        for (i, v) in (1..n + 1).filter(|&v| self.has(v)).enumerate() {
            list[i] = v;
        }
    }
}
