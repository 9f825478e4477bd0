// The join of two rows.
ghost use Rattle.std.specs.Prelude.{◌≡◌};
ghost use Rattle.book.specs.Joining.{kept};
ghost use Rattle.book.specs.Opened.{JoinsTwoRows};

use super::cursor::Cursor;
use measure::Measure;

// The better of the best offer so far and a new one, and of equally good ones the first. An offer of none is no offer.
fn keep<M: Measure>(best: Option<(u64, u64)>, value: u64, hub: u64) -> Option<(u64, u64)>
    ensures { result ≡ kept M.Measure.scale best value hub }
{
    if value == M::NONE {
        return best;
    }
    match best {
        Some((so_far, _)) if !M::better(value, so_far) => best,
        _ => Some((value, hub)),
    }
}

// The best value that two rows give, joined at the hubs that they share, and the first hub that gives it. (Both entries in one
// pattern of the loop would read plainer, and took 5 in 100 longer.)
pub fn join_rows<M: Measure>(first: &[u64], second: &[u64]) -> Option<(u64, u64)>
    ensures { JoinsTwoRows M.Measure.scale first.now second.now result }
{
    let mut left = Cursor { rest: first };
    let mut right = Cursor { rest: second };
    let mut best = None;
    while let Some((name, value)) = left.entry() {
        let Some((other, worth)) = right.entry() else {
            return best;
        };
        if name < other {
            left.step();
        } else if other < name {
            right.step();
        } else {
            best = keep::<M>(best, M::join(value, worth), name);
            left.step();
            right.step();
        }
    }
    best
}
