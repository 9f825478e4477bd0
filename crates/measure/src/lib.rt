// What a measure of roads is, the laws that every measure keeps, and the two measures: metres and clearance.
#![tactic(auto)]

ghost use Rattle.std.specs.Prelude.{◌≡◌, ℕ, refl};
ghost use Rattle.measure.specs.Scale.{Scale, HasConstants, Laws, counts};
ghost use Rattle.measure.specs.Measures.{metres, clearance, TagsDiffer};
ghost use Rattle.measure.specs.Pairs.{ClearanceThenMetresIsNoMeasure};
ghost use Rattle.measure.specs.Laws.{metres_laws, clearance_laws};

// A measure says how roads are valued: which words are values, which of two is better, how two join into one.
pub trait Measure {
    // the measure's number, as a book holds it
    const TAG: u64;

    // the value of the walk of no road
    const START: u64;

    // the value that says that there is no walk: a word like the others, since books and tables hold words
    const NONE: u64;

    // The three constants in clauses.
    ghost TAG: { ℕ };

    ghost START: { ℕ };

    ghost NONE: { ℕ };

    // The measure as mathematics has it.
    ghost scale: { Scale };

    // Whether the word is a value of this measure.
    fn is_value(word: u64) -> bool
        ensures { result ≡ scale.value word };

    // Whether a road may have this value. (Each measure writes this and `is_value` itself, though both here go up to a limit: a limit
    // in the trait would bind every measure to one.)
    fn is_lawful(word: u64) -> bool
        ensures { result ≡ scale.lawful word };

    // Whether a is better than b, each taken for none if it is no value.
    fn better(a: u64, b: u64) -> bool
        ensures { result ≡ scale.better (counts scale a) (counts scale b) };

    // The value of two walks, one after the other, each taken for none if it is no value.
    fn join(a: u64, b: u64) -> u64
        ensures { result ≡ scale.join (counts scale a) (counts scale b) };

    // What the word counts as: itself if it is a value, else none.
    fn counted(word: u64) -> u64
        ensures { result ≡ counts scale word }
    {
        if Self::is_value(word) {
            word
        } else {
            Self::NONE
        }
    }

    ghost constants: { HasConstants scale TAG START NONE };

    ghost shows: { Laws scale };
}

// The length of a walk in metres.
pub struct Metres;

impl Measure for Metres {
    const TAG: u64 = 1;

    const START: u64 = 0;

    const NONE: u64 = 4_294_967_295;

    ghost TAG = { metres.tag };

    ghost START = { metres.start };

    ghost NONE = { metres.none };

    ghost scale = { metres };

    ghost constants = { record { tag = refl; start = refl; none = refl } };

    ghost shows = { metres_laws };

    fn is_value(word: u64) -> bool {
        word <= Self::NONE
    }

    fn is_lawful(word: u64) -> bool {
        (1..=1_000_000).contains(&word)
    }

    fn better(a: u64, b: u64) -> bool {
        Self::counted(a) < Self::counted(b)
    }

    fn join(a: u64, b: u64) -> u64 {
        (Self::counted(a) + Self::counted(b)).min(Self::NONE)
    }
}

// The clearance of a walk in centimetres: the height of its lowest road.
pub struct Clearance;

impl Measure for Clearance {
    const TAG: u64 = 2;

    const START: u64 = 65_535;

    const NONE: u64 = 0;

    ghost TAG = { clearance.tag };

    ghost START = { clearance.start };

    ghost NONE = { clearance.none };

    ghost scale = { clearance };

    ghost constants = { record { tag = refl; start = refl; none = refl } };

    ghost shows = { clearance_laws };

    fn is_value(word: u64) -> bool {
        word <= Self::START
    }

    fn is_lawful(word: u64) -> bool {
        (1..=2_000).contains(&word)
    }

    fn better(a: u64, b: u64) -> bool {
        Self::counted(b) < Self::counted(a)
    }

    fn join(a: u64, b: u64) -> u64 {
        Self::counted(a).min(Self::counted(b))
    }
}

// The theorem that "clearance first, then metres" is no measure; the call itself does nothing.
pub fn clearance_then_metres_is_no_measure()
    ensures { ClearanceThenMetresIsNoMeasure }
{}

// The theorem that no two measures share a tag; the call itself does nothing.
pub fn tags_differ()
    ensures { TagsDiffer }
{}
