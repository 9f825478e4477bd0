// Which roads a search may use.

// All open roads, or the open roads with both ends in one district.
#[derive(Clone, Copy, PartialEq, Eq, Debug)]
pub enum Scope {
    Everywhere,
    Inside(u64),
}
