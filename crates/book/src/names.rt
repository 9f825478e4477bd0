// How the rows of a book name their hubs.

// Border rows name a hub by its rank in the border order, from 0; district rows by its junction.
#[derive(Clone, Copy, PartialEq, Eq, Debug)]
pub(crate) enum Names {
    Ranks,
    Hubs,
}
