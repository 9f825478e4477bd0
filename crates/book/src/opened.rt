// An opened book.
use super::sections::Layout;

// A book that was opened: words held for reading, and their layout, that is the counts that they begin with and where their six
// sections lie.
#[derive(Drop)]
pub struct Book<'a> {
    pub(crate) words: &'a [u64],
    pub(crate) layout: Layout,
}
