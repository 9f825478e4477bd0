// A cursor on a row of a book.
ghost use Rattle.std.specs.Prelude.{◌≡◌, drop};
ghost use Rattle.book.specs.Joining.{front};

// What is left of a row, from the entry under the cursor on.
#[derive(Clone, Copy, PartialEq, Eq, Debug)]
pub(crate) struct Cursor<'a> {
    pub(crate) rest: &'a [u64],
}

impl<'a> Cursor<'a> {
    // The entry under the cursor: its hub's name and its value.
    pub(crate) fn entry(&self) -> Option<(u64, u64)>
        ensures { result ≡ front self.now.rest.now }
    {
        match self.rest {
            [name, value, ..] => Some((*name, *value)),
            _ => None,
        }
    }

    // Steps over the entry under the cursor.
    pub(crate) fn step(&mut self)
        ensures { self.new.rest.now ≡ drop 2 self.old.rest.now }
    {
        match self.rest {
            [_, _, rest @ ..] => self.rest = rest,
            _ => self.rest = &[],
        }
    }
}
