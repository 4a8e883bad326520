//! An entry of a port, to be read.
ghost use Rattle.std.specs.Prelude.{◌≡◌};
ghost use Rattle.ports.specs.AskedViews.{entry_of_view};

use space::Asked;

/// An entry of a port: lent by its log where it is kept whole, or put together from its row.
#[derive(Debug, Drop)]
pub enum AskedView<'a> {
    /// It is kept whole.
    Kept(&'a Asked),
    /// It was put together. Its lists are empty, so that it took no memory.
    Made(Asked),
}

impl<'a> AskedView<'a> {
    /// The entry.
    pub fn entry(&self) -> &Asked
        ensures { result.now ≡ entry_of_view self.now }
    {
        match self {
            AskedView::Kept(entry) => entry,
            AskedView::Made(entry) => entry,
        }
    }
}
