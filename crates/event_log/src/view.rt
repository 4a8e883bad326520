//! An event of a log, to be read.
ghost use Rattle.std.specs.Prelude.{◌≡◌};
ghost use Rattle.event_log.specs.Views.{event_viewed};

use history::Event;

/// An event of a log: lent by it where it is kept whole, or put together from its row.
#[derive(Debug, Drop)]
pub enum EventView<'a> {
    /// It is kept whole.
    Kept(&'a Event),
    /// It was put together.
    Made(Event),
}

impl<'a> EventView<'a> {
    /// The event.
    pub fn event(&self) -> &Event
        ensures { result.now ≡ event_viewed self.now }
    {
        match self {
            EventView::Kept(event) => event,
            EventView::Made(event) => event,
        }
    }
}
