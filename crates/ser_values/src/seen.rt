//! Which nodes have handles while a graph is walked.
ghost use Rattle.std.specs.Prelude.{◌≡◌, ◌<◌, ◌++◌, [], ◌∷◌, false, OnOk, IfOk, length};
ghost use Rattle.ser_values.specs.Node.{has};
ghost use Rattle.ser_values.specs.Walk.{front};

use std::alloc::{AllocError, Global};

/// The state of a node in a walk.
#[derive(Clone, Copy, Debug, PartialEq, Eq)]
pub(crate) enum Mark {
    /// It has no handle.
    New,
    /// It is a description that has a handle and isn't written whole.
    Unread,
    /// It has a handle.
    Done,
}

/// The nodes that have handles, in their order, and the descriptions among them that are unread.
#[derive(Debug)]
pub(crate) struct Seen {
    pub(crate) order: Vec<u32>,
    pub(crate) unread: Vec<u32>,
    pub(crate) marks: Vec<Mark>,
}

// Written out, so that whoever owns one has one call at each exit, and not the drop of each field.
impl Drop for Seen {
    fn drop(self) {
        let Seen {
            order,
            unread,
            marks,
        } = self;
        drop(order);
        drop(unread);
        drop(marks);
    }
}

impl Seen {
    ghost use Rattle.ser_values.specs.Seen.{IsKept};

    /// Of so many nodes none has a handle.
    pub(crate) fn new(alloc: Global, count: usize) -> Result<Seen, AllocError>
        ensures order { IfOk result (λ s. s.order.items ≡ []) }
        ensures unread { IfOk result (λ s. s.unread.items ≡ []) }
        ensures count { IfOk result (λ s. length s.marks.items ≡ count) }
        ensures kept { IfOk result (λ s. IsKept s) }
    {
        Ok(Seen {
            order: Vec::new(alloc),
            unread: Vec::new(alloc),
            marks: vec![in alloc; Mark::New; count]?,
        })
    }

    /// Returns whether a node has a handle.
    pub(crate) fn is_seen(&self, number: u32) -> bool
        requires kept { IsKept self.now }
        requires within { number < length self.now.marks.items }
        ensures { result ≡ has self.now.order.items number }
    {
        self.marks[number as usize] != Mark::New
    }

    /// Returns whether a node is an unread description.
    pub(crate) fn is_unread(&self, number: u32) -> bool
        requires kept { IsKept self.now }
        requires within { number < length self.now.marks.items }
        ensures { result ≡ has self.now.unread.items number }
    {
        self.marks[number as usize] == Mark::Unread
    }

    /// A node gets its handle.
    pub(crate) fn number(&mut self, number: u32) -> Result<(), AllocError>
        requires kept { IsKept self.old }
        requires within { number < length self.old.marks.items }
        requires unseen { has self.old.order.items number ≡ false }
        ensures order { OnOk result (self.new.order.items ≡ self.old.order.items ++ number ∷ []) }
        ensures unread { self.new.unread.items ≡ self.old.unread.items }
        ensures count { length self.new.marks.items ≡ length self.old.marks.items }
        ensures kept { OnOk result (IsKept self.new) }
    {
        self.order.push(number)?;
        self.marks[number as usize] = Mark::Done;
        Ok(())
    }

    /// A description gets its handle, and is unread.
    pub(crate) fn open(&mut self, number: u32) -> Result<(), AllocError>
        requires kept { IsKept self.old }
        requires within { number < length self.old.marks.items }
        requires unseen { has self.old.order.items number ≡ false }
        ensures order { OnOk result (self.new.order.items ≡ self.old.order.items ++ number ∷ []) }
        ensures unread { OnOk result (self.new.unread.items ≡ self.old.unread.items ++ number
            ∷ []) }
        ensures count { length self.new.marks.items ≡ length self.old.marks.items }
        ensures kept { OnOk result (IsKept self.new) }
    {
        self.order.push(number)?;
        self.unread.push(number)?;
        self.marks[number as usize] = Mark::Unread;
        Ok(())
    }

    /// The last unread description was written whole.
    pub(crate) fn close(&mut self)
        requires kept { IsKept self.old }
        ensures order { self.new.order.items ≡ self.old.order.items }
        ensures unread { self.new.unread.items ≡ front self.old.unread.items }
        ensures count { length self.new.marks.items ≡ length self.old.marks.items }
        ensures kept { IsKept self.new }
    {
        if let Some(number) = self.unread.pop() {
            self.marks[number as usize] = Mark::Done;
        }
    }

    /// The nodes that have handles, in their order.
    pub(crate) fn into_order(self) -> Vec<u32>
        ensures { result.items ≡ self.order.items }
    {
        let Seen {
            order,
            unread,
            marks,
        } = self;
        drop(unread);
        drop(marks);
        order
    }
}
