//! The chunks of clients, with their moments in a list of their own, so that a search for what is due reads no chunk.
ghost use Rattle.std.specs.Prelude.{◌≡◌, [], ◌<◌, ◌≤◌, length, vec_len, vec_capacity, filter, insert, slice_set, slice_index_or, OnOk};
ghost use Rattle.dgc_server.specs.declared.clients.Chunk.{Chunk};
ghost use Rattle.dgc_server.specs.Chunks.{ends_of, is_filled, next_due, least_end};

use crate::clients::Chunk;
use crate::entry::ClientEntry;
use crate::table;
use lane_kernels::first_due;
use std::alloc::{AllocError, Global};

/// Chunks of clients, and beside them the moment of each.
pub struct Board {
    pub chunks: Vec<Chunk>,
    /// The moments of the chunks, in their order.
    pub ends: Vec<u64>,
}

// Written out, so that whoever owns one has one call at each exit, and not the drop of each field.
impl Drop for Board {
    fn drop(self) {
        let Board { chunks, ends } = self;
        drop(chunks);
        drop(ends);
    }
}

impl Board {
    /// No chunks.
    pub fn new(alloc: Global) -> Board
        ensures chunks { result.chunks.items ≡ [] }
        ensures ends { result.ends.items ≡ [] }
    {
        Board {
            chunks: Vec::new(alloc),
            ends: Vec::new(alloc),
        }
    }

    /// The number of chunks.
    pub fn len(&self) -> usize
        ensures { result ≡ length self.now.chunks.items }
    {
        self.chunks.len()
    }

    /// The clients of the chunk of this index.
    pub fn clients(&self, i: usize) -> &[ClientEntry]
        requires { i < length self.now.chunks.items }
        ensures { (d : Chunk)
            → result.now ≡ (slice_index_or self.now.chunks.items i d).entries.items }
    {
        &self.chunks[i].entries
    }

    /// The index of the first chunk, from the index `from` on, whose moment is no later than `to`; the number of chunks where there is none.
    pub fn next_due(&self, from: usize, to: u64) -> usize
        requires within { from ≤ length self.now.chunks.items }
        requires ends { self.now.ends.items ≡ ends_of self.now.chunks.items }
        ensures { result ≡ next_due (ends_of self.now.chunks.items) from to }
    {
        next_end(&self.ends, from, to)
    }

    /// The least moment of a chunk, and `u64::MAX` where there is no chunk.
    pub fn least_end(&self) -> u64
        requires { self.now.ends.items ≡ ends_of self.now.chunks.items }
        ensures { result ≡ least_end (ends_of self.now.chunks.items) }
    {
        least_of(&self.ends)
    }

    /// Notes the moment of the chunk of this index, where beside the other chunks are their moments.
    pub fn note_end(&mut self, at: usize)
        requires within { at < length self.old.chunks.items }
        requires long { length self.old.ends.items ≡ length self.old.chunks.items }
        requires others { (d : Chunk)
            → slice_set self.old.ends.items at (slice_index_or self.old.chunks.items at d).least
            ≡ ends_of self.old.chunks.items }
        ensures chunks { self.new.chunks.items ≡ self.old.chunks.items }
        ensures ends { self.new.ends.items ≡ ends_of self.new.chunks.items }
    {
        let end = self.chunks[at].least;
        self.ends[at] = end;
    }

    /// Makes room for one more chunk. A refusal leaves all as it was.
    pub fn reserve(&mut self) -> Result<(), AllocError>
        ensures chunks { self.new.chunks.items ≡ self.old.chunks.items }
        ensures ends { self.new.ends.items ≡ self.old.ends.items }
        ensures room { OnOk result ((vec_len self.new.chunks < vec_capacity self.new.chunks)
            × (vec_len self.new.ends < vec_capacity self.new.ends)) }
    {
        self.chunks.reserve(1)?;
        self.ends.reserve(1)
    }

    /// Inserts a chunk, for which there is room.
    pub fn insert(&mut self, at: usize, chunk: Chunk)
        requires room { vec_len self.old.chunks < vec_capacity self.old.chunks }
        requires beside { vec_len self.old.ends < vec_capacity self.old.ends }
        requires within { at ≤ length self.old.chunks.items }
        requires ends { self.old.ends.items ≡ ends_of self.old.chunks.items }
        ensures chunks { self.new.chunks.items ≡ insert self.old.chunks.items at chunk }
        ensures ends { self.new.ends.items ≡ ends_of self.new.chunks.items }
    {
        table::insert_within(&mut self.ends, at, chunk.least);
        table::insert_within(&mut self.chunks, at, chunk);
    }

    /// Keeps the chunks in which there is a client. It takes no memory.
    pub fn keep_filled(&mut self)
        requires { self.old.ends.items ≡ ends_of self.old.chunks.items }
        ensures chunks { self.new.chunks.items ≡ filter is_filled self.old.chunks.items }
        ensures ends { self.new.ends.items ≡ ends_of self.new.chunks.items }
    {
        retain_filled(&mut self.chunks);
        if self.chunks.len() == self.ends.len() {
            return;
        }
        follow(&mut self.ends, &self.chunks);
    }
}

/// Returns the index of the first of these moments, from the index `from` on, that is no later than `to`; the number of moments where there is none.
fn next_end(ends: &[u64], from: usize, to: u64) -> usize
    requires { from ≤ length ends.now }
    ensures { result ≡ next_due ends.now from to }
{
    match first_due(&ends[from..], to) {
        Some(i) => from + i,
        None => ends.len(),
    }
}

/// Returns the least of these moments, and `u64::MAX` where there is none.
fn least_of(ends: &[u64]) -> u64
    ensures { result ≡ least_end ends.now }
{
    let mut least = u64::MAX;
    for end in ends {
        least = least.min(*end);
    }
    least
}

/// Keeps the chunks in which there is a client.
fn retain_filled(chunks: &mut Vec<Chunk>)
    ensures { chunks.new.items ≡ filter is_filled chunks.old.items }
{
    chunks.retain(|chunk| !chunk.entries.is_empty());
}

/// Makes these the moments of the chunks again, where chunks have gone. It takes no memory.
fn follow(ends: &mut Vec<u64>, chunks: &[Chunk])
    requires { length chunks.now ≤ vec_len ends.old }
    ensures { ends.new.items ≡ ends_of chunks.now }
{
    ends.truncate(chunks.len());
    for i in 0..chunks.len() {
        ends[i] = chunks[i].least;
    }
}
