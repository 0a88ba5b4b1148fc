use crate::buffers::Bench;
use crate::tally::Tally;
use std::alloc::Global;

/// What all trials share: the allocator, the buffers that calls work with, and the counts.
#[derive(Drop)]
pub(crate) struct Session {
    pub heap: Global,
    pub bench: Bench,
    pub tally: Tally,
}
