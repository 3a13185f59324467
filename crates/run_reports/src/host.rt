//! Threads, memory and gate of a run.
use std::alloc::Global;

/// What a run is given: threads and waiting, memory, and the gate that each task passes.
#[derive(Drop)]
pub struct Host<'a, T, G> {
    pub rt: &'a T,
    pub alloc: Global,
    pub gate: &'a G,
}
