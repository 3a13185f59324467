//! Tasks and places number from 0, sessions from 1, each over the whole job.

/// A task's index among the tasks of the job, from 0.
#[derive(Clone, Copy)]
pub struct TaskNo(pub u32);

/// A place's index among the places of all modules, from 0.
#[derive(Clone, Copy)]
pub struct PlaceNo(pub u32);

/// A session's number, from 1.
#[derive(Clone, Copy)]
pub struct SessNo(pub u32);
