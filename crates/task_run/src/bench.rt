//! What an instruction changes.

use module_area::Control;
use s370_state::{Cpu, TaskIo};
use space_map::TaskSpace;

/// What a task's instructions work on: its processor, its storage, its input and output, and the sessions that it opens
/// and closes.
#[derive(Drop)]
pub struct Bench<'a> {
    pub cpu: Cpu,
    pub space: TaskSpace<'a>,
    pub io: TaskIo,
    pub control: Control,
}
