//! The blocks of a task set.

/// The block that is open. Of a script or a job: the place of its thread, its first line, and the place among the lines of the
/// judged workload where its operations begin.
#[derive(Clone, Copy)]
pub enum Block {
    Outside,
    Table,
    Script {
        thread: usize,
        line: u32,
        from: usize,
    },
}

/// A repeat that is open: its rounds, and where the lines of the first begin.
#[derive(Clone, Copy)]
pub struct Repeat {
    pub times: u64,
    pub from: usize,
}
