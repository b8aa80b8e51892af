//! The limits of inputs, workloads and runs, each with its unit (this project's own).

/// The most bytes of the text of a workload.
pub const MOST_WORKLOAD_BYTES: usize = 1_048_576;

/// The most bytes of a certificate: a workload, the line `journal`, and the journal of a run.
pub const MOST_CERTIFICATE_BYTES: u64 = 134_217_728;

/// The most bytes of a name.
pub const MOST_NAME_BYTES: usize = 16;

/// The most processors of a workload.
pub const MOST_PROCESSORS: usize = 64;

/// The most sets of processors that a workload declares.
pub const MOST_SETS: usize = 8;

/// The most locks, and the most channels, of a workload.
pub const MOST_OBJECTS: usize = 256;

/// The most threads of a workload.
pub const MOST_THREADS: usize = 2048;

/// The most pairs of a thread and a lock of a workload.
pub const MOST_PAIRS: usize = 65_536;

/// The greatest limit of a workload: the most ticks of each processor.
pub const GREATEST_LIMIT: u32 = 100_000;

/// The most ticks of one run, and of one nap.
pub const GREATEST_SPAN: u32 = 100_000;

/// The most ticks of all processors together: the limit of a workload times the number of its processors.
pub const MOST_TICKS: u64 = 200_000;

/// The most operations of one script.
pub const MOST_OPERATIONS: usize = 256;

/// The most operations of all scripts of a workload together.
pub const MOST_OPERATIONS_OF_ALL: usize = 4096;

/// The most locks that a thread holds at once.
pub const MOST_HELD: usize = 8;

/// A log that holds as many entries takes no more: 2^40.
pub const MOST_ENTRIES: usize = 1_099_511_627_776;

/// The most ticks of a quantum.
pub const MOST_QUANTUM_TICKS: u32 = 1_000_000;

/// The most parts of a second in which the file of a table gives its quanta: its RES.
pub const GREATEST_RESOLUTION: u64 = 1_000_000_000;

/// The most such parts of a quantum.
pub const MOST_QUANTUM_UNITS: u64 = 1_000_000_000;
