use claims::kinds::Environment;
use conditions::kinds::Condition;
use measurements::kinds::Allowed;

// At most four of something, in their order, kept inline since the readers have no heap. The places behind them hold a fixed filling, so
// equal rows are kept alike.
#[derive(Clone, Copy)]
pub struct Few<T> {
    pub(crate) count: usize,
    pub(crate) places: [T; 4],
}

// What was read so far of the measurement maps of a record.
#[derive(Clone, Copy)]
pub struct InRecord {
    pub allowed: Allowed,
    pub environment: Environment,
    pub found: Few<Condition>,
}

// What was read so far of an array of records.
#[derive(Clone, Copy)]
pub struct InRecords {
    pub allowed: Allowed,
    pub found: Few<Condition>,
}
