// The answers of a program.

/// What a run came to. The exit statuses of a program are 0 to 5, in this order.
#[derive(Clone, Copy, Debug, PartialEq, Eq)]
pub enum Status {
    Written,
    Faults,
    Words,
    NoMemory,
    ReadFault,
    WriteFault,
}
