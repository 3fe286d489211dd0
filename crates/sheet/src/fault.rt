// Why a sheet is refused.

// A fault. Its number and its line are those of `fault_told`.
#[derive(Clone, Copy, PartialEq, Eq, Debug)]
pub enum Fault {
    // the sheet has more than 32,768 bytes
    Bytes,
    // the output buffer has fewer than 16,384 bytes
    Room,
    // the line has more than 64 bytes with the one that ends it
    Long { line: usize },
    // the line is malformed or out of place, or is missing
    Malformed { line: usize },
    // the ladder or the book refuses what the line says
    Refused { line: usize },
}
