//! What a call says.

use crate::faults::FaxFault;

/// What a call wrote, where to continue, and the fault that it met.
#[repr(C)]
#[derive(Clone, Copy)]
pub struct FaxTold {
    /// How many pages or rows were written.
    pub count: usize,
    /// How many numbers of `out` were written.
    pub used: usize,
    /// The cursor after them, or the one that the call began with.
    pub page: u32,
    pub row: u32,
    /// The fault that was met.
    pub fault: FaxFault,
}
