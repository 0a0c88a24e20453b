//! Where workers arrive.

/// What a worker passes between claiming a file and working at it. A test can hold workers up there.
pub trait Gate {
    /// A worker comes with the number of the file that it claimed, from 0. It is called once for each claimed file.
    fn arrive(&self, file: u32);
}

/// The gate that lets every worker through at once.
#[derive(Clone, Copy, Debug)]
pub struct OpenGate;

impl Gate for OpenGate {
    fn arrive(&self, _file: u32) {}
}
