/// Why a list of steps ended early.
#[derive(Clone, Copy, Debug, PartialEq, Eq)]
pub enum Fault {
    Memory,
    ReadFault,
    WriteFault,
    DiskFault,
}
