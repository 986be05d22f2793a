/// How a command ends.
#[derive(Clone, Copy, Debug, PartialEq, Eq)]
pub enum Answer {
    Finished { status: u8 },
    Memory,
    ReadFault,
    WriteFault,
    DiskFault,
}
