// What ends a call that owns its volume.
use crate::write_fault::WriteFault;
use disk_trait::Disks;
use minix_zones::Volume;

/// A refusal, with the volume.
#[derive(Drop)]
pub struct WriteHalt<'d, D: Disks> {
    pub volume: Volume<'d, D>,
    pub fault: WriteFault,
}
