// What ends an installation.
use crate::fault::InstallFault;
use disk_trait::{Disks, Phase};
use minix_zones::Volume;

/// A refusal, with the volume, and how far the installation came.
pub struct Halt<'d, D: Disks> {
    pub volume: Volume<'d, D>,
    pub phase: Phase,
    pub fault: InstallFault,
}
