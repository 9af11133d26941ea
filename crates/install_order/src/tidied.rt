// An installation is done.
use disk_trait::Disks;
use minix_zones::Volume;

/// A volume whose installation is whole: its new map boots, at its own name.
pub struct Tidied<'d, D: Disks> {
    pub(crate) volume: Volume<'d, D>,
}

impl<'d, D: Disks> Tidied<'d, D> {
    ghost use Rattle.std.specs.Prelude.{◌≡◌};

    /// Gives the disks back.
    pub fn leave(self) -> &'d mut D
        ensures same { result.now ≡ self.entry.volume.disks.now }
        ensures same_reference { result.ghost_name ≡ self.entry.volume.disks.ghost_name }
    {
        let Tidied { volume } = self;
        volume.detach()
    }
}
