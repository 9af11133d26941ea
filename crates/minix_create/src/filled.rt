// A file that is there but for its name.
use crate::chosen::Chosen;
use crate::linked::Linked;
use crate::steps::link_chosen;
use disk_trait::Disks;
use minix_choice::WriteHalt;
use minix_zones::Volume;

/// A file that is there but for its name.
#[derive(Drop)]
pub struct Filled<'d, D: Disks> {
    pub(crate) volume: Volume<'d, D>,
    pub(crate) chosen: Chosen,
}

impl<'d, D: Disks> Filled<'d, D> {
    ghost use Rattle.std.specs.Prelude.{IfOk, IfErr};
    ghost use Rattle.minix_create.specs.States.{IsInPlace, Links, LinkHalts};
    ghost use Rattle.minix_choice.specs.View.{HasWriteCause};
    ghost use Rattle.minix_zones.specs.Volume.{faults_of};

    /// Makes the name of the file at its place, and makes that durable.
    ///
    /// # Errors
    ///
    /// `Device` where the disk failed, and then the name is there or not; where the disks report their past no other
    /// comes. Where they don't, those of [`grow_directory`](crate::grow_directory) too.
    pub fn link(self) -> Result<(Volume<'d, D>, Linked), WriteHalt<'d, D>>
        requires { IsInPlace self }
        ensures linked { IfOk result (Links self.entry) }
        ensures halted { IfErr result (LinkHalts self.entry) }
        ensures cause { IfErr result (λ halt.
            HasWriteCause (faults_of self.entry.volume) (faults_of halt.volume) halt.fault) }
    {
        let Filled { mut volume, chosen } = self;
        let inode = chosen.inode();
        match link_chosen(&mut volume, &chosen) {
            Ok(()) => Ok((volume, Linked { inode })),
            Err(fault) => Err(WriteHalt { volume, fault }),
        }
    }
}
