// A file whose inode and zones are marked.
ghost use Rattle.std.specs.Prelude.{◌≡◌, ◌≤◌, length, IfOk, IfErr};
ghost use Rattle.disk_trait.specs.Moments.{IsTold, IsQuiet};
ghost use Rattle.minix_create.specs.Chosen.{Suits, IsFreeNow, IsNextBlock};
ghost use Rattle.minix_create.specs.States.{Reserves, Halts};
ghost use Rattle.minix_zones.specs.Volume.{past_of};

use crate::chosen::Chosen;
use crate::filled::Filled;
use crate::steps::{fill_chosen, mark_chosen};
use disk_trait::Disks;
use minix_choice::{WriteFault, WriteHalt};
use minix_steps::write_zone;
use minix_zones::Volume;

/// A file whose inode and zones are marked, and of whose blocks the first are written.
#[derive(Drop)]
pub struct Reserved<'d, D: Disks> {
    pub(crate) volume: Volume<'d, D>,
    pub(crate) chosen: Chosen,
    /// The next block that is no hole, or how many blocks there are.
    pub(crate) next: usize,
}

/// The first block that is no hole from one on, or how many there are.
#[tactic(auto, using(crate::proofs::NextLemmas::next_here, crate::proofs::NextLemmas::next_end))]
fn next_block(blocks: &[u32], from: usize) -> usize
    requires { from ≤ length blocks.now }
    ensures { IsNextBlock blocks.now from result }
{
    for at in from..blocks.len() {
        if blocks[at] != 0 {
            return at;
        }
    }
    blocks.len()
}

impl Chosen {
    /// Marks the inode and the zones that were chosen, and makes that durable.
    ///
    /// # Errors
    ///
    /// `Device` alone. Then some of them may be marked.
    pub fn reserve<'d, D: Disks>(
        self,
        volume: Volume<'d, D>,
    ) -> Result<Reserved<'d, D>, WriteHalt<'d, D>>
        requires suits { Suits volume.layout volume.span self }
        requires quiet { IsQuiet (past_of volume) }
        requires free { IsTold (past_of volume) → IsFreeNow volume self }
        ensures reserved { IfOk result (Reserves volume.entry self) }
        ensures halted { IfErr result (Halts volume.entry self) }
    {
        let mut volume = volume;
        match mark_chosen(&mut volume, &self) {
            Ok(()) => {
                let next = next_block(self.choice.blocks(), 0);
                Ok(Reserved {
                    volume,
                    chosen: self,
                    next,
                })
            }
            Err(_) => Err(WriteHalt {
                volume,
                fault: WriteFault::Device,
            }),
        }
    }
}

impl<'d, D: Disks> Reserved<'d, D> {
    ghost use Rattle.std.specs.Prelude.{
      ◌≡◌,
      ◌≤◌,
      ◌<◌,
      if◌then◌else◌,
      nat_lt,
      Some,
      None,
      length,
      IfOk,
      IfErr,
      OnOk,
      OnErr,
    };
    ghost use Rattle.minix_create.specs.States.{IsInHand, WritesBlock, Fills, GoesWrong, Halts};

    /// The next block to be written: the first that is no hole after those that were.
    pub fn next_index(&self) -> Option<usize>
        ensures { result ≡ (if nat_lt self.now.next (length self.now.chosen.choice.blocks) then Some self.now.next
            else None) }
    {
        if self.next < self.chosen.choice.blocks().len() {
            Some(self.next)
        } else {
            None
        }
    }

    /// Writes the next block. It isn't flushed.
    ///
    /// # Errors
    ///
    /// `Device` alone. The next block is as before then, and either half of it may be written.
    pub fn block(&mut self, bytes: &[u8; 1024]) -> Result<(), WriteFault>
        requires hand { IsInHand self.old }
        requires left { self.old.next < length self.old.chosen.choice.blocks }
        ensures written { OnOk result (WritesBlock self.old self.new bytes.now) }
        ensures next { OnErr result (self.new.next ≡ self.old.next) }
        ensures halted { IfErr result (GoesWrong self.old.volume self.new.volume self.old.chosen) }
    {
        let zone = self.chosen.choice.blocks()[self.next];
        match write_zone(&mut self.volume, zone, bytes) {
            Ok(()) => {
                self.next = next_block(self.chosen.choice.blocks(), self.next + 1);
                Ok(())
            }
            Err(_) => Err(WriteFault::Device),
        }
    }

    /// Gives the volume back. What is marked stays marked without a use.
    pub fn leave(self) -> Volume<'d, D>
        ensures { result ≡ self.entry.volume }
    {
        let Reserved {
            volume,
            chosen: _,
            next: _,
        } = self;
        volume
    }

    /// Writes the indirect zones and the inode of a file whose blocks are all written, and makes it durable.
    ///
    /// # Errors
    ///
    /// `Device` alone.
    pub fn fill(self) -> Result<Filled<'d, D>, WriteHalt<'d, D>>
        requires hand { IsInHand self }
        requires all { length self.chosen.choice.blocks ≤ self.next }
        ensures filled { IfOk result (Fills self.entry) }
        ensures halted { IfErr result (Halts self.entry.volume self.entry.chosen) }
    {
        let Reserved {
            mut volume,
            chosen,
            next: _,
        } = self;
        match fill_chosen(&mut volume, &chosen) {
            Ok(()) => Ok(Filled { volume, chosen }),
            Err(_) => Err(WriteHalt {
                volume,
                fault: WriteFault::Device,
            }),
        }
    }
}
