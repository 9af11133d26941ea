// When steps may be taken: functions that only say so, and do nothing.
ghost use Rattle.std.specs.Prelude.{◌≡◌, ◌≤◌, ◌<◌, false};
ghost use Rattle.disk_trait.specs.Moments.{IsTold, now, IsQuiet};
ghost use Rattle.lilo_model.specs.MinixNames.{IsSound};
ghost use Rattle.minix_zones.specs.Volume.{volume_view, past_of};
ghost use Rattle.minix_steps.specs.Steps.{IsReady, IsUnusedZone, IsUnnamedInode, Steps};
ghost use Rattle.minix_steps.specs.Written.{parts_now};

use disk_trait::Disks;
use minix_zones::Volume;

/// On quiet disks with a sound volume a step may be taken.
pub fn quiet_is_ready<D: Disks>(volume: &Volume<'_, D>)
    requires quiet { IsQuiet (past_of volume.now) }
    requires sound { IsTold (past_of volume.now) → IsSound (volume_view volume.now) (now (past_of volume.now)) }
    ensures { IsReady volume.now }
{}

/// No named inode refers to a data zone that isn't marked.
pub fn unmarked_is_unused<D: Disks>(volume: &Volume<'_, D>, zone: u32)
    requires from { volume.now.layout.first ≤ zone }
    requires below { zone < volume.now.layout.zones }
    requires ready { IsReady volume.now }
    requires unmarked { IsTold (past_of volume.now) → (parts_now volume.now).has_zone zone ≡ false }
    ensures { IsUnusedZone volume.now zone }
{}

/// An inode that isn't marked is neither the root nor has a name. The numbers begin at 1.
pub fn unmarked_is_unnamed<D: Disks>(volume: &Volume<'_, D>, number: u32)
    requires some { 1 ≤ number }
    requires there { number ≤ volume.now.layout.inodes }
    requires ready { IsReady volume.now }
    requires unmarked { IsTold (past_of volume.now) → (parts_now volume.now).has_inode number ≡ false }
    ensures { IsUnnamedInode volume.now number }
{}

/// Steps in a row are steps.
pub fn steps_join<D: Disks>(old: &Volume<'_, D>, mid: &Volume<'_, D>, new: &Volume<'_, D>)
    requires ready { IsReady old.now }
    requires first { Steps old.now mid.now }
    requires next { Steps mid.now new.now }
    ensures { Steps old.now new.now }
{}
