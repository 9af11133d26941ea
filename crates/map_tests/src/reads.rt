// How often a disk is read for where a file lies.
use crate::disks::{On, disks_of, volume_on};
use disk_trait::{Disks, Failing, MemDisks};
use file_runs::runs_of;
use minix_tree::{TreeFault, stat_of};
use minix_zones::{Volume, ZoneFault, reach};
use std::alloc::{AllocError, Global};
use std::test::Fail;

// Where a call of the disk fails, and what a file with an indirect zone comes to: the superblock is call 0 and the
// inode call 1. The indirect zone is calls 2 and 3, and no other call comes, though two blocks are found through it.
const ROWS: &[(u64, Option<TreeFault>)] = &[
    (1, Some(TreeFault::Zone(ZoneFault::Device))),
    (2, Some(TreeFault::Zone(ZoneFault::Device))),
    (3, Some(TreeFault::Zone(ZoneFault::Device))),
    (4, None),
];

#[test]
fn each_indirect_zone_is_read_once(rt: HostRuntime) -> Result<(), Fail> {
    for (call, fault) in ROWS {
        assert!(rt; runs_but(rt.alloc(), *call)? == *fault, "at {call}");
    }
    Ok(())
}

fn runs_but(alloc: Global, call: u64) -> Result<Option<TreeFault>, AllocError> {
    let mut disks = disks_of(alloc, On::Near, &[Failing { call, made: false }])?;
    Ok(fault_on(alloc, &mut disks))
}

fn fault_on(alloc: Global, disks: &mut MemDisks) -> Option<TreeFault> {
    let span = volume_on(On::Near);
    let size = disks.size(0);
    if span.count < 4 || size < span.count || size - span.count < span.start {
        return None;
    }
    match Volume::attach(disks, span) {
        Ok(mut volume) => fault_in(alloc, &mut volume),
        Err((_, fault)) => Some(TreeFault::Zone(fault)),
    }
}

fn fault_in(alloc: Global, volume: &mut Volume<'_, MemDisks>) -> Option<TreeFault> {
    if volume.layout().inodes < 11 {
        return None;
    }
    match stat_of(volume, 11) {
        Ok(stat) if stat.node.size.div_ceil(1024) <= reach(volume.layout().kind) => {
            runs_of(alloc, volume, &stat.node).err()
        }
        Ok(_) => None,
        Err(fault) => Some(fault),
    }
}
