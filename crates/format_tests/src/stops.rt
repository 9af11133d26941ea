ghost use Rattle.std.specs.Prelude.{◌≡◌, [], IfOk, Some, slice_index_or};
ghost use Rattle.disk_trait.specs.MemDisks.{past_in};
ghost use Rattle.disk_trait.specs.Moments.{IsQuiet};

use crate::disks::left;
use disk_example::{Boot, commit, fill, install, stage, write_in_turn};
use disk_trait::{DiskFault, Geometry, MemDisk, MemDisks, quiet};
use std::alloc::{AllocError, Global};

// One disk of eight sectors of zeros.
fn zero_disk(alloc: Global) -> Result<MemDisks, AllocError>
    ensures { IfOk result (λ disks. IsQuiet (Some (past_in disks))) }
{
    quiet();
    let geometry = Geometry {
        heads: 1,
        sectors: 8,
    };
    let disk = MemDisk {
        sectors: 8,
        geometry,
    };
    MemDisks::new(alloc, &[disk], 16, &[])
}

// What boots is the first byte of sector 0, whatever is typed.
struct FirstByte;

impl Boot for FirstByte {
    ghost boots = { λ image keys. slice_index_or (image 0 0) 0 0 };
}

// A call of disk_example.
#[derive(Clone, Copy)]
enum Example {
    InTurn,
    Staged,
    Filled,
    Installed,
}

// Makes it.
fn make(disks: &mut MemDisks, example: Example) -> Result<(), DiskFault>
    requires { IsQuiet (Some (past_in disks.old)) }
{
    let staged = [[7; 512], [8; 512]];
    match example {
        Example::InTurn => write_in_turn(disks, 0, 4, &[7; 512], 5, &[8; 512]),
        Example::Staged => {
            stage(disks, 0, 4, &staged)?;
            commit(disks, 0, 0, &[9; 512])
        }
        Example::Filled => fill::<MemDisks, FirstByte>(disks, 0, &[4, 5], &[7; 512]),
        Example::Installed => install::<MemDisks, FirstByte>(disks, 0, 4, &staged, 0, &[9; 512]),
    }
}

const PLACES: [(u8, u64); 3] = [(0, 4), (0, 5), (0, 0)];

// A call, how many events there were, and what three sectors hold after a stop then, where of the writes since the last
// flush none is made, and where all are.
const LEFT: &[(Example, u32, [u8; 3], [u8; 3])] = &[
    (Example::InTurn, 0, [0, 0, 0], [0, 0, 0]),
    (Example::InTurn, 1, [0, 0, 0], [7, 0, 0]),
    (Example::InTurn, 2, [7, 0, 0], [7, 0, 0]),
    (Example::InTurn, 3, [7, 0, 0], [7, 8, 0]),
    (Example::Staged, 1, [0, 0, 0], [7, 0, 0]),
    (Example::Staged, 2, [0, 0, 0], [7, 8, 0]),
    (Example::Staged, 3, [7, 8, 0], [7, 8, 0]),
    (Example::Staged, 4, [7, 8, 0], [7, 8, 9]),
    (Example::Staged, 5, [7, 8, 9], [7, 8, 9]),
    (Example::Filled, 1, [0, 0, 0], [7, 0, 0]),
    (Example::Filled, 2, [0, 0, 0], [7, 7, 0]),
    (Example::Filled, 3, [7, 7, 0], [7, 7, 0]),
    (Example::Installed, 2, [0, 0, 0], [7, 8, 0]),
    (Example::Installed, 3, [7, 8, 0], [7, 8, 0]),
    (Example::Installed, 4, [7, 8, 0], [7, 8, 9]),
    (Example::Installed, 5, [7, 8, 9], [7, 8, 9]),
];

// Whether a stop of a call leaves this after so many events.
fn is_left(alloc: Global, example: Example, events: u32, images: [[u8; 3]; 2]) -> bool {
    match zero_disk(alloc) {
        Ok(mut disks) => {
            make(&mut disks, example).is_ok()
                && left(alloc, &disks, events, 0, PLACES) == images[0]
                && left(alloc, &disks, events, 0b11, PLACES) == images[1]
        }
        Err(_) => false,
    }
}

#[test]
fn a_stop_of_an_update_leaves_old_or_new(rt: HostRuntime) {
    for (example, events, none, all) in LEFT {
        assert!(rt; is_left(rt.alloc(), *example, *events, [*none, *all]));
    }
}
