// An installation.
ghost use Rattle.std.specs.Prelude.{option_map, IsTrue};
ghost use Rattle.disk_trait.specs.Moments.{IsWhole};
ghost use Rattle.lilo_model.specs.Place.{Memory};
ghost use Rattle.mbr_table.specs.View.{device_view};
ghost use Rattle.loader_core.specs.Leaves.{WritesAndShows};
ghost use Rattle.sector_address.specs.Machine.{OnDisks};
ghost use Rattle.lilo_run.specs.Install.{InstallDoes};
ghost use Rattle.lilo_run.specs.Run.{is_install_status, CarriesFound, IsLost};
ghost use Rattle.lilo_run.specs.Verdict.{install_effect};

use crate::conf::say_conf;
use crate::test_part::begin_halt;
use disk_trait::Disks;
use install_begin::begin;
use install_run::install_begun;
use mbr_table::Device;
use std::alloc::Global;
use stream_trait::{Shown, Sink};

/// Carries out an installation at a time, in seconds since 1970, and answers the status.
pub(crate) fn install<D: Disks, O: Sink>(
    alloc: Global,
    disks: &mut D,
    root: Option<Device>,
    path: &[u8],
    time: u32,
    out: &mut Shown<'_, O>,
) -> u8
    requires whole { IsWhole (D.size_of disks.old) (D.past disks.old) }
    ensures does { (memory : Memory) → CarriesFound D.Disks O.Sink memory result
        (disks.old, out.old) (disks.new, out.new)
        (λ now machine. install_effect now machine (option_map device_view root) path.now time) }
    ensures leaves { OnDisks D.Disks disks.old (λ image machine. InstallDoes image machine (option_map device_view root)
        path.now time (D.past disks.old) (D.past disks.new) result) }
    ensures known { IsTrue (is_install_status result) }
    ensures only { WritesAndShows D.Disks O.Sink (disks.old, out.old) (disks.new, out.new) (IsLost result) }
{
    match begin(alloc, disks, root, path) {
        Ok(begun) => install_begun(alloc, disks, begun, time, out),
        Err(fault) => say_conf(out, begin_halt(fault), path),
    }
}
