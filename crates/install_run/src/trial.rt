// What an installation would do, once what it begins with is read.
ghost use Rattle.std.specs.Prelude.{◌≡◌, ◌≤◌, ◌<◌, codes, Some, IsTrue};
ghost use Rattle.disk_trait.specs.Calls.{SameOf};
ghost use Rattle.disk_trait.specs.Moments.{IsWhole};
ghost use Rattle.lilo_model.specs.ConfLawful.{IsLawful};
ghost use Rattle.lilo_model.specs.Faults.{Rose};
ghost use Rattle.sector_address.specs.Machine.{OnDisks};
ghost use Rattle.stream_trait.specs.Shows.{HasFailed, Shows, sink_of};
ghost use Rattle.minix_search.specs.View.{HasRoom};
ghost use Rattle.lilo_conf.specs.View.{config_view};
ghost use Rattle.install_run.specs.Previews.{AnswersPreview, AnswersVerdict, is_preview_status, zone_verdict};
ghost use Rattle.install_begin.specs.Begin.{test_on};
ghost use Rattle.install_begin.specs.View.{begun_view};

use crate::preview_answer::preview;
use disk_trait::Disks;
use install_begin::Begun;
use minix_zones::{Volume, ZoneFault};
use std::alloc::Global;
use std::mem::drop;
use stream_trait::{Shown, Sink};

/// Reports what an installation at a time, in seconds since 1970, would do, or why it is refused, and gives the exit
/// status. Nothing is written.
pub fn preview_begun<D: Disks, O: Sink>(
    alloc: Global,
    disks: &mut D,
    begun: Begun,
    time: u32,
    out: &mut Shown<'_, O>,
) -> u8
    // Each sector has 512 bytes: so it is of disks that hold whole sectors, or that don't report what they hold.
    requires whole { IsWhole (D.size_of disks.old) (D.past disks.old) }
    requires room { HasRoom (D.size_of disks.old begun.volume.disk) begun.volume }
    requires boot { begun.boot.start < D.size_of disks.old begun.boot.disk }
    requires device { begun.config.boot ≡ Some begun.device }
    requires lawful { IsLawful (config_view begun.config) }

    // What is answered.
    ensures answers { OnDisks D.Disks disks.old
        (λ now machine. AnswersPreview (test_on now machine time (begun_view begun))
        result (sink_of O.Sink out.old) (sink_of O.Sink out.new)) }
    ensures statuses { IsTrue (is_preview_status result) }
    ensures cause { result ≡ 8 → Rose (D.faults disks.old) (D.faults disks.new) }
    ensures later { D.faults disks.old ≤ D.faults disks.new }

    // Nothing else happens.
    ensures same { SameOf D.Disks disks.old disks.new }
    ensures sink { HasFailed (sink_of O.Sink out.old) (sink_of O.Sink out.new) }
    ensures same_sink { out.new.out.ghost_name ≡ out.old.out.ghost_name }
{
    let Begun {
        volume: place,
        config,
        device: _,
        boot,
    } = begun;
    match Volume::attach(disks, place) {
        Ok(volume) => preview(alloc, volume, config, boot, time, out).0,
        Err((disks, fault)) => {
            drop(config);
            say_zone(disks, fault, out)
        }
    }
}

/// Shows why there is no volume where one is looked for, and gives the status. The disks are handed back.
#[tactic(auto, unfolding(lilo_model::specs::Refusal::refusal_line))]
pub fn say_zone<D: Disks, O: Sink>(disks: &mut D, fault: ZoneFault, out: &mut Shown<'_, O>) -> u8
    ensures answers { AnswersVerdict (zone_verdict fault) result (sink_of O.Sink out.old) (sink_of O.Sink out.new) }
    ensures statuses { IsTrue (is_preview_status result) }
    ensures device { result ≡ 8 → fault ≡ ZoneFault.Device }
    ensures sink { HasFailed (sink_of O.Sink out.old) (sink_of O.Sink out.new) }
    ensures same_sink { out.new.out.ghost_name ≡ out.old.out.ghost_name }
    ensures same { disks.new ≡ disks.old }
{
    match fault {
        ZoneFault::Device => {
            out.put(b"lilo: device\n");
            8
        }
        ZoneFault::Layout(_) => say_layout(out),
        ZoneFault::ZoneOutside(_) => say_layout(out),
    }
}

// Shows that a superblock is refused, and gives the status.
fn say_layout<O: Sink>(out: &mut Shown<'_, O>) -> u8
    ensures status { result ≡ 3 }
    ensures shown { Shows (sink_of O.Sink out.old) (codes "lilo: volume: layout\n") (sink_of O.Sink out.new) }
    ensures sink { HasFailed (sink_of O.Sink out.old) (sink_of O.Sink out.new) }
    ensures same_sink { out.new.out.ghost_name ≡ out.old.out.ghost_name }
{
    out.put(b"lilo: volume: layout\n");
    3
}
