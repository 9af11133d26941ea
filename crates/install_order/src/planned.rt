// What an installation is planned to do.
ghost use Rattle.std.specs.Prelude.{◌<◌};
ghost use Rattle.minix_zones.specs.Volume.{sizes_of};

use disk_trait::{Disks, Span};
use install_apart::OwnNames;
use install_room::Room;
use map_plan::NameList;
use map_sectors::MapPlan;
use mbr_table::Device;
use minix_zones::Volume;
use sector_parts::Sector;
use std::mem::drop;

/// A volume for which an installation is planned: the map, and the room for it and for a backup of the boot sector,
/// where one is made.
pub struct Planned<'d, D: Disks> {
    pub(crate) volume: Volume<'d, D>,
    /// The device that is to boot, and where it lies.
    pub(crate) device: Device,
    pub(crate) boot: Span,
    /// Seconds since 1970.
    pub(crate) time: u32,
    pub(crate) own: OwnNames,
    pub(crate) plan: MapPlan,
    pub(crate) room: Room,
    /// The boot sector as it is.
    pub(crate) present: Sector,
    pub(crate) settled: bool,
    ghost on_disk: { boot.start < sizes_of volume boot.disk },
}

impl<'d, D: Disks> Planned<'d, D> {
    ghost use Rattle.std.specs.Prelude.{◌≡◌};
    ghost use Rattle.lilo_model.specs.Meant.{default_place};
    ghost use Rattle.lilo_model.specs.Plan.{plan_names};
    ghost use Rattle.map_sectors.specs.Map.{plan_view};

    /// The names of the map's entries, in the order of its table.
    pub fn names(&self) -> &NameList
        ensures { result.now ≡ plan_names (plan_view self.now.plan) }
    {
        self.plan.names()
    }

    /// The place of the default among the names.
    pub fn default_entry(&self) -> u16
        ensures { result ≡ default_place (plan_view self.now.plan).config.default_name
            (plan_names (plan_view self.now.plan)) }
    {
        self.plan.default_entry()
    }

    /// The paths of the sections that are omitted, in order.
    pub fn skipped(&self) -> &NameList
        ensures { result.now ≡ self.now.plan.files.skipped }
    {
        self.plan.skipped()
    }

    /// Gives the disks back.
    pub fn leave(self) -> &'d mut D
        ensures same { result.now ≡ self.entry.volume.disks.now }
        ensures same_reference { result.ghost_name ≡ self.entry.volume.disks.ghost_name }
    {
        let Planned {
            volume,
            device: _,
            boot: _,
            time: _,
            own,
            plan,
            room,
            present: _,
            settled: _,
        } = self;
        drop(own);
        drop(plan);
        drop(room);
        volume.detach()
    }
}
