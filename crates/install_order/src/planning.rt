// An installation is planned.
ghost use Rattle.std.specs.Prelude.{
  ◌≡◌,
  ◌<◌,
  ◌≤◌,
  ◌*◌,
  All,
  is_some,
  not,
  ℕ,
  List,
  Ok,
  IfOk,
  IfErr,
  OnOk,
};
ghost use Rattle.disk_trait.specs.Past.{Told};
ghost use Rattle.lilo_model.specs.ConfLawful.{IsLawful};
ghost use Rattle.lilo_model.specs.Disks.{DiskSector, Machine};
ghost use Rattle.lilo_model.specs.MinixNames.{IsSound};
ghost use Rattle.lilo_model.specs.PlanRefusal.{own_places_check};
ghost use Rattle.lilo_model.specs.Settled as model;
ghost use Rattle.lilo_conf.specs.View.{config_view};
ghost use Rattle.mbr_table.specs.View.{device_view};
ghost use Rattle.minix_layout.specs.View.{kind_view};
ghost use Rattle.minix_zones.specs.View.{span_view};
ghost use Rattle.minix_zones.specs.Volume.{volume_view, past_of, sizes_of, faults_of, SameVolume};
ghost use Rattle.map_sectors.specs.Map.{HasGeometries};
ghost use Rattle.map_plan.specs.Sound.{machine_for};
ghost use Rattle.sector_address.specs.Machine.{OnDisks};
ghost use Rattle.write_model.specs.Places.{most_size};
ghost use Rattle.install_apart.specs.Own.{AreInside, AreOwnTwins};
ghost use Rattle.install_laws.specs.InstallVerdict.{sectors_of_blocks};
ghost use Rattle.install_room.specs.Names.{AreCalled};
ghost use Rattle.install_room.specs.Room.{SuitRoom, places_view};
ghost use Rattle.install_order.specs.Answers.{IsKnown};
ghost use Rattle.install_order.specs.Faults.{HasInstallCause};
ghost use Rattle.install_order.specs.Plans.{
  IsMap,
  GivesMap,
  GivesRoom,
  GivesChecked,
  GivesPlaces,
  GivesAgain,
  GivesChoices,
  GivesApartChoices,
  IsOfPlan,
  GivesPlanned,
  GivesPlanOf,
  AreSurveyed,
  IsPlannedFor,
  planned_volume,
};
ghost use Rattle.install_order.specs.Stageable.{GivesStage, IsReady, IsWishedRoom, LieWhereSound, wish_for};

use crate::directories::look_at_names;
use crate::examination::Examined;
use crate::fault::{InstallFault, apart_refusal, plan_refusal, write_refusal};
use crate::halt::Halt;
use crate::planned::Planned;
use crate::surveyed::Surveyed;
use disk_trait::{Disks, Phase, Span};
use install_apart::{OwnNames, check_devices};
use install_room::{Room, RoomWish, find_room};
use lilo_conf::Config;
use map_sectors::{MapPlan, plan};
use mbr_table::Device;
use minix_choice::WriteFault;
use minix_layout::FsKind;
use minix_zones::Volume;
use sector_parts::Sector;
use std::alloc::Global;
use std::mem::drop;

// The map of a configuration.
fn plan_map<D: Disks>(
    alloc: Global,
    volume: &mut Volume<'_, D>,
    config: Config,
    boot: Span,
    time: u32,
) -> Result<MapPlan, InstallFault>
    requires { IsLawful (config_view config) }
    ensures plan { OnDisks D.Disks volume.old.disks.now (λ image machine. IsSound (volume_view volume.old) image
        → GivesMap image machine (volume_view volume.old) (config_view config) (span_view boot) time result) }
    ensures geometries { IfOk result (λ plan. HasGeometries (machine_for volume.old) plan.geometries) }
    ensures disk { IfOk result (λ plan. plan.disk ≡ volume.old.span.disk) }
    ensures config { IfOk result (λ plan. plan.config ≡ config) }
    ensures cause { IfErr result (HasInstallCause (faults_of volume.old) (faults_of volume.new)) }
    ensures later { faults_of volume.old ≤ faults_of volume.new }
    ensures same { SameVolume volume.old volume.new }
{
    match plan(alloc, config, volume, boot, time) {
        Ok(plan) => Ok(plan),
        Err(fault) => Err(plan_refusal(fault)),
    }
}

// The greatest size of a file, in bytes.
fn most_size(kind: FsKind) -> u32
    ensures { result ≡ most_size (kind_view kind) }
{
    if kind.is_v1() {
        268_966_912
    } else {
        4_294_967_295
    }
}

// The room that is wished beside what was found. A map that is longer than a file may be has none.
fn find_wished<D: Disks>(
    alloc: Global,
    volume: &mut Volume<'_, D>,
    found: &Examined,
    wish: RoomWish,
    length: u32,
) -> Result<Room, InstallFault>
    requires inside { AreInside volume.old.layout found.now.own }
    requires called { AreCalled found.now.own }
    requires length { 512 * wish.sectors ≤ length }
    ensures room { Told (past_of volume.old) (λ image. length ≤ most_size (kind_view volume.old.layout.kind)
        → GivesRoom image (volume_view volume.old) found.now wish result) }
    ensures suits { IfOk result (SuitRoom volume.old.layout volume.old.span) }
    ensures places { IfOk result (λ room. places_view room
        ≡ sectors_of_blocks (span_view volume.old.span) room.map.choice.blocks wish.sectors) }
    ensures wished { IfOk result (IsWishedRoom volume.new found.now wish) }
    ensures cause { IfErr result (HasInstallCause (faults_of volume.old) (faults_of volume.new)) }
    ensures later { faults_of volume.old ≤ faults_of volume.new }
    ensures same { SameVolume volume.old volume.new }
{
    if length > most_size(volume.layout().kind) {
        return Err(InstallFault::Write(WriteFault::NoSpace {
            need: length.div_ceil(1024),
            found: 0,
        }));
    }
    match find_room(alloc, volume, &found.old, &found.own, wish) {
        Ok(room) => Ok(room),
        Err(fault) => Err(write_refusal(fault)),
    }
}

// Whether the places of a map can be named.
fn check_room(plan: &MapPlan, room: &Room) -> Result<(), InstallFault>
    requires { All (λ place. place.disk ≡ plan.now.disk) room.now.places.items }
    ensures decided { (machine : Machine) → HasGeometries machine plan.now.geometries
        → GivesChecked result (own_places_check (config_view plan.now.config) machine (places_view room.now)) }
    ensures cause { (before now : ℕ) → IfErr result (HasInstallCause before now) }
{
    match plan.check_places(room.places.as_slice()) {
        Ok(()) => Ok(()),
        Err(fault) => Err(plan_refusal(fault)),
    }
}

// The room for a map, whose places can be named.
fn place_map<D: Disks>(
    alloc: Global,
    volume: &mut Volume<'_, D>,
    found: &Examined,
    plan: &MapPlan,
    wish: RoomWish,
    length: u32,
) -> Result<Room, InstallFault>
    requires inside { AreInside volume.old.layout found.now.own }
    requires called { AreCalled found.now.own }
    requires length { 512 * wish.sectors ≤ length }
    requires disk { plan.now.disk ≡ volume.old.span.disk }
    requires geometries { HasGeometries (machine_for volume.old) plan.now.geometries }
    ensures places { OnDisks D.Disks volume.old.disks.now (λ image machine.
        length ≤ most_size (kind_view volume.old.layout.kind)
        → GivesPlaces image machine (volume_view volume.old) (config_view plan.now.config) found.now wish result) }
    ensures suits { IfOk result (SuitRoom volume.old.layout volume.old.span) }
    ensures of_plan { IfOk result (IsOfPlan plan.now wish.sectors) }
    ensures own { IfOk result (λ room. own_places_check (config_view plan.now.config) (machine_for volume.old)
        (places_view room) ≡ Ok tt) }
    ensures wished { IfOk result (IsWishedRoom volume.new found.now wish) }
    ensures cause { IfErr result (HasInstallCause (faults_of volume.old) (faults_of volume.new)) }
    ensures later { faults_of volume.old ≤ faults_of volume.new }
    ensures same { SameVolume volume.old volume.new }
{
    let room = find_wished(alloc, volume, found, wish, length)?;
    match check_room(plan, &room) {
        Ok(()) => Ok(room),
        Err(fault) => {
            drop(room);
            Err(fault)
        }
    }
}

// The boot sector as it is.
fn read_present<D: Disks>(volume: &mut Volume<'_, D>, boot: Span) -> Result<Sector, InstallFault>
    requires { boot.start < sizes_of volume.old boot.disk }
    ensures present { IfOk result (λ present.
        Told (past_of volume.old) (λ image. present ≡ image boot.disk boot.start)) }
    ensures fault { IfErr result (λ fault. fault ≡ InstallFault.Device) }
    ensures cause { IfErr result (HasInstallCause (faults_of volume.old) (faults_of volume.new)) }
    ensures later { faults_of volume.old ≤ faults_of volume.new }
    ensures same { SameVolume volume.old volume.new }
{
    let mut present = [0; 512];
    match volume.read(boot.disk, boot.start, &mut present) {
        Ok(()) => Ok(present),
        Err(_) => Err(InstallFault::Device),
    }
}

// What is planned.
#[derive(Drop)]
struct Choices {
    plan: MapPlan,
    room: Room,
    present: Sector,
}

// The boot sector as it is, once the directories of the names were read.
fn look_again<D: Disks>(
    volume: &mut Volume<'_, D>,
    boot: Span,
    own: &OwnNames,
) -> Result<Sector, InstallFault>
    requires on_disk { boot.start < sizes_of volume.old boot.disk }
    requires inside { AreInside volume.old.layout own.now }
    requires twins { AreOwnTwins own.now }
    ensures present { IfOk result (λ present.
        Told (past_of volume.old) (λ image. present ≡ image boot.disk boot.start)) }
    ensures lie { OnOk result (LieWhereSound volume.new own.now) }
    ensures fault { IfErr result (λ fault. fault ≡ InstallFault.Device) }
    ensures cause { IfErr result (HasInstallCause (faults_of volume.old) (faults_of volume.new)) }
    ensures later { faults_of volume.old ≤ faults_of volume.new }
    ensures same { SameVolume volume.old volume.new }
{
    look_at_names(volume, own)?;
    read_present(volume, boot)
}

// A map and its room, with the boot sector as it is.
fn with_present<D: Disks>(
    volume: &mut Volume<'_, D>,
    boot: Span,
    own: &OwnNames,
    plan: MapPlan,
    room: Room,
) -> Result<Choices, InstallFault>
    requires on_disk { boot.start < sizes_of volume.old boot.disk }
    requires inside { AreInside volume.old.layout own.now }
    requires twins { AreOwnTwins own.now }
    ensures kept { IfOk result (λ choices. (choices.plan ≡ plan) × (choices.room ≡ room)) }
    ensures present { Told (past_of volume.old) (λ image.
        IfOk result (λ choices. choices.present ≡ image boot.disk boot.start)) }
    ensures lie { OnOk result (LieWhereSound volume.new own.now) }
    ensures fault { IfErr result (λ fault. fault ≡ InstallFault.Device) }
    ensures cause { IfErr result (HasInstallCause (faults_of volume.old) (faults_of volume.new)) }
    ensures later { faults_of volume.old ≤ faults_of volume.new }
    ensures same { SameVolume volume.old volume.new }
{
    match look_again(volume, boot, own) {
        Ok(present) => Ok(Choices {
            plan,
            room,
            present,
        }),
        Err(fault) => {
            drop(plan);
            drop(room);
            Err(fault)
        }
    }
}

// What is chosen for a map on a volume on which something was found.
fn choose_for<D: Disks>(
    alloc: Global,
    volume: &mut Volume<'_, D>,
    plan: MapPlan,
    boot: Span,
    time: u32,
    found: &Examined,
    forced: bool,
    settled: bool,
) -> Result<Choices, InstallFault>
    requires lawful { IsLawful (config_view plan.config) }
    requires forced { forced ≡ is_some plan.config.force_backup }
    requires on_disk { boot.start < sizes_of volume.old boot.disk }
    requires inside { AreInside volume.old.layout found.now.own }
    requires called { AreCalled found.now.own }
    requires twins { AreOwnTwins found.now.own }
    requires disk { plan.disk ≡ volume.old.span.disk }
    requires geometries { HasGeometries (machine_for volume.old) plan.geometries }
    ensures found { OnDisks D.Disks volume.old.disks.now (λ image machine. IsSound (volume_view volume.old) image
        → IsMap image machine (volume_view volume.old) (config_view plan.config) (span_view boot) time plan
        → GivesChoices image machine (volume_view volume.old) (config_view plan.config) (span_view boot) time settled
        found.now result) }
    ensures suits { IfOk result (λ choices. SuitRoom volume.old.layout volume.old.span choices.room) }
    ensures disk { IfOk result (λ choices.
        All (λ place. place.disk ≡ choices.plan.disk) choices.room.places.items) }
    ensures config { IfOk result (λ choices. choices.plan.config ≡ plan.config) }
    ensures volume_disk { IfOk result (λ choices. choices.plan.disk ≡ volume.old.span.disk) }
    ensures wished { IfOk result (λ choices. IsWishedRoom volume.new found.now
        (wish_for forced (not settled) time choices.room) choices.room) }
    ensures lie { OnOk result (LieWhereSound volume.new found.now.own) }
    ensures cause { IfErr result (HasInstallCause (faults_of volume.old) (faults_of volume.new)) }
    ensures later { faults_of volume.old ≤ faults_of volume.new }
    ensures same { SameVolume volume.old volume.new }
{
    let length = plan.length();
    let wish = RoomWish {
        forced,
        unsettled: !settled,
        sectors: length / 512,
        time,
    };
    match place_map(alloc, volume, found, &plan, wish, length) {
        Ok(room) => with_present(volume, boot, &found.own, plan, room),
        Err(fault) => {
            drop(plan);
            Err(fault)
        }
    }
}

// What is planned for a volume on which something was found: the map, its room and the boot sector as it is.
fn choose<D: Disks>(
    alloc: Global,
    volume: &mut Volume<'_, D>,
    config: Config,
    boot: Span,
    time: u32,
    found: &Examined,
    settled: bool,
) -> Result<Choices, InstallFault>
    requires lawful { IsLawful (config_view config) }
    requires on_disk { boot.start < sizes_of volume.old boot.disk }
    requires inside { AreInside volume.old.layout found.now.own }
    requires called { AreCalled found.now.own }
    requires twins { AreOwnTwins found.now.own }
    ensures found { OnDisks D.Disks volume.old.disks.now (λ image machine. IsSound (volume_view volume.old) image
        → GivesChoices image machine (volume_view volume.old) (config_view config) (span_view boot) time settled
        found.now result) }
    ensures suits { IfOk result (λ choices. SuitRoom volume.old.layout volume.old.span choices.room) }
    ensures disk { IfOk result (λ choices.
        All (λ place. place.disk ≡ choices.plan.disk) choices.room.places.items) }
    ensures config { IfOk result (λ choices. choices.plan.config ≡ config) }
    ensures volume_disk { IfOk result (λ choices. choices.plan.disk ≡ volume.old.span.disk) }
    ensures wished { IfOk result (λ choices. IsWishedRoom volume.new found.now
        (wish_for (is_some config.force_backup) (not settled) time choices.room) choices.room) }
    ensures lie { OnOk result (LieWhereSound volume.new found.now.own) }
    ensures cause { IfErr result (HasInstallCause (faults_of volume.old) (faults_of volume.new)) }
    ensures later { faults_of volume.old ≤ faults_of volume.new }
    ensures same { SameVolume volume.old volume.new }
{
    let forced = config.force_backup.is_some();
    let plan = plan_map(alloc, volume, config, boot, time)?;
    choose_for(alloc, volume, plan, boot, time, found, forced, settled)
}

// Once names are settled, whether the devices of a configuration are apart still: a table by which one of them is found
// may lie in a sector of the volume that settling wrote.
fn check_again<D: Disks>(
    volume: &mut Volume<'_, D>,
    config: &Config,
    device: Device,
    settled: bool,
) -> Result<(), InstallFault>
    ensures again { OnDisks D.Disks volume.old.disks.now (λ image machine.
        GivesAgain image machine (volume_view volume.old) (config_view config.now) (device_view device) settled result) }
    ensures cause { IfErr result (HasInstallCause (faults_of volume.old) (faults_of volume.new)) }
    ensures later { faults_of volume.old ≤ faults_of volume.new }
    ensures same { SameVolume volume.old volume.new }
{
    if !settled {
        return Ok(());
    }
    match check_devices(volume, config, device) {
        Ok(()) => Ok(()),
        Err(fault) => Err(apart_refusal(fault)),
    }
}

// What is planned, once the devices are known to be apart still.
fn choose_apart<D: Disks>(
    alloc: Global,
    volume: &mut Volume<'_, D>,
    config: Config,
    device: Device,
    boot: Span,
    time: u32,
    found: &Examined,
    settled: bool,
) -> Result<Choices, InstallFault>
    requires lawful { IsLawful (config_view config) }
    requires on_disk { boot.start < sizes_of volume.old boot.disk }
    requires inside { AreInside volume.old.layout found.now.own }
    requires called { AreCalled found.now.own }
    requires twins { AreOwnTwins found.now.own }
    ensures found { OnDisks D.Disks volume.old.disks.now (λ image machine. IsSound (volume_view volume.old) image
        → GivesApartChoices image machine (volume_view volume.old) (config_view config) (device_view device)
        (span_view boot) time settled found.now result) }
    ensures suits { IfOk result (λ choices. SuitRoom volume.old.layout volume.old.span choices.room) }
    ensures disk { IfOk result (λ choices.
        All (λ place. place.disk ≡ choices.plan.disk) choices.room.places.items) }
    ensures config { IfOk result (λ choices. choices.plan.config ≡ config) }
    ensures volume_disk { IfOk result (λ choices. choices.plan.disk ≡ volume.old.span.disk) }
    ensures wished { IfOk result (λ choices. IsWishedRoom volume.new found.now
        (wish_for (is_some config.force_backup) (not settled) time choices.room) choices.room) }
    ensures lie { OnOk result (LieWhereSound volume.new found.now.own) }
    ensures cause { IfErr result (HasInstallCause (faults_of volume.old) (faults_of volume.new)) }
    ensures later { faults_of volume.old ≤ faults_of volume.new }
    ensures same { SameVolume volume.old volume.new }
{
    match check_again(volume, &config, device, settled) {
        Ok(()) => choose(alloc, volume, config, boot, time, found, settled),
        Err(fault) => {
            drop(config);
            Err(fault)
        }
    }
}

impl<'d, D: Disks> Surveyed<'d, D> {
    /// Plans the map of the configuration and finds the room for it and for a backup of the boot sector, where one is
    /// made: every choice is made, and all memory is taken. Nothing is written. Where names are settled, a device may lie
    /// elsewhere than it lay, if a table by which it is found lies in the volume: then it must be apart still.
    ///
    /// # Errors
    ///
    /// `NotApart` with the first option whose device isn't, where names are settled; `Plan` of files and devices, of what
    /// they hold and of their addresses, then `Write` of the room, then `Plan` of the addresses of the map's own sectors;
    /// `Device` and `Memory`. The phase is `Before`.
    pub fn plan(self, alloc: Global) -> Result<Planned<'d, D>, Halt<'d, D>>
        requires known { IsKnown self }

        // What is planned, or the first refusal.
        ensures found { OnDisks D.Disks self.entry.volume.disks.now (λ image machine.
            GivesPlanned image machine self.entry result) }
        ensures suits { IfOk result (λ planned. SuitRoom planned.volume.layout planned.volume.span planned.room) }
        ensures held { IfOk result (IsPlannedFor self.entry) }
        // For the names and places that were surveyed: the model's plan and room, or its first refusal.
        ensures planned { OnDisks D.Disks self.entry.volume.disks.now (λ image machine. (names : model.OwnNames)
            (places : List DiskSector) → AreSurveyed image machine self.entry names places
            → GivesPlanOf image machine self.entry names places result) }

        // What may be done with it.
        ensures may { OnDisks D.Disks self.entry.volume.disks.now (λ image machine. (names : model.OwnNames)
            (places : List DiskSector) → AreSurveyed image machine self.entry names places
            → GivesStage image machine self.entry names places result) }
        ensures ready { IfOk result IsReady }

        // When it is refused.
        ensures cause { IfErr result (λ halt.
            HasInstallCause (faults_of self.entry.volume) (faults_of halt.volume) halt.fault) }
        ensures phase { IfErr result (λ halt. halt.phase ≡ Phase.Before) }
        ensures later { faults_of self.entry.volume ≤ faults_of (planned_volume result) }

        // Nothing is written.
        ensures same { SameVolume self.entry.volume (planned_volume result) }
    {
        let Surveyed {
            volume,
            config,
            device,
            boot,
            time,
            found,
            settled,
        } = self;
        let mut volume = volume;
        match choose_apart(
            alloc,
            &mut volume,
            config,
            device,
            boot,
            time,
            &found,
            settled,
        ) {
            Ok(choices) => {
                let present = choices.present;
                Ok(Planned {
                    volume,
                    device,
                    boot,
                    time,
                    own: found.own,
                    plan: choices.plan,
                    room: choices.room,
                    present,
                    settled,
                })
            }
            Err(fault) => {
                drop(found);
                Err(Halt {
                    volume,
                    phase: Phase::Before,
                    fault,
                })
            }
        }
    }
}
