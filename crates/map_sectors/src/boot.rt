// The boot sector of a planned map.
ghost use Rattle.std.specs.Prelude.{◌≡◌, ◌≤◌, IfSome, unwrap_or};
ghost use Rattle.std.specs.Option.{option_map};
ghost use Rattle.lilo_model.specs.Bytes.{filled_bytes};
ghost use Rattle.file_runs.specs.Mapped.{file_view};
ghost use Rattle.map_plan.specs.Whole.{code_view};

use crate::chains::capped;
use crate::map::MapPlan;
use crate::places::after;
use arrayvec::ArrayVec;
use boot_map::BootSector;
use file_runs::FileRuns;
use map_plan::BootCode;
use sector_address::Slot;
use sector_parts::{Sector, part, put_name};
use slot_lists::DiskSector;

impl MapPlan {
    ghost use Rattle.std.specs.Prelude.{◌≡◌, ◌≤◌, All, IfSome, length, map};
    ghost use Rattle.std.specs.List.{range_with_len};
    ghost use Rattle.std.specs.Option.{option_map};
    ghost use Rattle.lilo_model.specs.Disks.{Machine};
    ghost use Rattle.lilo_model.specs.Plan as model;
    ghost use Rattle.lilo_model.specs.Plan.{plan_boot, plan_boot_sector, plan_names, place_of_sector, slot_to};
    ghost use Rattle.sector_address.specs.View.{slot_view};
    ghost use Rattle.lilo_conf.specs.View.{config_view};
    ghost use Rattle.boot_map.specs.Ranges.{HasMapSlots, IsWritable};
    ghost use Rattle.boot_map.specs.View.{boot_view};
    ghost use Rattle.slot_lists.specs.Made.{place_view};
    ghost use Rattle.file_runs.specs.Mapped.{file_view};
    ghost use Rattle.map_sectors.specs.Accepted.{IsFor};
    ghost use Rattle.map_sectors.specs.Boots.{BootsAsMeant};
    ghost use Rattle.map_sectors.specs.Map.{plan_view, HasGeometries};
    ghost use Rattle.map_sectors.specs.Places.{LieOnFour};

    /// Writes the boot sector of the map whose sectors lie at places: its fields, the code that is planned, and bytes
    /// 440 to 509, with the partition table, of the sector that is there.
    #[tactic(auto, unfolding(lilo_model::specs::Plan::plan_boot_sector))]
    pub fn boot_sector(&self, places: &[DiskSector], present: &Sector, into: &mut Sector)
        requires { All (λ place. place.disk ≡ self.now.disk) places.now }
        ensures sector { (machine : Machine) → IsFor machine self.now
            → into.new ≡ plan_boot_sector (plan_view self.now) machine (map place_view places.now) present.now }
        ensures boots { (machine : Machine) → IsFor machine self.now
            → BootsAsMeant machine self.now (map place_view places.now) present.now into.new }
    {
        let code = code_sector(&self.files.code);
        self.boot(places).merge(&code, present, into);
    }

    // The fields of the boot sector.
    #[tactic(auto, unfolding(lilo_model::specs::Plan::plan_boot))]
    fn boot(&self, places: &[DiskSector]) -> BootSector
        ensures value { (machine : Machine) → IsFor machine self.now → LieOnFour (map place_view places.now)
            → boot_view result ≡ plan_boot (plan_view self.now) machine (map place_view places.now) }
        ensures slots { HasMapSlots result }
    {
        BootSector {
            version: 1,
            time: self.time,
            prompt: self.config.prompt,
            delay: self.config.delay,
            timeout: self.config.timeout,
            names: self.name_count(),
            default_entry: self.default_entry(),
            message_length: size_of(&self.files.message),
            message_chain: self.optional_chain(&self.files.message),
            line: self.slot_at(places, 0),
            zero: self.slot_at(places, 4),
            message: self.message_slot(places),
            table: self.table_slots(places),
        }
    }

    // How many names there are.
    fn name_count(&self) -> u16
        ensures { (machine : Machine) → IsFor machine self.now → result ≡ length (plan_names (plan_view self.now)) }
    {
        capped(self.names().items().len() as u32)
    }

    // The slot of the message's first section sector, if there is a message.
    fn message_slot(&self, places: &[DiskSector]) -> Option<Slot>
        ensures value { (machine : Machine) → HasGeometries machine self.now.geometries
            → LieOnFour (map place_view places.now)
            → option_map slot_view result ≡ option_map (λ file. slot_to (config_view self.now.config).mode machine
            (place_of_sector (model.message_places (map place_view places.now)) 0))
            (option_map file_view self.now.files.message) }
        ensures whole { IfSome result IsWritable }
    {
        match &self.files.message {
            Some(_) => Some(self.slot_at(places, 5)),
            None => None,
        }
    }

    // The slots of the table's sectors.
    fn table_slots(&self, places: &[DiskSector]) -> ArrayVec<Slot, 6>
        ensures value { (machine : Machine) → HasGeometries machine self.now.geometries
            → LieOnFour (map place_view places.now)
            → map slot_view result.items ≡ map (λ index. slot_to (config_view self.now.config).mode machine
            (place_of_sector (map place_view places.now) index)) (range_with_len 1 3) }
        ensures three { length result.items ≡ 3 }
        ensures whole { All IsWritable result.items }
    {
        let mut slots = ArrayVec::new();
        slots.push(self.slot_at(places, 1));
        slots.push(self.slot_at(places, 2));
        slots.push(self.slot_at(places, 3));
        slots
    }
}

// How many bytes a message has, 0 where there is none.
fn size_of(message: &Option<FileRuns>) -> u16
    ensures { IfSome message.now (λ file. file.size ≤ 65535)
        → result ≡ unwrap_or (option_map (λ file. file.size) (option_map file_view message.now)) 0 }
{
    match message {
        Some(file) => capped(file.size),
        None => 0,
    }
}

// The first sector of the file with the code, with zeros after the file's end.
fn code_sector(code: &BootCode) -> Sector
    ensures { result ≡ filled_bytes 512 (code_view code.now) }
{
    let length = usize::from(code.length).min(512);
    let mut sector = [0; 512];
    put_name(&mut sector, 0, 512, part(&code.bytes, 0, length));
    sector
}
