ghost use Rattle.std.specs.Prelude.{◌≡◌, ◌*◌, ◌<◌, ◌≤◌, length, Ok, All, IfOk};
ghost use Rattle.lilo_model.specs.Checks.{seen};
ghost use Rattle.lilo_model.specs.Table.{entry_bytes, same_name, repeats, breaks, table_at};
ghost use Rattle.lilo_model.specs.Plan.{sectors_of_table};
ghost use Rattle.map_again_laws.specs.Fits.{FitEntries, HaveNames};
ghost use Rattle.boot_map.specs.View.{table_view, map_fault_view};
ghost use Rattle.boot_map.specs.Ranges.{IsNamed, HasSectors, FitsFlags, HasEntrySlots};

use crate::boot_sector::BootSector;
use crate::descriptor::{Descriptor, descriptor_of, entry_name, is_entry};
use crate::map_fault::MapFault;
use arrayvec::ArrayVec;
use sector_parts::{Sector, part};

/// The descriptors of a map, in the order of the table.
#[derive(Clone, Debug, PartialEq, Eq, Drop)]
pub struct Table {
    pub entries: ArrayVec<Descriptor, 48>,
}

impl Table {
    /// Reads the entries of a table from its sectors, eight from each, as many as the boot sector has
    /// names. `BadTable(entry)` is for the first entry that breaks the format.
    #[tactic(auto, unfolding(lilo_model::specs::Table::table_at))]
    pub fn read(boot: &BootSector, sectors: &[Sector]) -> Result<Table, MapFault>
        requires covered { boot.now.names ≤ 8 * length sectors.now }
        requires fits { boot.now.names ≤ 48 }
        ensures read { seen table_view map_fault_view result ≡ table_at boot.now.names sectors.now }
        ensures count { IfOk result (λ table. length table.entries.items ≡ boot.now.names) }
        ensures names { IfOk result (λ table. All IsNamed table.entries.items) }
        ensures sectors { IfOk result (λ table. All HasSectors table.entries.items) }
        ensures flags { IfOk result (λ table. All FitsFlags table.entries.items) }
    {
        let mut entries = ArrayVec::new();
        for entry in 0..boot.names {
            let place = usize::from(entry);
            if breaks(sectors, place) {
                return Err(MapFault::BadTable(entry as u8));
            }
            entries.push(descriptor_of(entry_bytes(sectors, place)));
        }
        Ok(Table { entries })
    }

    /// Writes the entries into the three sectors of a table, eight into each, and zeros after the last.
    #[tactic(auto, unfolding(lilo_model::specs::Plan::sectors_of_table))]
    pub fn write_into(&self, sectors: &mut [Sector])
        requires three { length sectors.old ≡ 3 }
        requires fits { length self.now.entries.items ≤ 24 }
        requires slots { All HasEntrySlots self.now.entries.items }
        ensures bytes { sectors.new ≡ sectors_of_table (table_view self.now) }
        ensures again { FitEntries (table_view self.now) → HaveNames (table_view self.now)
            → table_at (length self.now.entries.items) sectors.new ≡ Ok (table_view self.now) }
    {
        sectors.copy_from_slice(&[[0; 512]; 3]);
        for (index, entry) in self.entries.iter().enumerate() {
            entry.put(&mut sectors[index / 8], index % 8 * 64);
        }
    }
}

// Whether an entry breaks the format.
#[tactic(auto, unfolding(lilo_model::specs::Table::breaks))]
fn breaks(sectors: &[Sector], entry: usize) -> bool
    requires { entry < 8 * length sectors.now }
    ensures { result ≡ breaks sectors.now entry }
{
    !is_entry(entry_bytes(sectors, entry)) || repeats(sectors, entry)
}

// Whether the name of an entry is in an earlier one.
#[tactic(auto, unfolding(lilo_model::specs::Table::repeats))]
fn repeats(sectors: &[Sector], entry: usize) -> bool
    requires { entry < 8 * length sectors.now }
    ensures { result ≡ repeats sectors.now entry }
{
    for other in 0..entry {
        if same_name(sectors, entry, other) {
            return true;
        }
    }
    false
}

// Whether two entries have one name.
#[tactic(auto, unfolding(lilo_model::specs::Table::same_name))]
fn same_name(sectors: &[Sector], entry: usize, other: usize) -> bool
    requires entry { entry < 8 * length sectors.now }
    requires other { other < 8 * length sectors.now }
    ensures { result ≡ same_name sectors.now entry other }
{
    entry_name(entry_bytes(sectors, other)) == entry_name(entry_bytes(sectors, entry))
}

// The 64 bytes of an entry.
#[tactic(auto, unfolding(lilo_model::specs::Table::entry_bytes))]
fn entry_bytes(sectors: &[Sector], entry: usize) -> &[u8]
    requires { entry < 8 * length sectors.now }
    ensures bytes { result.now ≡ entry_bytes sectors.now entry }
    ensures length { length result.now ≡ 64 }
{
    part(&sectors[entry / 8], entry % 8 * 64, 64)
}
