// The sectors of a section, and those that it names.
ghost use Rattle.std.specs.Prelude.{◌≡◌, ◌<◌, ◌≤◌, min, true, IfOk, IsErr, OnOk};
ghost use Rattle.lilo_model.specs.Slots.{place_at};
ghost use Rattle.lilo_model.specs.Section.{Listing, section};
ghost use Rattle.bios_model.specs.Reads.{OnlyReads};
ghost use Rattle.map_section.specs.Reader.{ReaderState, IsAsking, turns_left};
ghost use Rattle.map_section.specs.Run.{listed_slot, listed_sector};
ghost use Rattle.sector_address.specs.Machine.{machine_of, OnDisks};
ghost use Rattle.sector_address.specs.View.{slot_view};
ghost use Rattle.present_map.specs.Follow.{MeetsOn, ahead_of, IsCounted, IsFed};
ghost use Rattle.present_map.specs.Zones.{MeetsListing};

use crate::met_zones::MetZones;
use crate::place::{DiskFailed, place_of, read_place};
use disk_trait::Disks;
use map_section::{Ask, SectionReader};
use sector_address::Slot;

/// A section that is followed.
#[derive(Drop)]
struct Following {
    // The slot of the first section sector.
    first: Slot,
    // How many sectors are still to be named.
    wanted: u32,
    reader: SectionReader,
}

/// Meets the sectors of a list of `sectors` sectors, and those of its section, which has at most `chain` of them from
/// the one at a slot on. Each section sector is read once.
pub(crate) fn meet_section<D: Disks>(
    disks: &mut D,
    met: &mut MetZones,
    first: &Slot,
    sectors: u32,
    chain: u16,
) -> Result<(), DiskFailed>
    requires { first.now.count ≡ 1 }
    ensures met { OnOk result (OnDisks D.Disks disks.old (λ now machine.
        MeetsListing met.old met.new (section now machine (slot_view first.now) sectors chain))) }
    ensures reads { OnlyReads D.Disks disks.old disks.new (IsErr result) }
{
    let mut following = Following {
        first: *first,
        wanted: sectors,
        reader: SectionReader::new(sectors, chain),
    };
    let mut goes_on = true;
    while goes_on {
        goes_on = turn(disks, met, &mut following)?;
    }
    Ok(())
}

// Meets what comes next along a section: true where more may come.
fn turn<D: Disks>(
    disks: &mut D,
    met: &mut MetZones,
    following: &mut Following,
) -> Result<bool, DiskFailed>
    requires { IsCounted following.old }
    ensures counted { OnOk result (IsCounted following.new) }
    ensures first { following.new.first ≡ following.old.first }
    ensures fewer { IfOk result (λ goes_on. goes_on ≡ true
        → turns_left following.new.reader < turns_left following.old.reader) }
    ensures met { IfOk result (λ goes_on. OnDisks D.Disks disks.old (λ now machine.
        MeetsOn goes_on met.old met.new (ahead_of now machine following.new) (ahead_of now machine following.old))) }
    ensures reads { OnlyReads D.Disks disks.old disks.new (IsErr result) }
{
    match following.reader.next() {
        Ok(Ask::Slot(slot)) => {
            let wanted = following.wanted;
            following.wanted = wanted.saturating_sub(u32::from(slot.count));
            Ok(meet_sectors(disks, met, &slot, wanted))
        }
        Ok(Ask::Sector(link)) => feed(disks, met, &link, &mut following.reader),
        Ok(Ask::First) => feed(disks, met, &following.first, &mut following.reader),
        Ok(Ask::Done) => Ok(false),
        Err(_) => Ok(false),
    }
}

// Meets the sectors of a slot, as many as are wanted: true where all of them are there.
fn meet_sectors<D: Disks>(disks: &D, met: &mut MetZones, slot: &Slot, wanted: u32) -> bool
    ensures { (behind : Listing) → MeetsOn result met.old met.new behind
        (listed_slot (machine_of D.Disks disks.now) (slot_view slot.now) 0 (min slot.now.count wanted) behind) }
{
    for index in 0..u32::from(slot.count).min(wanted) {
        match place_of(disks, slot, index as u8) {
            Some(place) => met.meet(place),
            None => return false,
        }
    }
    true
}

// Meets the section sector at a slot, and feeds it to the reader that asked for it: false where it isn't there.
fn feed<D: Disks>(
    disks: &mut D,
    met: &mut MetZones,
    link: &Slot,
    reader: &mut SectionReader,
) -> Result<bool, DiskFailed>
    requires asking { IsAsking reader.old }
    requires one { link.now.count ≡ 1 }
    ensures fed { IfOk result (λ goes_on. goes_on ≡ true → IsFed reader.old reader.new) }
    ensures needed { reader.new.needed ≡ reader.old.needed }
    ensures met { IfOk result (λ goes_on. OnDisks D.Disks disks.old (λ now machine.
        (behind : ReaderState → Listing) → MeetsOn goes_on met.old met.new (behind reader.new)
        (listed_sector now behind reader.old (place_at machine (slot_view link.now) 0)))) }
    ensures reads { OnlyReads D.Disks disks.old disks.new (IsErr result) }
{
    let Some(place) = place_of(disks, link, 0) else {
        return Ok(false);
    };
    met.meet(place);
    let mut sector = [0; 512];
    read_place(disks, place, &mut sector)?;
    reader.feed(&sector);
    Ok(true)
}
