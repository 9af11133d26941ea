// What is chosen for a file that is stored, before anything is written.
ghost use Rattle.std.specs.Prelude.{◌≡◌, ◌≤◌, ◌∷◌, ℕ, List, length, IfOk, IfErr};
ghost use Rattle.disk_trait.specs.Past.{Told};
ghost use Rattle.disk_trait.specs.Moments.{IsTold, now};
ghost use Rattle.lilo_model.specs.MinixParts.{blocks_for};
ghost use Rattle.ldisk_model.specs.FileVerdict.{NewFile, most_stored};
ghost use Rattle.minix_create.specs.Chosen.{Suits};
ghost use Rattle.minix_names.specs.Component.{HasNoZero, IsFileName};
ghost use Rattle.minix_tree.specs.View.{IsStat, IsNode};
ghost use Rattle.minix_zones.specs.Volume.{volume_view, past_of, faults_of, SameVolume};
ghost use Rattle.ldisk_model.specs.Laid.{IsLaid};
ghost use Rattle.ldisk_files.specs.Answer.{HasFileCause};
ghost use Rattle.ldisk_files.specs.Made.{IsNewPlace, IsSoundNow, MayMakeNamed, MayMakeAt};
ghost use Rattle.ldisk_files.specs.Stored.{
  GivesFree,
  GivesRoom,
  TakesRoom,
  TakesStored,
  HasDiskCause,
  HasSourceCause,
  IsFileWish,
  IsGiven,
  IsStorable,
  IsUnread,
  padded_blocks,
};

use crate::check::check_sound;
use crate::content::{read_all, zero_blocks};
use crate::fault::FileFault;
use crate::place::find_new;
use crate::put_fault::PutFault;
use crate::room::choose_wish;
use disk_trait::Disks;
use minix_choice::Wish;
use minix_create::Chosen;
use minix_names::NamePlace;
use minix_zones::Volume;
use std::alloc::Global;
use stream_trait::Source;

/// The mode of a file.
const FILE_MODE: u16 = 0o100644;

/// What was chosen for a file, and its bytes.
#[derive(Drop)]
pub(crate) struct Stored {
    pub(crate) chosen: Chosen,
    pub(crate) bytes: Vec<u8>,
}

/// The name that a path ends with, at which nothing is yet, once a survey finds the volume sound.
fn find_free<'p, D: Disks>(
    alloc: Global,
    volume: &mut Volume<'_, D>,
    path: &'p [u8],
) -> Result<NamePlace<'p>, FileFault>
    requires laid { Told (past_of volume.old) (IsLaid (volume_view volume.old)) }
    requires path { HasNoZero path.now }
    ensures free { Told (past_of volume.old) (λ now. GivesFree (volume_view volume.old) now path.now result) }
    ensures name { IfOk result (λ place. IsFileName place.name.now) }
    ensures node { IfOk result (λ place. IsNode volume.old place.directory) }
    ensures fits { IfOk result (λ place. IsStat volume.old.layout place.directory) }
    ensures cause { IfErr result (HasFileCause (faults_of volume.old) (faults_of volume.new)) }
    ensures later { faults_of volume.old ≤ faults_of volume.new }
    ensures same { SameVolume volume.old volume.new }
{
    check_sound(alloc, volume)?;
    find_new(volume, path)
}

/// What is chosen for a wish of the bytes of a file by a name at which nothing is yet, on a sound volume.
fn choose_wished<D: Disks>(
    alloc: Global,
    volume: &mut Volume<'_, D>,
    place: &NamePlace<'_>,
    bytes: &[u8],
    wish: &Wish<'_>,
) -> Result<Chosen, FileFault>
    requires node { IsNode volume.old place.now.directory }
    requires fits { IsStat volume.old.layout place.now.directory }
    requires name { IsFileName place.now.name.now }
    requires few { length bytes.now ≤ most_stored }
    requires wish { IsFileWish place.now bytes.now wish.now }
    ensures may { IfOk result (λ chosen. IsTold (past_of volume.old) → IsSoundNow volume.old → (outer : List (List ℕ))
        → IsNewPlace (volume_view volume.old) (now (past_of volume.old)) outer place.now
        → MayMakeNamed volume.old outer place.now.name.now (NewFile bytes.now) chosen (padded_blocks bytes.now)) }
    ensures room { GivesRoom (past_of volume.old) (volume_view volume.old) place.now bytes.now result }
    ensures suits { IfOk result (Suits volume.old.layout volume.old.span) }
    ensures time { IfOk result (λ chosen. chosen.time ≡ wish.now.time) }
    ensures blocks { IfOk result (λ chosen. length chosen.choice.blocks ≤ blocks_for (length bytes.now)) }
    ensures cause { IfErr result (HasFileCause (faults_of volume.old) (faults_of volume.new)) }
    ensures later { faults_of volume.old ≤ faults_of volume.new }
    ensures same { SameVolume volume.old volume.new }
{
    choose_wish(alloc, volume, wish)
}

/// What is chosen for the bytes of a file.
fn choose_file<D: Disks>(
    alloc: Global,
    volume: &mut Volume<'_, D>,
    place: &NamePlace<'_>,
    bytes: &[u8],
    time: u32,
) -> Result<Chosen, FileFault>
    requires node { IsNode volume.old place.now.directory }
    requires fits { IsStat volume.old.layout place.now.directory }
    requires name { IsFileName place.now.name.now }
    requires few { length bytes.now ≤ most_stored }
    ensures may { IfOk result (λ chosen. IsTold (past_of volume.old) → IsSoundNow volume.old → (outer : List (List ℕ))
        → IsNewPlace (volume_view volume.old) (now (past_of volume.old)) outer place.now
        → MayMakeNamed volume.old outer place.now.name.now (NewFile bytes.now) chosen (padded_blocks bytes.now)) }
    ensures room { GivesRoom (past_of volume.old) (volume_view volume.old) place.now bytes.now result }
    ensures suits { IfOk result (Suits volume.old.layout volume.old.span) }
    ensures time { IfOk result (λ chosen. chosen.time ≡ time) }
    ensures blocks { IfOk result (λ chosen. length chosen.choice.blocks ≤ blocks_for (length bytes.now)) }
    ensures cause { IfErr result (HasFileCause (faults_of volume.old) (faults_of volume.new)) }
    ensures later { faults_of volume.old ≤ faults_of volume.new }
    ensures same { SameVolume volume.old volume.new }
{
    let Ok(holes) = zero_blocks(alloc, bytes) else {
        return Err(FileFault::Memory);
    };
    let wish = Wish {
        mode: FILE_MODE,
        length: bytes.len() as u32,
        holes: holes.as_slice(),
        time,
        directory: place.directory.inode,
        name: place.name,
    };
    choose_wished(alloc, volume, place, bytes, &wish)
}

/// The same of the bytes of a source.
fn choose_given<D: Disks, I: Source>(
    alloc: Global,
    volume: &mut Volume<'_, D>,
    place: &NamePlace<'_>,
    source: &mut I,
    time: u32,
) -> Result<Stored, PutFault>
    requires node { IsNode volume.old place.now.directory }
    requires fits { IsStat volume.old.layout place.now.directory }
    requires name { IsFileName place.now.name.now }
    ensures given { IfOk result (λ stored. IsGiven (I.left source.old) stored.bytes.items) }
    ensures may { IfOk result (λ stored. IsTold (past_of volume.old) → IsSoundNow volume.old → (outer : List (List ℕ))
        → IsNewPlace (volume_view volume.old) (now (past_of volume.old)) outer place.now
        → MayMakeNamed volume.old outer place.now.name.now (NewFile stored.bytes.items) stored.chosen
        (padded_blocks stored.bytes.items)) }
    ensures room { TakesRoom (past_of volume.old) (volume_view volume.old) place.now (I.left source.old) result }
    ensures suits { IfOk result (IsStorable volume.old.layout volume.old.span) }
    ensures time { IfOk result (λ stored. stored.chosen.time ≡ time) }
    ensures source { IfErr result (HasSourceCause (I.faults source.old) (I.faults source.new)) }
    ensures cause { IfErr result (HasDiskCause (faults_of volume.old) (faults_of volume.new)) }
    ensures later { faults_of volume.old ≤ faults_of volume.new }
    ensures same { SameVolume volume.old volume.new }
{
    let bytes = read_all(alloc, source)?;
    match choose_file(alloc, volume, place, bytes.as_slice(), time) {
        Ok(chosen) => Ok(Stored { chosen, bytes }),
        Err(fault) => Err(PutFault::File(fault)),
    }
}

/// The same at a path, once a survey finds the volume sound. The source is asked only where nothing is at the path.
pub(crate) fn choose_stored<D: Disks, I: Source>(
    alloc: Global,
    volume: &mut Volume<'_, D>,
    path: &[u8],
    source: &mut I,
    time: u32,
) -> Result<Stored, PutFault>
    requires laid { Told (past_of volume.old) (IsLaid (volume_view volume.old)) }
    requires path { HasNoZero path.now }
    ensures given { IfOk result (λ stored. IsGiven (I.left source.old) stored.bytes.items) }
    ensures may { IfOk result (λ stored. IsTold (past_of volume.old) → MayMakeAt volume.old path.now
        (NewFile stored.bytes.items) stored.chosen (padded_blocks stored.bytes.items)) }
    ensures takes { TakesStored (past_of volume.old) (volume_view volume.old) path.now (I.left source.old) result }
    ensures suits { IfOk result (IsStorable volume.old.layout volume.old.span) }
    ensures time { IfOk result (λ stored. stored.chosen.time ≡ time) }
    ensures unread { IsUnread (past_of volume.old) (volume_view volume.old) path.now source.old source.new }
    ensures source { IfErr result (HasSourceCause (I.faults source.old) (I.faults source.new)) }
    ensures cause { IfErr result (HasDiskCause (faults_of volume.old) (faults_of volume.new)) }
    ensures later { faults_of volume.old ≤ faults_of volume.new }
    ensures same { SameVolume volume.old volume.new }
{
    let place = match find_free(alloc, volume, path) {
        Ok(place) => place,
        Err(fault) => return Err(PutFault::File(fault)),
    };
    choose_given(alloc, volume, &place, source, time)
}
