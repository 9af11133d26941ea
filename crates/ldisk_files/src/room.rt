// What is chosen for something new, before anything is written.
ghost use Rattle.std.specs.Prelude.{◌≡◌, ◌≢◌, ◌≤◌, ◌<◌, ◌∷◌, ℕ, List, [], true, All, IfOk, IfErr};
ghost use Rattle.disk_trait.specs.Past.{Told};
ghost use Rattle.disk_trait.specs.Moments.{IsTold, now};
ghost use Rattle.lilo_model.specs.MinixLayout.{is_size};
ghost use Rattle.lilo_model.specs.MinixNames.{IsSound};
ghost use Rattle.lilo_model.specs.MinixParts.{blocks_for};
ghost use Rattle.ldisk_model.specs.FileVerdict.{nothing_taken, sound_check, room_check, made_check};
ghost use Rattle.minix_create.specs.Chosen.{IsMade, Suits, HasEachZone, IsFreeWhereSound, LinksWhereSound};
ghost use Rattle.minix_layout.specs.View.{kind_view};
ghost use Rattle.minix_names.specs.Component.{HasNoZero, IsFileName};
ghost use Rattle.minix_tree.specs.View.{IsStat, IsNode};
ghost use Rattle.minix_zones.specs.Volume.{volume_view, past_of, faults_of, SameVolume};
ghost use Rattle.ldisk_model.specs.Laid.{IsLaid};
ghost use Rattle.ldisk_files.specs.Answer.{Answers, HasFileCause};
ghost use Rattle.ldisk_files.specs.Made.{
  Fits,
  GivesChoice,
  IsNewPlace,
  IsWishFor,
  IsReady,
  IsSoundNow,
  MayMakeNamed,
  MayMakeAt,
  making_view,
};

use crate::check::check_sound;
use crate::fault::{FileFault, write_fault};
use crate::making::{Making, first_block, length_in, mode_of};
use crate::place::find_new;
use disk_trait::Disks;
use minix_choice::{Taken, Wish};
use minix_create::{Chosen, choose};
use minix_names::NamePlace;
use minix_zones::Volume;
use std::alloc::Global;

/// What was chosen for something new, and its only block.
#[derive(Drop)]
pub(crate) struct Ready {
    pub(crate) chosen: Chosen,
    pub(crate) block: [u8; 1024],
}

/// What is chosen for a wish, where nothing was promised before.
pub(crate) fn choose_wish<D: Disks>(
    alloc: Global,
    volume: &mut Volume<'_, D>,
    wish: &Wish<'_>,
) -> Result<Chosen, FileFault>
    requires some { 1 ≤ wish.now.directory }
    requires there { wish.now.directory ≤ volume.old.layout.inodes }
    requires holes { All (λ hole. hole < blocks_for wish.now.length) wish.now.holes.now }
    requires no_zero { All (λ byte. byte ≢ 0) wish.now.name.now }
    requires sized { is_size (kind_view volume.old.layout.kind) wish.now.length ≡ true }
    ensures choice { Told (past_of volume.old) (λ now. GivesChoice (volume_view volume.old) now wish.now result) }
    ensures made { IfOk result (IsMade wish.now) }
    ensures suits { IfOk result (Suits volume.old.layout volume.old.span) }
    ensures whole { IfOk result (HasEachZone volume.new wish.now) }
    ensures free { IfOk result (IsFreeWhereSound volume.new nothing_taken) }
    ensures name { IfOk result (LinksWhereSound volume.new nothing_taken) }
    ensures cause { IfErr result (HasFileCause (faults_of volume.old) (faults_of volume.new)) }
    ensures later { faults_of volume.old ≤ faults_of volume.new }
    ensures same { SameVolume volume.old volume.new }
{
    let Ok(mut taken) = Taken::new(alloc, volume) else {
        return Err(FileFault::Memory);
    };
    match choose(alloc, volume, wish, &mut taken) {
        Ok(chosen) => Ok(chosen),
        Err(fault) => Err(write_fault(fault)),
    }
}

/// What is chosen for a wish of something new, and its block.
fn choose_ready<D: Disks>(
    alloc: Global,
    volume: &mut Volume<'_, D>,
    place: &NamePlace<'_>,
    making: &Making<'_>,
    wish: &Wish<'_>,
) -> Result<Ready, FileFault>
    requires node { IsNode volume.old place.now.directory }
    requires fits { IsStat volume.old.layout place.now.directory }
    requires name { IsFileName place.now.name.now }
    requires wish { IsWishFor (kind_view volume.old.layout.kind) place.now (making_view making.now) wish.now }
    ensures may { IfOk result (λ ready. IsTold (past_of volume.old) → IsSoundNow volume.old → (outer : List (List ℕ))
        → IsNewPlace (volume_view volume.old) (now (past_of volume.old)) outer place.now
        → Fits (making_view making.now) outer place.now
        → MayMakeNamed volume.old outer place.now.name.now (making_view making.now) ready.chosen (ready.block ∷ [])) }
    ensures answers { Told (past_of volume.old) (λ now. IsSound (volume_view volume.old) now → (outer : List (List ℕ))
        → IsNewPlace (volume_view volume.old) now outer place.now → Fits (making_view making.now) outer place.now
        → Answers (room_check (making_view making.now) (volume_view volume.old) now
        (place.now.name.now ∷ outer)) result) }
    ensures suits { IfOk result (IsReady volume.old.layout volume.old.span) }
    ensures time { IfOk result (λ ready. ready.chosen.time ≡ wish.now.time) }
    ensures cause { IfErr result (HasFileCause (faults_of volume.old) (faults_of volume.new)) }
    ensures later { faults_of volume.old ≤ faults_of volume.new }
    ensures same { SameVolume volume.old volume.new }
{
    let chosen = choose_wish(alloc, volume, wish)?;
    let inode = chosen.inode();
    let block = first_block(volume.layout().kind, making, inode, place.directory.inode);
    Ok(Ready { chosen, block })
}

/// What is chosen for something new by a name at which nothing is yet, on a sound volume.
fn choose_named<D: Disks>(
    alloc: Global,
    volume: &mut Volume<'_, D>,
    place: &NamePlace<'_>,
    making: &Making<'_>,
    time: u32,
) -> Result<Ready, FileFault>
    requires node { IsNode volume.old place.now.directory }
    requires fits { IsStat volume.old.layout place.now.directory }
    requires name { IsFileName place.now.name.now }
    ensures may { IfOk result (λ ready. IsTold (past_of volume.old) → IsSoundNow volume.old → (outer : List (List ℕ))
        → IsNewPlace (volume_view volume.old) (now (past_of volume.old)) outer place.now
        → MayMakeNamed volume.old outer place.now.name.now (making_view making.now) ready.chosen (ready.block ∷ [])) }
    ensures answers { Told (past_of volume.old) (λ now. IsSound (volume_view volume.old) now → (outer : List (List ℕ))
        → IsNewPlace (volume_view volume.old) now outer place.now
        → Answers (room_check (making_view making.now) (volume_view volume.old) now
        (place.now.name.now ∷ outer)) result) }
    ensures suits { IfOk result (IsReady volume.old.layout volume.old.span) }
    ensures time { IfOk result (λ ready. ready.chosen.time ≡ time) }
    ensures cause { IfErr result (HasFileCause (faults_of volume.old) (faults_of volume.new)) }
    ensures later { faults_of volume.old ≤ faults_of volume.new }
    ensures same { SameVolume volume.old volume.new }
{
    let length = length_in(volume, &place.directory, making)?;
    let wish = Wish {
        mode: mode_of(making),
        length,
        holes: &[],
        time,
        directory: place.directory.inode,
        name: place.name,
    };
    choose_ready(alloc, volume, place, making, &wish)
}

/// The same at a path of a sound volume.
fn choose_new<D: Disks>(
    alloc: Global,
    volume: &mut Volume<'_, D>,
    path: &[u8],
    making: &Making<'_>,
    time: u32,
) -> Result<Ready, FileFault>
    requires path { HasNoZero path.now }
    ensures may { IfOk result (λ ready. IsTold (past_of volume.old) → IsSoundNow volume.old
        → MayMakeAt volume.old path.now (making_view making.now) ready.chosen (ready.block ∷ [])) }
    ensures answers { Told (past_of volume.old) (λ now. IsSound (volume_view volume.old) now
        → Answers (made_check (making_view making.now) path.now (volume_view volume.old) now) result) }
    ensures suits { IfOk result (IsReady volume.old.layout volume.old.span) }
    ensures time { IfOk result (λ ready. ready.chosen.time ≡ time) }
    ensures cause { IfErr result (HasFileCause (faults_of volume.old) (faults_of volume.new)) }
    ensures later { faults_of volume.old ≤ faults_of volume.new }
    ensures same { SameVolume volume.old volume.new }
{
    let place = find_new(volume, path)?;
    choose_named(alloc, volume, &place, making, time)
}

/// The same, once a survey finds the volume sound.
pub(crate) fn choose_at<D: Disks>(
    alloc: Global,
    volume: &mut Volume<'_, D>,
    path: &[u8],
    making: &Making<'_>,
    time: u32,
) -> Result<Ready, FileFault>
    requires laid { Told (past_of volume.old) (IsLaid (volume_view volume.old)) }
    requires path { HasNoZero path.now }
    ensures may { IfOk result (λ ready. IsTold (past_of volume.old)
        → MayMakeAt volume.old path.now (making_view making.now) ready.chosen (ready.block ∷ [])) }
    ensures answers { Told (past_of volume.old) (λ now. Answers
        (sound_check (made_check (making_view making.now) path.now) (volume_view volume.old) now) result) }
    ensures suits { IfOk result (IsReady volume.old.layout volume.old.span) }
    ensures time { IfOk result (λ ready. ready.chosen.time ≡ time) }
    ensures cause { IfErr result (HasFileCause (faults_of volume.old) (faults_of volume.new)) }
    ensures later { faults_of volume.old ≤ faults_of volume.new }
    ensures same { SameVolume volume.old volume.new }
{
    check_sound(alloc, volume)?;
    choose_new(alloc, volume, path, making, time)
}
