// A regular file that is made on a sound volume, as an installation needs it.
ghost use Rattle.std.specs.Prelude.{◌≡◌, false};
ghost use Rattle.disk_trait.specs.Moments.{IsTold, now};
ghost use Rattle.install_stage.specs.Named.{NamesLaw, NamesFiles};
ghost use Rattle.install_stage.specs.Sectors.{LieWhereChosen, HasPlaces};
ghost use Rattle.install_stage.specs.Within.{
  AreDataZones,
  ApartLaw,
  FreeWherePromised,
  GainsJoinLaw,
  IsFreeFile,
  MakesFile,
  NeedsNoOther,
  WasWritable,
  WritesJoin,
  WritesWithin,
  is_chosen,
};
ghost use Rattle.lilo_model.specs.MinixNames.{IsSound};
ghost use Rattle.lilo_model.specs.MinixParts.{is_directory};
ghost use Rattle.minix_create.specs.Chosen.{IsFreeNow, Suits, new_inode};
ghost use Rattle.minix_create.specs.Several.{WasMade};
ghost use Rattle.minix_layout.specs.View.{super_view};
ghost use Rattle.minix_zones.specs.Volume.{past_of, volume_view};

use disk_trait::Disks;
use minix_create::Chosen;
use minix_zones::Volume;

/// What isn't one of a sound volume's sectors past its block 0 isn't one that a writer of files may write.
pub fn apart_sectors_are_not_writable()
    ensures { ApartLaw }
{}

/// The zones that were chosen for a file are data zones, and no sector is needed to make it but what a writer of files
/// may write with them.
pub fn file_needs_no_other_sector<D: Disks>(volume: &Volume<'_, D>, chosen: &Chosen)
    requires free { IsFreeFile volume.now chosen.now }
    ensures zones { AreDataZones (super_view volume.now.layout) (is_chosen chosen.now) }
    ensures others { NeedsNoOther volume.now chosen.now }
{}

/// They are free, also those by which its directory is to grow, where it was promised that they are.
pub fn promised_zones_are_free<D: Disks>(volume: &Volume<'_, D>, chosen: &Chosen)
    requires free { IsFreeFile volume.now chosen.now }
    ensures { FreeWherePromised volume.now chosen.now }
{}

/// So a file that is made, or refused, is written by what a writer of files may write.
pub fn file_writes_within_its_zones<D: Disks>(
    start: &Volume<'_, D>,
    volume: &Volume<'_, D>,
    chosen: &Chosen,
)
    requires free { IsFreeFile start.now chosen.now }
    requires makes { MakesFile start.now volume.now chosen.now }
    ensures { WritesWithin start.now volume.now chosen.now }
{}

/// What a writer of files may write once a file was made, it might write before, with the file's zones.
pub fn writable_then_was_writable<D: Disks>(
    start: &Volume<'_, D>,
    volume: &Volume<'_, D>,
    one: &Chosen,
)
    requires file { is_directory (new_inode one.now) ≡ false }
    requires made { WasMade start.now volume.now one.now }
    ensures { WasWritable start.now volume.now one.now }
{}

/// So what is written for a later file joins what this one wrote.
pub fn later_writes_join<D: Disks>(start: &Volume<'_, D>, volume: &Volume<'_, D>, one: &Chosen)
    requires free { IsFreeFile start.now one.now }
    requires made { WasMade start.now volume.now one.now }
    ensures { WritesJoin start.now volume.now one.now }
{}

/// And it joins what was written in a run in which no inode gained a zone.
pub fn later_writes_join_where_nothing_is_gained()
    ensures { GainsJoinLaw }
{}

/// Each sector of a file that was made lies where it was chosen, and is the one that was given; its inode has these and
/// no others.
pub fn sectors_lie_where_chosen<D: Disks>(
    start: &Volume<'_, D>,
    volume: &Volume<'_, D>,
    chosen: &Chosen,
)
    requires told { IsTold (past_of start.now) }
    requires suits { Suits start.now.layout start.now.span chosen.now }
    requires free { IsFreeNow start.now chosen.now }
    ensures sectors { LieWhereChosen start.now volume.now chosen.now }
    ensures places { HasPlaces start.now volume.now chosen.now }
{}

/// Where one path leads elsewhere, Names are the old ones with what is there.
pub fn made_names_are_the_old_ones_with_it()
    ensures { NamesLaw }
{}

/// At any moment of a file's making a stop leaves a sound volume with the old Names, or with the whole file too.
pub fn stop_leaves_old_names_or_the_file<D: Disks>(
    start: &Volume<'_, D>,
    volume: &Volume<'_, D>,
    chosen: &Chosen,
)
    requires sound { IsSound (volume_view start.now) (now (past_of start.now)) }
    ensures { NamesFiles start.now volume.now chosen.now }
{}
