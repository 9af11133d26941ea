// What is chosen for the files that an installation makes.
ghost use Rattle.std.specs.Prelude.{◌≡◌, ◌≤◌, ◌^◌, ◌<◌, true, IfOk, IfErr, IfSome};
ghost use Rattle.std.specs.Option.{option_map};
ghost use Rattle.disk_trait.specs.Moments.{IsTold};
ghost use Rattle.disk_trait.specs.Past.{Told};
ghost use Rattle.lilo_model.specs.MinixLayout.{is_size};
ghost use Rattle.lilo_model.specs.MinixParts.{parts_of};
ghost use Rattle.minix_create.specs.Chosen.{Suits};
ghost use Rattle.minix_create.specs.Several.{PromisesWhereFree};
ghost use Rattle.minix_layout.specs.View.{kind_view, super_view};
ghost use Rattle.minix_choice.specs.Taken.{with_choice};
ghost use Rattle.minix_choice.specs.View.{taken_view, Gives, HasWriteCause};
ghost use Rattle.minix_zones.specs.Volume.{volume_view, past_of, faults_of, SameVolume};
ghost use Rattle.write_model.specs.Choice.{choose};
ghost use Rattle.install_apart.specs.Names.{IsInside};
ghost use Rattle.install_apart.specs.Own.{IsBackupInside};
ghost use Rattle.install_room.specs.Names.{IsCalled, IsBackupCalled, own_wish, backup_at, backup_of};
ghost use Rattle.install_room.specs.Room.{HasRoomFor, HasNoHole, IsFree, IsForName, IsForBackup, GivesBackup};
ghost use Rattle.install_room.specs.Room.{with_backup};

use disk_trait::Disks;
use install_apart::{NamePair, OwnName};
use minix_choice::{Taken, Wish, WriteFault};
use minix_create::{Chosen, choose};
use minix_zones::Volume;
use std::alloc::Global;

/// The mode of a file that an installation makes: a regular file, which its owner may write and everybody may read.
const FILE_MODE: u16 = 0o100644;

/// What is chosen for a file without holes by a name.
pub(crate) fn choose_for<D: Disks>(
    alloc: Global,
    volume: &mut Volume<'_, D>,
    taken: &mut Taken,
    own: &OwnName,
    length: u32,
    time: u32,
) -> Result<Chosen, WriteFault>
    requires inside { IsInside volume.old.layout own.now }
    requires called { IsCalled own.now }
    requires room { HasRoomFor volume.old.layout taken.old }
    requires sized { is_size (kind_view volume.old.layout.kind) length ≡ true }
    ensures choice { Told (past_of volume.old) (λ now. Gives (λ chosen. chosen.choice) result
        (choose (super_view volume.old.layout) (parts_of (volume_view volume.old) now) (taken_view taken.old)
        (own_wish own.now length time))) }
    ensures taken { IfOk result (λ chosen. taken.new ≡ with_choice taken.old own.now.directory chosen.choice) }
    ensures room { IfOk result (λ chosen. HasRoomFor volume.old.layout taken.new) }
    ensures made { IfOk result (IsForName own.now length time) }
    ensures suits { IfOk result (Suits volume.old.layout volume.old.span) }
    ensures whole { IsTold (past_of volume.old) → IfOk result HasNoHole }
    ensures free { IfOk result (IsFree volume.new taken.old) }
    ensures promises { IfOk result (PromisesWhereFree volume.new (taken_view taken.old) (taken_view taken.new)) }
    ensures cause { IfErr result (HasWriteCause (faults_of volume.old) (faults_of volume.new)) }
    ensures later { faults_of volume.old ≤ faults_of volume.new }
    ensures same { SameVolume volume.old volume.new }
{
    let wish = Wish {
        mode: FILE_MODE,
        length,
        holes: &[],
        time,
        directory: own.directory,
        name: own.name.bytes(),
    };
    choose(alloc, volume, &wish, taken)
}

/// Where a backup is made: with `~`, where it is forced, else where nothing is at its name.
fn backup_name(pair: &NamePair, forced: bool) -> Option<&OwnName>
    ensures { option_map (λ own. own.now) result ≡ backup_at forced pair.now }
{
    if forced {
        Some(&pair.tilde)
    } else if pair.plain.there.is_none() {
        Some(&pair.plain)
    } else {
        None
    }
}

/// What is chosen for the backup, where one is made.
pub(crate) fn choose_backup<D: Disks>(
    alloc: Global,
    volume: &mut Volume<'_, D>,
    taken: &mut Taken,
    pair: &Option<NamePair>,
    forced: bool,
    time: u32,
) -> Result<Option<Chosen>, WriteFault>
    requires inside { IsBackupInside volume.old.layout pair.now }
    requires called { IsBackupCalled pair.now }
    requires room { HasRoomFor volume.old.layout taken.old }
    ensures choice { Told (past_of volume.old) (λ now. GivesBackup (super_view volume.old.layout)
        (parts_of (volume_view volume.old) now) taken.old taken.new pair.now forced time result) }
    ensures taken { IfOk result (λ chosen. taken.new ≡ with_backup taken.old chosen) }
    ensures made { IfOk result (IsForBackup (backup_of forced pair.now) time) }
    ensures room { IfOk result (λ chosen. HasRoomFor volume.old.layout taken.new) }
    ensures suits { IfOk result (λ chosen. IfSome chosen (Suits volume.old.layout volume.old.span)) }
    ensures whole { IsTold (past_of volume.old) → IfOk result (λ chosen. IfSome chosen HasNoHole) }
    ensures free { IfOk result (λ chosen. IfSome chosen (IsFree volume.new taken.old)) }
    ensures promises { IfOk result (λ chosen. IfSome chosen
        (PromisesWhereFree volume.new (taken_view taken.old) (taken_view taken.new))) }
    ensures cause { IfErr result (HasWriteCause (faults_of volume.old) (faults_of volume.new)) }
    ensures later { faults_of volume.old ≤ faults_of volume.new }
    ensures same { SameVolume volume.old volume.new }
{
    let Some(pair) = pair else {
        return Ok(None);
    };
    let Some(own) = backup_name(pair, forced) else {
        return Ok(None);
    };
    match choose_for(alloc, volume, taken, own, 512, time) {
        Ok(chosen) => Ok(Some(chosen)),
        Err(fault) => Err(fault),
    }
}
