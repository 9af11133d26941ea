// What there is to settle.
ghost use Rattle.std.specs.Prelude.{◌≡◌, ◌<◌, ◌≤◌, ◌&&◌, ℕ, true, List, IfOk, IfErr, IfSome};
ghost use Rattle.lilo_model.specs.MinixNames.{IsSound};
ghost use Rattle.lilo_model.specs.MinixParts.{parts_of};
ghost use Rattle.lilo_model.specs.MinixWalk.{visits};
ghost use Rattle.lilo_model.specs.Settled as model;
ghost use Rattle.minix_layout.specs.View.{kind_view, super_view};
ghost use Rattle.minix_tree.specs.View.{IsNode};
ghost use Rattle.minix_zones.specs.View.{span_view};
ghost use Rattle.minix_zones.specs.Volume.{volume_view, sizes_of, faults_of, SameVolume, HasDeviceCause};
ghost use Rattle.sector_address.specs.Machine.{OnDisks};
ghost use Rattle.install_apart.specs.Names.{IsPair, is_replaceable};
ghost use Rattle.install_laws.specs.InstallVerdict.{is_to_finish, may_settle};
ghost use Rattle.install_settle.specs.Found.{
  AreFound,
  IsToSettle,
  HasSettleCause,
  IsLeft,
  RefusesLinks,
  is_there,
  has_copy,
  has_link_left,
  left_map,
};

use disk_trait::{Disks, Span};
use install_apart::{NamePair, OwnName, OwnNames};
use minix_layout::FsKind;
use minix_turns::most_links;
use minix_zones::Volume;
use present_map::{OldMapFault, holds_table};

/// What is done with the name of a new map, `map~`, that an earlier installation left behind.
#[derive(Clone, Copy, Debug, PartialEq, Eq)]
pub enum LeftMap {
    /// It isn't there.
    Absent,
    /// It holds the present map, and `map` doesn't: it takes the place of `map`.
    Finish,
    /// It is removed.
    Remove,
}

/// What there is to settle.
#[derive(Clone, Copy, Debug, PartialEq, Eq)]
pub struct Settling {
    pub map: LeftMap,
    /// Whether a stale copy of a forced backup is removed.
    pub copy: bool,
}

impl Settling {
    ghost use Rattle.std.specs.Prelude.{◌≡◌};
    ghost use Rattle.install_settle.specs.Found.{is_anything};

    // Whether there is anything to settle.
    pub(crate) fn is_anything(self) -> bool
        ensures { result ≡ is_anything self }
    {
        match self.map {
            LeftMap::Absent => self.copy,
            LeftMap::Finish | LeftMap::Remove => true,
        }
    }
}

/// Why nothing is settled.
#[derive(Clone, Copy, Debug, PartialEq, Eq)]
pub enum SettleFault {
    /// `map~` takes the place of a `map` that is there, and has as many links as it can have.
    Links,
    /// A disk failed.
    Device,
}

// Whether anything is at a name.
fn is_there(own: &OwnName) -> bool
    ensures { result ≡ is_there own.now }
{
    own.there.is_some()
}

// Whether a copy of a backup is there.
fn has_copy(backup: &Option<NamePair>) -> bool
    ensures { result ≡ has_copy backup.now }
{
    match backup {
        Some(pair) => is_there(&pair.tilde),
        None => false,
    }
}

// Whether `map~` may take the place of `map`: nothing is there, or it may have a link more.
fn has_link_left(pair: &NamePair, kind: FsKind) -> bool
    ensures { result ≡ has_link_left (kind_view kind) pair.now }
{
    match (&pair.plain.there, &pair.tilde.there) {
        (Some(_), Some(stat)) => stat.node.links < most_links(kind),
        _ => true,
    }
}

// What becomes of `map~`, by whether a rename is to be finished.
fn left_map(finishes: bool, pair: &NamePair) -> LeftMap
    ensures { result ≡ left_map finishes (is_there pair.now.tilde) }
{
    if finishes {
        LeftMap::Finish
    } else if is_there(&pair.tilde) {
        LeftMap::Remove
    } else {
        LeftMap::Absent
    }
}

// Whether a rename is to be finished: `map~` holds the table of the present map, and `map` doesn't.
fn finishes<D: Disks>(
    volume: &mut Volume<'_, D>,
    boot: Span,
    pair: &NamePair,
) -> Result<bool, OldMapFault>
    requires on_disk { boot.start < sizes_of volume.old boot.disk }
    requires plain { IfSome pair.now.plain.there (IsNode volume.old) }
    requires tilde { IfSome pair.now.tilde.there (IsNode volume.old) }
    ensures finishes { OnDisks D.Disks volume.old.disks.now (λ now machine. (path : List (List ℕ))
        → IsSound (volume_view volume.old) now
        → IsPair (super_view volume.old.layout) (parts_of (volume_view volume.old) now) path pair.now
        → is_replaceable pair.now.plain ≡ true
        → IfOk result (λ finishes. finishes ≡ is_to_finish now machine (volume_view volume.old)
        (visits (super_view volume.old.layout) (parts_of (volume_view volume.old) now)) (span_view boot) path)) }
    ensures there { IfOk result (λ finishes. finishes ≡ true → is_there pair.now.tilde ≡ true) }
    ensures device { HasDeviceCause volume.old volume.new OldMapFault.Device result }
    ensures later { faults_of volume.old ≤ faults_of volume.new }
    ensures same { SameVolume volume.old volume.new }
{
    let Some(tilde) = &pair.tilde.there else {
        return Ok(false);
    };
    if !holds_table(volume, boot, tilde)? {
        return Ok(false);
    }
    match &pair.plain.there {
        Some(plain) => Ok(!holds_table(volume, boot, plain)?),
        None => Ok(true),
    }
}

/// What there is to settle, by the names that an installation replaces and what was found there. Nothing is written.
///
/// # Errors
///
/// `Links`, or `Device`.
pub fn find_settling<D: Disks>(
    volume: &mut Volume<'_, D>,
    boot: Span,
    own: &OwnNames,
    forced: bool,
) -> Result<Settling, SettleFault>
    requires on_disk { boot.start < sizes_of volume.old boot.disk }
    requires plain { IfSome own.now.map.plain.there (IsNode volume.old) }
    requires tilde { IfSome own.now.map.tilde.there (IsNode volume.old) }

    // What is answered.
    ensures settling { OnDisks D.Disks volume.old.disks.now (λ now machine. (names : model.OwnNames)
        → IsSound (volume_view volume.old) now
        → AreFound (super_view volume.old.layout) (parts_of (volume_view volume.old) now) names own.now
        → is_replaceable own.now.map.plain ≡ true
        → IfOk result (IsToSettle now machine (volume_view volume.old) (span_view boot) names forced)) }
    ensures left { IfOk result (λ settling. IsLeft (kind_view volume.old.layout.kind) own.now.map settling.map) }
    ensures copy { IfOk result (λ settling. settling.copy ≡ (forced && has_copy own.now.backup)) }

    // When it is refused.
    ensures links { OnDisks D.Disks volume.old.disks.now (λ now machine. (names : model.OwnNames)
        → IsSound (volume_view volume.old) now
        → AreFound (super_view volume.old.layout) (parts_of (volume_view volume.old) now) names own.now
        → is_replaceable own.now.map.plain ≡ true
        → RefusesLinks result (may_settle now machine (volume_view volume.old)
        (visits (super_view volume.old.layout) (parts_of (volume_view volume.old) now)) (span_view boot) names.map)) }
    ensures cause { IfErr result (HasSettleCause (faults_of volume.old) (faults_of volume.new)) }
    ensures later { faults_of volume.old ≤ faults_of volume.new }
    ensures same { SameVolume volume.old volume.new }
{
    let Ok(finishes) = finishes(volume, boot, &own.map) else {
        return Err(SettleFault::Device);
    };
    if finishes && !has_link_left(&own.map, volume.layout().kind) {
        return Err(SettleFault::Links);
    }
    Ok(Settling {
        map: left_map(finishes, &own.map),
        copy: forced && has_copy(&own.backup),
    })
}
