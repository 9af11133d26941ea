// Names that an installation replaces or takes away, and what is there.
ghost use Rattle.std.specs.Prelude.{◌≡◌, ◌≤◌, ◌∷◌, ◌++◌, ℕ, List, codes, IfOk, IfErr};
ghost use Rattle.disk_trait.specs.Past.{Told};
ghost use Rattle.lilo_model.specs.MinixParts.{parts_of};
ghost use Rattle.lilo_model.specs.MinixNames.{names_in, IsSound};
ghost use Rattle.lilo_model.specs.NamePlaces.{name_path};
ghost use Rattle.minix_layout.specs.View.{super_view};
ghost use Rattle.minix_zones.specs.Volume.{volume_view, past_of, faults_of, SameVolume};
ghost use Rattle.minix_tree.specs.View.{HasFileCause, HasTreeCause, IsStat, IsNode};
ghost use Rattle.minix_names.specs.Component.{HasNoZero, IsFileName};
ghost use Rattle.minix_names.specs.Places.{LeadsToDirectory, IsPlace};
ghost use Rattle.install_apart.specs.Names.{
  GivesOwnName,
  GivesNamePair,
  GivesPair,
  IsInside,
  ArePairsInside,
  AreTwins,
  is_replaceable,
  is_pair_replaceable,
};

use conf_text::Text;
use disk_trait::Disks;
use minix_names::{NamePlace, look_up, place_of_name};
use minix_tree::{Stat, TreeFault, is_file};
use minix_zones::Volume;
use std::alloc::{AllocError, Global};

/// A name that an installation replaces or takes away, and what is there.
#[derive(Drop)]
pub struct OwnName {
    /// The number of its directory's inode.
    pub directory: u32,
    /// The last component of its path.
    pub name: Text,
    /// What is there, if anything.
    pub there: Option<Stat>,
}

/// A name, and the same with `~` at its end.
#[derive(Drop)]
pub struct NamePair {
    pub plain: OwnName,
    pub tilde: OwnName,
}

// Whether what is at a name may be replaced: it is a regular file, or nothing is there.
fn is_replaceable(own: &OwnName) -> bool
    ensures { result ≡ is_replaceable own.now }
{
    match &own.there {
        Some(stat) => is_file(&stat.node),
        None => true,
    }
}

/// The same of both of a pair, where both are asked for.
pub(crate) fn is_pair_replaceable(pair: &NamePair, both: bool) -> bool
    ensures { result ≡ is_pair_replaceable both pair.now }
{
    is_replaceable(&pair.plain) && (!both || is_replaceable(&pair.tilde))
}

// A name with `~`.
fn with_tilde(alloc: Global, name: &[u8]) -> Result<Text, AllocError>
    ensures { IfOk result (λ text. text ≡ name.now ++ codes "~") }
{
    let mut bytes = Vec::from_slice(alloc, name)?;
    bytes.push(b'~')?;
    Ok(Text::from_vec(bytes))
}

// A name of a directory, and what is there.
fn own_name<D: Disks>(
    volume: &mut Volume<'_, D>,
    directory: &Stat,
    name: Text,
) -> Result<OwnName, TreeFault>
    requires fits { IsStat volume.old.layout directory.now }
    requires node { IsNode volume.old directory.now }
    ensures own { Told (past_of volume.old) (λ now. IsSound (volume_view volume.old) now → (above : List (List ℕ))
        → LeadsToDirectory (super_view volume.old.layout)
        (parts_of (volume_view volume.old) now) above directory.now.inode
        → GivesOwnName (super_view volume.old.layout) (parts_of (volume_view volume.old) now) (name ∷ above) result) }
    ensures inside { IfOk result (IsInside volume.old.layout) }
    ensures called { IfOk result (λ own. (own.directory ≡ directory.now.inode) × (own.name ≡ name)) }
    ensures cause { IfErr result (HasTreeCause (faults_of volume.old) (faults_of volume.new)) }
    ensures later { faults_of volume.old ≤ faults_of volume.new }
    ensures same { SameVolume volume.old volume.new }
{
    match look_up(volume, directory, name.bytes()) {
        Ok(there) => Ok(OwnName {
            directory: directory.inode,
            name,
            there,
        }),
        Err(fault) => Err(fault),
    }
}

// The name at a place, and that with `~`.
fn pair_at<D: Disks>(
    alloc: Global,
    volume: &mut Volume<'_, D>,
    directory: &Stat,
    name: &[u8],
) -> Result<NamePair, TreeFault>
    requires fits { IsStat volume.old.layout directory.now }
    requires node { IsNode volume.old directory.now }
    ensures pair { Told (past_of volume.old) (λ now. IsSound (volume_view volume.old) now → (path : List (List ℕ))
        → IsPlace (super_view volume.old.layout)
        (parts_of (volume_view volume.old) now) path directory.now.inode name.now
        → GivesNamePair (super_view volume.old.layout) (parts_of (volume_view volume.old) now) path result) }
    ensures inside { IfOk result (ArePairsInside volume.old.layout) }
    ensures twins { IfOk result AreTwins }
    ensures called { IfOk result (λ pair. pair.plain.name ≡ name.now) }
    ensures cause { IfErr result (HasFileCause (faults_of volume.old) (faults_of volume.new)) }
    ensures later { faults_of volume.old ≤ faults_of volume.new }
    ensures same { SameVolume volume.old volume.new }
{
    let Ok(plain) = Text::new(alloc, name) else {
        return Err(TreeFault::Memory);
    };
    let Ok(tilde) = with_tilde(alloc, name) else {
        return Err(TreeFault::Memory);
    };
    let plain = own_name(volume, directory, plain)?;
    let tilde = own_name(volume, directory, tilde)?;
    Ok(NamePair { plain, tilde })
}

/// The name that a path ends with, and that with `~`.
pub(crate) fn find_pair<D: Disks>(
    alloc: Global,
    volume: &mut Volume<'_, D>,
    path: &[u8],
) -> Result<NamePair, TreeFault>
    ensures pair { Told (past_of volume.old) (λ now. IsSound (volume_view volume.old) now
        → GivesPair (super_view volume.old.layout) (parts_of (volume_view volume.old) now) result
        (name_path (names_in (volume_view volume.old) now) path.now)) }
    ensures inside { IfOk result (ArePairsInside volume.old.layout) }
    ensures twins { IfOk result AreTwins }
    ensures called { HasNoZero path.now → IfOk result (λ pair. IsFileName pair.plain.name) }
    ensures cause { IfErr result (HasFileCause (faults_of volume.old) (faults_of volume.new)) }
    ensures later { faults_of volume.old ≤ faults_of volume.new }
    ensures same { SameVolume volume.old volume.new }
{
    let place = match place_of_name(volume, path) {
        Ok(place) => place,
        Err(fault) => return Err(fault),
    };
    pair_at(alloc, volume, &place.directory, place.name)
}
