// What is checked before anything is written.
ghost use Rattle.std.specs.Prelude.{◌≡◌, ◌≤◌, IfOk, IfErr};
ghost use Rattle.disk_trait.specs.Past.{Told};
ghost use Rattle.lilo_model.specs.MinixNames.{IsSound};
ghost use Rattle.minix_tree.specs.View.{IsStat};
ghost use Rattle.minix_zones.specs.Volume.{volume_view, past_of, faults_of, SameVolume};
ghost use Rattle.lilo_model.specs.MinixEntries.{is_dots};
ghost use Rattle.ldisk_model.specs.Laid.{IsLaid};
ghost use Rattle.ldisk_files.specs.Answer.{
  GivesSurveyed,
  GivesName,
  GivesChecked,
  HasFileCause,
  is_found_removable,
  survey_answer,
};

use crate::fault::{FileFault, survey_fault, tree_fault};
use disk_trait::Disks;
use minix_names::{NamePlace, look_up, place_of_name};
use minix_survey::{Findings, SurveyFault, survey};
use minix_tree::{Stat, is_file, is_link};
use minix_zones::Volume;
use std::alloc::Global;

/// Surveys a volume: it is sound, or refused.
pub(crate) fn check_sound<D: Disks>(
    alloc: Global,
    volume: &mut Volume<'_, D>,
) -> Result<(), FileFault>
    requires laid { Told (past_of volume.old) (IsLaid (volume_view volume.old)) }
    ensures sound { Told (past_of volume.old) (λ now. GivesSurveyed (volume_view volume.old) now result) }
    ensures cause { IfErr result (HasFileCause (faults_of volume.old) (faults_of volume.new)) }
    ensures later { faults_of volume.old ≤ faults_of volume.new }
    ensures same { SameVolume volume.old volume.new }
{
    without_findings(survey(alloc, volume))
}

/// A survey's answer without what it found.
fn without_findings(found: Result<Findings, SurveyFault>) -> Result<(), FileFault>
    ensures { result ≡ survey_answer found }
{
    match found {
        Ok(_) => Ok(()),
        Err(fault) => Err(survey_fault(fault)),
    }
}

/// Whether what was found is a regular file or a symbolic link.
fn is_removable(found: &Option<Stat>) -> bool
    ensures { result ≡ is_found_removable found.now }
{
    match found {
        Some(stat) => is_file(&stat.node) || is_link(&stat.node),
        None => false,
    }
}

/// Whether a name is `.` or `..`.
#[tactic(auto, unfolding(lilo_model::specs::MinixEntries::is_dots))]
fn is_dots(name: &[u8]) -> bool
    ensures { result ≡ is_dots name.now }
{
    name == b".".as_slice() || name == b"..".as_slice()
}

/// The name of a regular file or a symbolic link that a path ends with, on a sound volume.
fn find_name<'p, D: Disks>(
    volume: &mut Volume<'_, D>,
    path: &'p [u8],
) -> Result<NamePlace<'p>, FileFault>
    ensures found { Told (past_of volume.old) (λ now. IsSound (volume_view volume.old) now
        → GivesName (volume_view volume.old) now path.now result) }
    ensures fits { IfOk result (λ place. IsStat volume.old.layout place.directory) }
    ensures cause { IfErr result (HasFileCause (faults_of volume.old) (faults_of volume.new)) }
    ensures later { faults_of volume.old ≤ faults_of volume.new }
    ensures same { SameVolume volume.old volume.new }
{
    let place = match place_of_name(volume, path) {
        Ok(place) => place,
        Err(fault) => return Err(tree_fault(fault)),
    };
    if is_dots(place.name) {
        return Err(FileFault::Refused);
    }
    match look_up(volume, &place.directory, place.name) {
        Ok(found) if is_removable(&found) => Ok(place),
        Ok(_) => Err(FileFault::Refused),
        Err(fault) => Err(tree_fault(fault)),
    }
}

/// What a path leads to that may be removed, once a survey finds the volume sound.
pub(crate) fn find_checked<'p, D: Disks>(
    alloc: Global,
    volume: &mut Volume<'_, D>,
    path: &'p [u8],
) -> Result<NamePlace<'p>, FileFault>
    requires laid { Told (past_of volume.old) (IsLaid (volume_view volume.old)) }
    ensures found { Told (past_of volume.old) (λ now. GivesChecked (volume_view volume.old) now path.now result) }
    ensures fits { IfOk result (λ place. IsStat volume.old.layout place.directory) }
    ensures cause { IfErr result (HasFileCause (faults_of volume.old) (faults_of volume.new)) }
    ensures later { faults_of volume.old ≤ faults_of volume.new }
    ensures same { SameVolume volume.old volume.new }
{
    check_sound(alloc, volume)?;
    find_name(volume, path)
}
