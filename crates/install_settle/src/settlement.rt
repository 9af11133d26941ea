// What was left behind is settled.
ghost use Rattle.std.specs.Prelude.{◌≡◌, true, false, ℕ, List, Bool, Ok, Err, IfOk, IfErr};
ghost use Rattle.disk_trait.specs.Moments.{IsTold, IsQuiet};
ghost use Rattle.lilo_model.specs.Settled as model;
ghost use Rattle.minix_layout.specs.View.{kind_view, super_view};
ghost use Rattle.minix_names.specs.Component.{IsFileName};
ghost use Rattle.minix_steps.specs.Written.{parts_now};
ghost use Rattle.minix_choice.specs.View.{HasWriteCause};
ghost use Rattle.minix_zones.specs.Volume.{past_of, faults_of};
ghost use Rattle.install_apart.specs.Names.{IsInside, ArePairsInside, AreTwins, IsPair, is_replaceable};
ghost use Rattle.install_apart.specs.Own.{AreInside, IsReplaceable};
ghost use Rattle.install_settle.specs.At.{IsAt};
ghost use Rattle.install_settle.specs.Found.{
  AreNamesNow,
  IsCopyLeft,
  IsLeft,
  MaySettle,
  has_link_left,
  is_anything,
  is_there,
};
ghost use Rattle.install_settle.specs.Settles.{Settles};
ghost use Rattle.install_settle.specs.Steps.{DoesMap, DoesRemove, IsSomePair, IsSomewhere};

use crate::settling::{LeftMap, Settling};
use disk_trait::Disks;
use install_apart::{NamePair, OwnName, OwnNames};
use minix_choice::{WriteFault, WriteHalt};
use minix_remove::{remove, replace_name};
use minix_zones::Volume;

// Removes a name of a regular file that is there.
fn remove_name<'d, D: Disks>(
    volume: Volume<'d, D>,
    own: &OwnName,
) -> Result<Volume<'d, D>, WriteHalt<'d, D>>
    requires inside { IsInside volume.layout own.now }
    requires some { is_there own.now ≡ true }
    requires file { is_replaceable own.now ≡ true }
    requires quiet { IsQuiet (past_of volume) }
    requires somewhere { IsTold (past_of volume) → IsSomewhere volume own.now }
    ensures removed { IfOk result (λ new. (path : List (List ℕ))
        → (IsTold (past_of volume.entry) → IsAt (super_view volume.entry.layout) (parts_now volume.entry) path own.now)
        → DoesRemove volume.entry new path (Ok tt)) }
    ensures quiet { IfOk result (λ new. IsQuiet (past_of new)) }
    ensures halted { IfErr result (λ halt. (path : List (List ℕ))
        → (IsTold (past_of volume.entry) → IsAt (super_view volume.entry.layout) (parts_now volume.entry) path own.now)
        → DoesRemove volume.entry halt.volume path (Err halt.fault)) }
    ensures cause { IfErr result (λ halt.
        HasWriteCause (faults_of volume.entry) (faults_of halt.volume) halt.fault) }
{
    remove(volume, own.directory, own.name.bytes())
}

// Puts `map~` in the place of `map`, where it may have a link more if it needs one.
fn finish_rename<'d, D: Disks>(
    volume: Volume<'d, D>,
    pair: &NamePair,
) -> Result<Volume<'d, D>, WriteHalt<'d, D>>
    requires inside { ArePairsInside volume.layout pair.now }
    requires twins { AreTwins pair.now }
    requires called { IsFileName pair.now.plain.name }
    requires some { is_there pair.now.tilde ≡ true }
    requires link { has_link_left (kind_view volume.layout.kind) pair.now ≡ true }
    requires files { IsReplaceable true pair.now }
    requires quiet { IsQuiet (past_of volume) }
    requires found { IsTold (past_of volume) → IsSomePair volume pair.now }
    ensures finished { IfOk result (λ new. (path : List (List ℕ))
        → (IsTold (past_of volume.entry)
        → IsPair (super_view volume.entry.layout) (parts_now volume.entry) path pair.now)
        → DoesMap volume.entry new path LeftMap.Finish (Ok tt)) }
    ensures quiet { IfOk result (λ new. IsQuiet (past_of new)) }
    ensures halted { IfErr result (λ halt. (path : List (List ℕ))
        → (IsTold (past_of volume.entry)
        → IsPair (super_view volume.entry.layout) (parts_now volume.entry) path pair.now)
        → DoesMap volume.entry halt.volume path LeftMap.Finish (Err halt.fault)) }
    ensures cause { IfErr result (λ halt.
        HasWriteCause (faults_of volume.entry) (faults_of halt.volume) halt.fault) }
{
    let from = pair.tilde.name.bytes();
    replace_name(volume, pair.tilde.directory, from, pair.plain.name.bytes())
}

// Settles the map's names.
fn settle_map<'d, D: Disks>(
    volume: Volume<'d, D>,
    pair: &NamePair,
    left: LeftMap,
) -> Result<Volume<'d, D>, WriteHalt<'d, D>>
    requires inside { ArePairsInside volume.layout pair.now }
    requires twins { AreTwins pair.now }
    requires called { IsFileName pair.now.plain.name }
    requires left { IsLeft (kind_view volume.layout.kind) pair.now left }
    requires files { IsReplaceable true pair.now }
    requires quiet { IsQuiet (past_of volume) }
    requires found { IsTold (past_of volume) → IsSomePair volume pair.now }
    ensures settled { IfOk result (λ new. (path : List (List ℕ))
        → (IsTold (past_of volume.entry)
        → IsPair (super_view volume.entry.layout) (parts_now volume.entry) path pair.now)
        → DoesMap volume.entry new path left (Ok tt)) }
    ensures quiet { IfOk result (λ new. IsQuiet (past_of new)) }
    ensures halted { IfErr result (λ halt. (path : List (List ℕ))
        → (IsTold (past_of volume.entry)
        → IsPair (super_view volume.entry.layout) (parts_now volume.entry) path pair.now)
        → DoesMap volume.entry halt.volume path left (Err halt.fault)) }
    ensures cause { IfErr result (λ halt.
        HasWriteCause (faults_of volume.entry) (faults_of halt.volume) halt.fault) }
{
    match left {
        LeftMap::Absent => Ok(volume),
        LeftMap::Finish => finish_rename(volume, pair),
        LeftMap::Remove => remove_name(volume, &pair.tilde),
    }
}

// Settles what was left behind, from a quiet moment on: the map's names, then a stale copy of a forced backup.
fn settle_quiet<'d, D: Disks>(
    volume: Volume<'d, D>,
    own: &OwnNames,
    settling: Settling,
) -> Result<Volume<'d, D>, WriteHalt<'d, D>>
    requires inside { AreInside volume.layout own.now }
    requires twins { AreTwins own.now.map }
    requires called { IsFileName own.now.map.plain.name }
    requires left { IsLeft (kind_view volume.layout.kind) own.now.map settling.map }
    requires copy { IsCopyLeft own.now.backup settling.copy }
    requires files { IsReplaceable true own.now.map }
    requires quiet { IsQuiet (past_of volume) }
    requires found { IsTold (past_of volume) → AreNamesNow volume own.now }
    ensures settled { IfOk result (λ new. (names : model.OwnNames) (forced : Bool)
        → (IsTold (past_of volume.entry) → MaySettle volume.entry names forced own.now settling)
        → Settles volume.entry new names forced settling (Ok tt)) }
    ensures quiet { IfOk result (λ new. IsQuiet (past_of new)) }
    ensures halted { IfErr result (λ halt. (names : model.OwnNames) (forced : Bool)
        → (IsTold (past_of volume.entry) → MaySettle volume.entry names forced own.now settling)
        → Settles volume.entry halt.volume names forced settling (Err halt.fault)) }
    ensures cause { IfErr result (λ halt.
        HasWriteCause (faults_of volume.entry) (faults_of halt.volume) halt.fault) }
{
    let volume = settle_map(volume, &own.map, settling.map)?;
    match &own.backup {
        Some(pair) if settling.copy => remove_name(volume, &pair.tilde),
        _ => Ok(volume),
    }
}

/// Settles what was left behind, on a sound volume, by the names that an installation replaces and what was found
/// there: all that was written before is made durable; the rename is finished, or `map~` is removed; then a stale copy
/// of a forced backup is removed. Everything is made durable in this order. Where there is nothing to settle, nothing
/// is done. No memory is taken.
///
/// # Errors
///
/// `Device` alone: then a part of it is done.
pub fn settle<'d, D: Disks>(
    volume: Volume<'d, D>,
    own: &OwnNames,
    settling: Settling,
) -> Result<Volume<'d, D>, WriteHalt<'d, D>>
    // What was found.
    requires inside { AreInside volume.layout own.now }
    requires twins { AreTwins own.now.map }
    requires called { IsFileName own.now.map.plain.name }
    requires left { IsLeft (kind_view volume.layout.kind) own.now.map settling.map }
    requires copy { IsCopyLeft own.now.backup settling.copy }
    requires files { IsReplaceable true own.now.map }
    requires found { IsTold (past_of volume) → AreNamesNow volume own.now }

    // What is done.
    ensures nothing { is_anything settling ≡ false → result ≡ Ok volume.entry }
    ensures settled { IfOk result (λ new. (names : model.OwnNames) (forced : Bool)
        → (IsTold (past_of volume.entry) → MaySettle volume.entry names forced own.now settling)
        → Settles volume.entry new names forced settling (Ok tt)) }
    ensures quiet { IsQuiet (past_of volume.entry) → IfOk result (λ new. IsQuiet (past_of new)) }
    ensures halted { IfErr result (λ halt. (names : model.OwnNames) (forced : Bool)
        → (IsTold (past_of volume.entry) → MaySettle volume.entry names forced own.now settling)
        → Settles volume.entry halt.volume names forced settling (Err halt.fault)) }
    ensures cause { IfErr result (λ halt.
        HasWriteCause (faults_of volume.entry) (faults_of halt.volume) halt.fault) }
{
    if !settling.is_anything() {
        return Ok(volume);
    }
    let mut volume = volume;
    match volume.sync() {
        Ok(()) => settle_quiet(volume, own, settling),
        Err(_) => Err(WriteHalt {
            volume,
            fault: WriteFault::Device,
        }),
    }
}
