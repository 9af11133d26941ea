// The new map takes the place of the old one.
ghost use Rattle.std.specs.Prelude.{◌≡◌, ℕ, List, Ok, Err, IfOk, IfErr};
ghost use Rattle.disk_trait.specs.Moments.{IsTold, IsQuiet};
ghost use Rattle.minix_names.specs.Component.{IsFileName};
ghost use Rattle.minix_choice.specs.View.{HasWriteCause};
ghost use Rattle.minix_zones.specs.Volume.{past_of, faults_of};
ghost use Rattle.install_apart.specs.Names.{IsInside, AreTwins};
ghost use Rattle.install_settle.specs.Tidies.{MayTidy, MayTidySome, Tidies};

use disk_trait::Disks;
use install_apart::NamePair;
use minix_choice::WriteHalt;
use minix_remove::replace_name;
use minix_zones::Volume;

/// Puts the new map, at the second of a pair of names, in the place of what is at the first, on a sound volume and from
/// a quiet moment on: after the commit. What was there, the old map, is freed with its zones, or has a link less where
/// it had more than one. At each moment one of the two names leads to the new map, whole. Everything is made durable.
/// No memory is taken.
///
/// # Errors
///
/// `Device` alone: then `map~` is the new map still, both names are, or `map` alone is.
pub fn tidy_map<'d, D: Disks>(
    volume: Volume<'d, D>,
    pair: &NamePair,
) -> Result<Volume<'d, D>, WriteHalt<'d, D>>
    // What was found of the names, and what is there now.
    requires inside { IsInside volume.layout pair.now.tilde }
    requires twins { AreTwins pair.now }
    requires called { IsFileName pair.now.plain.name }
    requires quiet { IsQuiet (past_of volume) }
    requires may { IsTold (past_of volume) → MayTidySome volume pair.now }

    // What is done.
    ensures tidied { IfOk result (λ new. (path : List (List ℕ))
        → (IsTold (past_of volume.entry) → MayTidy volume.entry path pair.now)
        → Tidies volume.entry new path pair.now.tilde.directory (Ok tt)) }
    ensures quiet { IfOk result (λ new. IsQuiet (past_of new)) }
    ensures halted { IfErr result (λ halt. (path : List (List ℕ))
        → (IsTold (past_of volume.entry) → MayTidy volume.entry path pair.now)
        → Tidies volume.entry halt.volume path pair.now.tilde.directory (Err halt.fault)) }
    ensures cause { IfErr result (λ halt.
        HasWriteCause (faults_of volume.entry) (faults_of halt.volume) halt.fault) }
{
    let from = pair.tilde.name.bytes();
    let to = pair.plain.name.bytes();
    replace_name(volume, pair.tilde.directory, from, to)
}
