// The new map takes the place of the old one.
use crate::fault::write_refusal;
use crate::halt::Halt;
use crate::tidied::Tidied;
use disk_trait::{Disks, Phase};
use install_apart::NamePair;
use install_settle::tidy_map;
use minix_choice::WriteHalt;
use minix_zones::Volume;
use std::mem::drop;

/// A volume whose new map boots, from its name with `~`.
pub struct Committed<'d, D: Disks> {
    pub(crate) volume: Volume<'d, D>,
    /// The map's names.
    pub(crate) map: NamePair,
}

impl<'d, D: Disks> Committed<'d, D> {
    ghost use Rattle.std.specs.Prelude.{◌≡◌, IfOk, IfErr};
    ghost use Rattle.disk_trait.specs.Moments.{IsTold, IsQuiet};
    ghost use Rattle.minix_names.specs.Component.{IsFileName};
    ghost use Rattle.minix_zones.specs.Volume.{past_of, faults_of};
    ghost use Rattle.install_apart.specs.Names.{IsInside, AreTwins};
    ghost use Rattle.install_order.specs.Faults.{HasInstallCause};
    ghost use Rattle.install_order.specs.States.{HaltsTidying, IsTidiedFrom, MayBeTidied};

    /// Puts the new map in the place of the old one, which is freed. What boots is left alone, and everything is made
    /// durable. No memory is taken.
    ///
    /// # Errors
    ///
    /// `Device` alone, where the disks report their past: then a part of it is done. The phase is `After`.
    pub fn tidy(self) -> Result<Tidied<'d, D>, Halt<'d, D>>
        requires may { MayBeTidied self }
        ensures tidied { IfOk result (IsTidiedFrom self.entry) }
        ensures quiet { IfOk result (λ tidied. IsQuiet (past_of tidied.volume)) }
        ensures halted { IfErr result (HaltsTidying self.entry) }
        ensures cause { IfErr result (λ halt.
            HasInstallCause (faults_of self.entry.volume) (faults_of halt.volume) halt.fault) }
        ensures phase { IfErr result (λ halt. halt.phase ≡ Phase.After) }
    {
        let Committed { volume, map } = self;
        let tidied = tidy_map(volume, &map);
        drop(map);
        match tidied {
            Ok(volume) => Ok(Tidied { volume }),
            Err(WriteHalt { volume, fault }) => Err(Halt {
                volume,
                phase: Phase::After,
                fault: write_refusal(fault),
            }),
        }
    }
}
