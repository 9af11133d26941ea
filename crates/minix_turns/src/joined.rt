// What calls in a row leave for those who look by name: functions that only say so, and do nothing.
ghost use Rattle.disk_trait.specs.Moments.{IsTold, now, IsQuiet};
ghost use Rattle.lilo_model.specs.MinixNames.{IsSound};
ghost use Rattle.minix_steps.specs.Steps.{Steps};
ghost use Rattle.minix_turns.specs.Joined.{Unseen, LeadsAfter, StaysLed};
ghost use Rattle.minix_zones.specs.Volume.{volume_view, past_of};

use disk_trait::Disks;
use minix_zones::Volume;

/// No name sees steps that begin at a quiet moment on a sound volume.
pub fn steps_are_unseen<D: Disks>(old: &Volume<'_, D>, new: &Volume<'_, D>)
    requires quiet { IsQuiet (past_of old.now) }
    requires sound { IsTold (past_of old.now) → IsSound (volume_view old.now) (now (past_of old.now)) }
    requires steps { Steps old.now new.now }
    ensures { Unseen old.now new.now }
{}

/// Calls in a row that no name sees are unseen together.
pub fn unseen_calls_join<D: Disks>(old: &Volume<'_, D>, mid: &Volume<'_, D>, new: &Volume<'_, D>)
    requires first { Unseen old.now mid.now }
    requires next { Unseen mid.now new.now }
    ensures { Unseen old.now new.now }
{}

/// A path that is changed after what no name sees is changed whole or not at all, from the first moment on.
pub fn path_is_led_after<D: Disks>(old: &Volume<'_, D>, mid: &Volume<'_, D>, new: &Volume<'_, D>)
    requires first { Unseen old.now mid.now }
    ensures { LeadsAfter old.now mid.now new.now }
{}

/// And it stays changed through what no name sees.
pub fn path_stays_led<D: Disks>(old: &Volume<'_, D>, mid: &Volume<'_, D>, new: &Volume<'_, D>)
    requires next { Unseen mid.now new.now }
    ensures { StaysLed old.now mid.now new.now }
{}
