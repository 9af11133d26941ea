// A part of a run.
ghost use Rattle.std.specs.Prelude.{◌≡◌, ℕ, List, true, false, length, IfSome, IsTrue};
ghost use Rattle.lilo_words.specs.View.{command_view, part_view};
ghost use Rattle.disk_trait.specs.Calls.{SameOf};
ghost use Rattle.disk_trait.specs.Moments.{IsWhole};
ghost use Rattle.loader_core.specs.Leaves.{WritesAndAsks};
ghost use Rattle.lilo_run.specs.Install.{PartLeaves};
ghost use Rattle.lilo_run.specs.Run.{is_part_status, CarriesPart, IsLost, IsWriteLost};
ghost use Rattle.lilo_run.specs.Verdict.{part_effect, early_status, is_boot, is_write, reads_conf, works_on};

use crate::backup::put_back;
use crate::boot::boot_device;
use crate::conf::{conf_path, query, say_memory};
use crate::install_part::install;
use crate::line::{joined, put_line};
use crate::test_part::test;
use bios_model::{Bios, Ram};
use disk_trait::Disks;
use lilo_words::{Command, Part};
use loader_core::Shown;
use std::alloc::Global;
use stream_trait::{Sink, Source, Words};

/// Carries out a part of some arguments at a time, in seconds since 1970, and answers the status.
#[tactic(auto, unfolding(crate::specs::Verdict::command_effect, crate::specs::Verdict::early_status))]
pub(crate) fn carry_out<D: Disks, I: Source, O: Sink>(
    alloc: Global,
    words: &Words,
    part: Part<'_>,
    bios: &mut Bios<'_, D, I>,
    ram: &mut Ram,
    out: &mut Shown<'_, O>,
    time: u32,
) -> u8
    requires whole { IsWhole (D.size_of bios.old.disks.now) (D.past bios.old.disks.now) }
    ensures does { CarriesPart D.Disks I.Source O.Sink result
        (bios.old.disks.now, bios.old.keys.now, ram.old, out.old)
        (bios.new.disks.now, bios.new.keys.now, ram.new, out.new)
        (λ now machine memory. part_effect machine memory time now (part_view words.now part.entry)) }
    ensures leaves { PartLeaves D.Disks time (part_view words.now part.entry) result
        bios.old.disks.now bios.new.disks.now }
    ensures early { (words : List (List ℕ)) → IfSome (early_status (D.size_of bios.old.disks.now)
        (command_view words part.entry.command)) (λ status. result ≡ status) }
    ensures known { IsTrue (is_part_status result) }
    ensures starved { (words : List (List ℕ)) → result ≡ 13
        → reads_conf (command_view words part.entry.command) ≡ true }
    ensures written { (words : List (List ℕ)) → IsWriteLost result
        → is_write (command_view words part.entry.command) ≡ true }
    ensures after { (words : List (List ℕ)) → result ≡ 10
        → works_on (command_view words part.entry.command) ≡ true }
    ensures memory { length ram.new ≡ length ram.old }
    ensures quiet { (words : List (List ℕ)) → is_boot (command_view words part.entry.command) ≡ false
        → ram.new ≡ ram.old }
    ensures keys { (words : List (List ℕ)) → is_boot (command_view words part.entry.command) ≡ false
        → bios.new.keys.now ≡ bios.old.keys.now }
    ensures same { (words : List (List ℕ)) → is_write (command_view words part.entry.command) ≡ false
        → SameOf D.Disks bios.old.disks.now bios.new.disks.now }
    ensures asks { WritesAndAsks D.Disks I.Source O.Sink (bios.old, out.old) (bios.new, out.new)
        (IsLost result) (result ≡ 11) }
{
    let path = conf_path(part.config).as_bytes();
    match part.command {
        Command::Query(device) => query(alloc, bios.disks, device, part.root, path, out),
        Command::Boot { device, dump } => boot_device(bios, device, dump, ram, out),
        Command::Install => install(alloc, bios.disks, part.root, path, time, out),
        Command::Test => test(alloc, bios.disks, part.root, path, time, out),
        Command::SetLine { from, to } => match joined(alloc, words, from, to) {
            Ok(text) => put_line(alloc, bios.disks, part.root, path, text.as_slice(), out),
            Err(_) => say_memory(out),
        },
        Command::Restore(device) => put_back(bios.disks, part.root, device, out),
    }
}
