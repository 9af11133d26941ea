// Runs of a file's sectors.
ghost use Rattle.std.specs.Prelude.{◌≡◌, ◌+◌, ◌^◌, ◌<◌, ◌≤◌, IsSome, IfSome, MatchOption};
ghost use Rattle.slot_lists.specs.Made.{place_view};
ghost use Rattle.slot_lists.specs.Runs.{IsRun, run_count, run_place};

use crate::slots::DiskSector;
use std::marker::Model;

/// Sectors of a file in a row.
#[derive(Clone, Copy, Debug, PartialEq, Eq)]
pub enum Run {
    /// So many sectors of a disk, from a number on.
    Stretch { disk: u8, start: u64, count: u32 },
    /// So many sectors that lie nowhere: the zero sector stands for each.
    Hole { count: u32 },
}

/// The runs of a file, in order. To a contract it is the list of them.
#[derive(Drop)]
pub struct RunList {
    runs: Vec<Run>,
}

impl Model for RunList {
    ghost use Rattle.std.specs.Prelude.{List};
    ghost use Rattle.slot_lists.specs.declared.runs.Run.{Run};

    ghost Value = { List Run };

    ghost view = { λ list. list.runs.items };
}

impl RunList {
    /// The list of these.
    pub fn new(items: Vec<Run>) -> RunList
        ensures { result ≡ items.items }
    {
        RunList { runs: items }
    }

    /// Its runs.
    pub fn items(&self) -> &[Run]
        ensures { result.now ≡ self.now }
    {
        self.runs.as_slice()
    }
}

// How many sectors a run has.
pub(crate) fn count_of(run: &Run) -> u32
    ensures { result ≡ run_count run.now }
{
    match run {
        Run::Stretch { count, .. } | Run::Hole { count } => *count,
    }
}

// The sector at an offset of a run, the zero sector in a hole; `None` past its end.
pub(crate) fn sector_in(run: &Run, offset: u32, zero: DiskSector) -> Option<DiskSector>
    requires run { IsRun run.now }
    requires zero { zero.disk ≤ 3 }
    ensures found { MatchOption result (run_count run.now ≤ offset)
        (λ place. (offset < run_count run.now) × (place_view place ≡ run_place (place_view zero) run.now offset)) }
    ensures disk { IfSome result (λ place. place.disk ≤ 3) }
    ensures room { IsSome result → offset + 1 < 2 ^ 32 }
{
    match *run {
        Run::Stretch { disk, start, count } => {
            if offset < count {
                Some(DiskSector {
                    disk,
                    sector: start + u64::from(offset),
                })
            } else {
                None
            }
        }
        Run::Hole { count } => { if offset < count { Some(zero) } else { None } }
    }
}
