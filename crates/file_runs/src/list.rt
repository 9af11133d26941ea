// Lists of runs that grow at their end.
ghost use Rattle.std.specs.Prelude.{◌≡◌, ◌+◌, ◌^◌, ◌<◌, ◌++◌, All, OnOk, length};
ghost use Rattle.slot_lists.specs.Runs.{IsRun, run_count, run_places, places_in};
ghost use Rattle.file_runs.specs.Needed.{joined_run, AreJoined};

use slot_lists::Run;
use std::alloc::AllocError;

// The run of the sectors of two, where one has both.
fn joined_run(run: Run, next: Run) -> Option<Run>
    requires { run_count run + run_count next < 2 ^ 32 }
    ensures { result ≡ joined_run run next }
{
    match (run, next) {
        (
            Run::Stretch { disk, start, count },
            Run::Stretch {
                disk: other,
                start: from,
                count: more,
            },
        ) if disk == other && from >= start && from - start == u64::from(count) => {
            Some(Run::Stretch {
                disk,
                start,
                count: count + more,
            })
        }
        (Run::Hole { count }, Run::Hole { count: more }) => Some(Run::Hole {
            count: count + more,
        }),
        _ => None,
    }
}

// Adds the sectors of a run after those of some: to the last one, where they follow it.
pub(crate) fn add_run(runs: &mut Vec<Run>, run: Run) -> Result<(), AllocError>
    requires some { 0 < run_count run }
    requires room { length (places_in runs.old.items) + run_count run < 2 ^ 32 }
    ensures places { OnOk result (places_in runs.new.items ≡ places_in runs.old.items ++ run_places run) }
    ensures joined { AreJoined runs.old.items → OnOk result (AreJoined runs.new.items) }
    ensures are { All IsRun runs.old.items → IsRun run → OnOk result (All IsRun runs.new.items) }
{
    match runs.pop() {
        Some(last) => match joined_run(last, run) {
            Some(whole) => runs.push(whole)?,
            None => {
                runs.push(last)?;
                runs.push(run)?;
            }
        },
        None => runs.push(run)?,
    }
    Ok(())
}
