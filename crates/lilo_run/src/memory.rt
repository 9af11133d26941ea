// Whether the memory of the modelled PC matters to a run.
ghost use Rattle.std.specs.Prelude.{◌≡◌, ℕ, List, IsOk};
ghost use Rattle.lilo_model.specs.Words.{run_at};
ghost use Rattle.lilo_words.specs.Run.{run_behind, parts_behind};
ghost use Rattle.lilo_words.specs.View.{command_view};
ghost use Rattle.lilo_run.specs.Verdict.{is_boot, has_boot, run_boots};

use lilo_words::{Command, check, part_at};
use stream_trait::Words;

/// Whether a part of a run boots. Where none does, nothing that [`crate::lilo`] does depends on how much memory there
/// is, and memory stays.
pub fn boots(words: &Words) -> bool
    ensures { result ≡ run_boots (run_at words.now) }
{
    match check(words) {
        Ok(()) => has_boot(words),
        Err(_) => false,
    }
}

// Whether one of the parts of a run boots.
fn has_boot(words: &Words) -> bool
    requires { IsOk (run_behind words.now 0) }
    ensures { result ≡ has_boot (parts_behind words.now 0) }
{
    let mut next = Some(0);
    while let Some(from) = next {
        let read = part_at(words, from);
        if is_boot(read.part.command) {
            return true;
        }
        next = read.next;
    }
    false
}

fn is_boot(command: Command) -> bool
    ensures { (words : List (List ℕ)) → result ≡ is_boot (command_view words command) }
{
    matches!(command, Command::Boot { .. })
}
