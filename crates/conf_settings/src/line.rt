// The line that reports a refusal.
ghost use Rattle.std.specs.Prelude.{◌≡◌, ◌≤◌, ◌+◌, ◌++◌, length, codes, decimal, IfSome};
ghost use Rattle.lilo_model.specs.ConfRefusal.{config_line};
ghost use Rattle.lilo_model.specs.ConfOptions.{opt_name};
ghost use Rattle.conf_settings.specs.View.{opt_view, fault_view};

use crate::reason::{ConfFault, ConfReason, ReasonText};
use arrayvec::ArrayVec;
use itoa::Buffer;

/// `OPTION: REASON at line N`, as a refusal is reported.
#[tactic(auto, unfolding(lilo_model::specs::ConfRefusal::config_line))]
pub fn config_line(fault: ConfFault) -> ArrayVec<u8, 64>
    ensures line { IfSome (fault_view fault) (λ refusal. result.items ≡ config_line refusal) }
    ensures memory { fault.reason ≡ ConfReason.Memory → result.items ≡ opt_name (opt_view fault.option)
        ++ codes ": " ++ codes "memory" ++ codes " at line " ++ decimal fault.line }
    ensures short { length result.items ≤ 54 }
{
    let mut line = ArrayVec::new();
    put(&mut line, fault.option.name());
    put(&mut line, b": ");
    put_reason(&mut line, fault.reason.text());
    put(&mut line, b" at line ");
    let mut digits = Buffer::new();
    put(&mut line, digits.format(fault.line).as_bytes());
    line
}

// Adds the text of a reason.
fn put_reason(line: &mut ArrayVec<u8, 64>, text: ReasonText)
    requires { length line.old.items + length (text.words.now ++ text.other.now) ≤ 64 }
    ensures { line.new.items ≡ line.old.items ++ (text.words.now ++ text.other.now) }
{
    put(line, text.words);
    put(line, text.other);
}

// Adds a text.
fn put(line: &mut ArrayVec<u8, 64>, text: &[u8])
    requires { length line.old.items + length text.now ≤ 64 }
    ensures { line.new.items ≡ line.old.items ++ text.now }
{
    let _ = line.try_extend_from_slice(text);
}
