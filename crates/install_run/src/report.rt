// What an installation prints once it is planned.
ghost use Rattle.std.specs.Prelude.{◌≡◌, ◌++◌, if◌then◌else◌, codes, List, ℕ};
ghost use Rattle.std.specs.List.{flat_map};
ghost use Rattle.lilo_model.specs.Verdict.{name_line};
ghost use Rattle.stream_trait.specs.Shows.{Shows, sink_of};
ghost use Rattle.install_laws.specs.InstallVerdict.{added_lines};
ghost use Rattle.install_run.specs.Reports.{clear_text};

use crate::text::show_line;
use map_plan::NameList;
use stream_trait::{Shown, Sink};

/// What is reported of an installation that is planned: the sections that are omitted, whether the present map is
/// Clear, where it is of this format, the map's names, and the place of the default among them.
#[derive(Clone, Copy)]
pub struct Report<'a> {
    pub skipped: &'a NameList,
    pub clear: Option<bool>,
    pub names: &'a NameList,
    pub default_entry: u16,
}

// Shows the sections that are omitted.
fn show_skipped<O: Sink>(paths: &NameList, out: &mut Shown<'_, O>)
    ensures shown { Shows (sink_of O.Sink out.old)
        (flat_map (λ (path : List ℕ). codes "Skipping " ++ path ++ codes "\n") paths.now) (sink_of O.Sink out.new) }
    ensures same_reference { out.new.out.ghost_name ≡ out.old.out.ghost_name }
{
    let items = paths.items();
    for index in 0..items.len() {
        show_line(b"Skipping ", items[index].bytes(), out);
    }
}

// What ends the line of a name.
fn end_of(is_default: bool) -> &'static [u8]
    ensures { result.now ≡ (if is_default then codes " *\n" else codes "\n") }
{
    if is_default { b" *\n" } else { b"\n" }
}

// Shows the line of a name, with ` *` after the default's.
fn show_name<O: Sink>(name: &[u8], is_default: bool, out: &mut Shown<'_, O>)
    ensures shown { Shows (sink_of O.Sink out.old) (codes "Added " ++ name_line is_default name.now)
        (sink_of O.Sink out.new) }
    ensures same_reference { out.new.out.ghost_name ≡ out.old.out.ghost_name }
{
    out.put(b"Added ");
    out.put(name);
    out.put(end_of(is_default));
}

// Shows the map's names.
fn show_names<O: Sink>(names: &NameList, default_entry: u16, out: &mut Shown<'_, O>)
    ensures shown { Shows (sink_of O.Sink out.old) (added_lines default_entry 0 names.now) (sink_of O.Sink out.new) }
    ensures same_reference { out.new.out.ghost_name ≡ out.old.out.ghost_name }
{
    let items = names.items();
    for index in 0..items.len() {
        show_name(
            items[index].bytes(),
            index == usize::from(default_entry),
            out,
        );
    }
}

// Shows a text where the present map isn't Clear, or one where it is.
fn show_clear<O: Sink>(clear: Option<bool>, yes: &[u8], no: &[u8], out: &mut Shown<'_, O>)
    ensures shown { Shows (sink_of O.Sink out.old) (clear_text yes.now no.now clear) (sink_of O.Sink out.new) }
    ensures same_reference { out.new.out.ghost_name ≡ out.old.out.ghost_name }
{
    match clear {
        Some(true) => out.put(yes),
        Some(false) => out.put(no),
        None => {}
    }
}

impl Report<'_> {
    ghost use Rattle.std.specs.Prelude.{◌≡◌, ◌++◌, codes};
    ghost use Rattle.stream_trait.specs.Shows.{Shows, sink_of};
    ghost use Rattle.install_laws.specs.InstallVerdict.{answer_text, test_text};
    ghost use Rattle.install_run.specs.Reports.{answer_in};

    /// Shows what is planned: `Skipping` and the path of each section that is omitted, a warning where the present map
    /// isn't Clear, and `Added` and each name, with ` *` after the default's.
    #[tactic(auto, unfolding(install_laws::specs::InstallVerdict::answer_text))]
    pub fn show<O: Sink>(&self, out: &mut Shown<'_, O>)
        ensures shown { Shows (sink_of O.Sink out.old) (answer_text (answer_in self.now)) (sink_of O.Sink out.new) }
        ensures same_reference { out.new.out.ghost_name ≡ out.old.out.ghost_name }
    {
        show_skipped(self.skipped, out);
        show_clear(self.clear, b"", b"Warning: the old map isn't clear.\n", out);
        show_names(self.names, self.default_entry, out);
    }

    /// Shows the same, and then whether the present map is Clear, and that nothing was changed.
    #[tactic(auto, unfolding(install_laws::specs::InstallVerdict::test_text))]
    pub fn show_test<O: Sink>(&self, out: &mut Shown<'_, O>)
        ensures shown { Shows (sink_of O.Sink out.old) (test_text (answer_in self.now)) (sink_of O.Sink out.new) }
        ensures same_reference { out.new.out.ghost_name ≡ out.old.out.ghost_name }
    {
        self.show(out);
        show_clear(
            self.clear,
            b"Old map is clear.\n",
            b"Old map isn't clear.\n",
            out,
        );
        out.put(b"No changes were made.\n");
    }
}
