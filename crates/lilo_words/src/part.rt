// What arguments ask for.
ghost use Rattle.std.specs.Prelude.{◌≡◌};
ghost use Rattle.lilo_model.specs.Words.{wrong_word};
ghost use Rattle.lilo_words.specs.Wrong.{wrong_view, IsPlaceIn};

use mbr_table::Device;
use stream_trait::Words;

/// What a part of a run does.
#[derive(Clone, Copy, Debug, PartialEq, Eq)]
pub enum Command {
    /// No argument: it installs.
    Install,
    /// `-t`: it reports what an installation would do.
    Test,
    /// `-q`: it lists the names in the map of a device, or else of the configuration's.
    Query(Option<Device>),
    /// `-R`: it sets the words of a line, which are those from one place to before another, or clears them.
    SetLine { from: usize, to: usize },
    /// `-u`: it restores the boot sector of a device.
    Restore(Device),
    /// `boot`: it boots a device, and with `--dump` reports the memory.
    Boot { device: Device, dump: bool },
}

/// A part of a run.
#[derive(Clone, Copy, Debug, PartialEq, Eq)]
pub struct Part<'w> {
    /// The path of the configuration, after `-C`.
    pub config: Option<&'w str>,
    /// The device of the volume, after `--root`.
    pub root: Option<Device>,
    /// `-v`.
    pub verbose: bool,
    pub command: Command,
}

/// Why arguments are no run.
#[derive(Clone, Copy, Debug, PartialEq, Eq)]
pub enum Wrong {
    /// The argument at this place is the first that isn't allowed where it is.
    Word(usize),
    /// All arguments are allowed where they are, and more must follow.
    End,
}

impl Wrong {
    /// The argument that isn't allowed where it is, or `(end)`.
    pub fn word(self, words: &Words) -> &str
        requires { IsPlaceIn words.now self }
        ensures { result.now ≡ wrong_word words.now (wrong_view self) }
    {
        match self {
            Wrong::Word(place) => words.word(place),
            Wrong::End => "(end)",
        }
    }
}
