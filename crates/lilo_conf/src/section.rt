// Sections: a kernel's, or another system's.
use conf_text::Text;
use mbr_table::Device;
use std::marker::Model;

/// How a kernel is to mount its root.
#[derive(Clone, Copy, Debug, PartialEq, Eq)]
pub enum Mount {
    /// As the kernel does by itself.
    Unsaid,
    /// `ro` on the command line.
    ReadOnly,
    /// `rw` on the command line.
    ReadWrite,
}

/// What a section says. Where it is silent and the global part speaks, that is what it says.
#[derive(Drop)]
pub struct Section {
    /// The device of another system; a kernel's section has none.
    pub other: Option<Device>,
    /// The path of a kernel, or the name of that device as it is written.
    pub path: Text,
    /// The name that chooses it, 1 to 15 bytes.
    pub label: Text,
    /// A second name.
    pub alias: Option<Text>,
    /// The path of the initial ramdisk.
    pub initrd: Option<Text>,
    /// The number of the root's device.
    pub root: Option<u16>,
    pub mount: Mount,
    /// What goes last on the command line.
    pub append: Option<Text>,
    /// What it is in place of all that the other options say.
    pub literal: Option<Text>,
    /// The video mode.
    pub vga: Option<u16>,
    /// What is asked for before it boots, 1 to 31 bytes.
    pub password: Option<Text>,
    /// Whether the password is asked for only where words are typed after the name.
    pub restricted: bool,
    /// Whether it is left out where its file isn't there.
    pub optional: bool,
    /// Whether its choice is kept as the default line.
    pub lock: bool,
    /// The default line that is kept once it was chosen.
    pub fallback: Option<Text>,
    /// The device whose partition table another system is given.
    pub table: Option<Device>,
    /// The line of the option that opens it.
    pub line: u32,
}

/// Sections, in order. To a contract it is the list of them.
#[derive(Drop)]
pub struct SectionList {
    sections: Vec<Section>,
}

impl Model for SectionList {
    ghost use Rattle.std.specs.Prelude.{List};
    ghost use Rattle.lilo_conf.specs.declared.section.Section.{Section};

    ghost Value = { List Section };

    ghost view = { λ list. list.sections.items };
}

impl SectionList {
    ghost use Rattle.std.specs.Prelude.{◌≡◌};

    /// The list of these.
    pub fn new(items: Vec<Section>) -> SectionList
        ensures { result ≡ items.items }
    {
        SectionList { sections: items }
    }

    /// The sections.
    pub fn items(&self) -> &[Section]
        ensures { result.now ≡ self.now }
    {
        self.sections.as_slice()
    }
}
