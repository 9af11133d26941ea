// The options that are known, each by its name.
ghost use Rattle.std.specs.Prelude.{◌≡◌, ◌≤◌, ℕ, length, find, bytes_eq};
ghost use Rattle.std.specs.Option.{option_map};
ghost use Rattle.lilo_model.specs.ConfOptions as model;
ghost use Rattle.lilo_model.specs.ConfOptions.{opt_name, option_at, takes_of, places_of, same_option};
ghost use Rattle.lilo_model.specs.ConfOptions.{opens, is_of_disk, is_of_name, excluded_by};
ghost use Rattle.conf_settings.specs.View.{opt_view, takes_view, places_view, part_view};

/// An option of lilo.conf, by its name.
#[derive(Clone, Copy, Debug, PartialEq, Eq)]
pub enum Opt {
    Boot,
    Map,
    Install,
    Backup,
    ForceBackup,
    Message,
    Compact,
    Linear,
    Lba32,
    Prompt,
    Nowarn,
    IgnoreTable,
    FixTable,
    Default,
    Delay,
    Timeout,
    Verbose,
    Disk,
    Bios,
    Sectors,
    Heads,
    Cylinders,
    Image,
    OtherDevice,
    Label,
    Alias,
    Initrd,
    Root,
    ReadOnly,
    ReadWrite,
    Append,
    Literal,
    Vga,
    Password,
    Restricted,
    Optional,
    Lock,
    Fallback,
    Table,
    Loader,
    Serial,
    Keytable,
    Change,
    ChangeRules,
    Ramdisk,
    Disktab,
    SingleKey,
    Bitmap,
    BmpColors,
    BmpTable,
    BmpTimer,
    Unsafe,
    Range,
    Partition,
    MapDrive,
    /// A word that is no option.
    Other,
}

/// What an option takes after an equals sign.
#[derive(Clone, Copy, Debug, PartialEq, Eq)]
pub enum Takes {
    /// It takes no value.
    Nothing,
    Device,
    WholeDisk,
    Path,
    Name,
    /// A number from one to another.
    Number { low: u16, high: u16 },
    /// The number that a BIOS gives to the disk of its group.
    Bios,
    /// A device, or the hexadecimal number of one.
    Root,
    Text,
    Video,
    /// A text that can be typed at the prompt, of 1 to so many bytes.
    Shown(u8),
    /// It is an option of LILO that isn't taken here.
    LeftOut,
    /// It is no option.
    Unknown,
}

/// Where options are: in the part before all sections, in an image's section, or in another system's.
#[derive(Clone, Copy, Debug, PartialEq, Eq)]
pub enum Part {
    Global,
    Image,
    Other,
}

// Where an option may come.
#[derive(Clone, Copy)]
pub(crate) struct Places {
    pub(crate) global: bool,
    pub(crate) image: bool,
    pub(crate) other: bool,
}

const GLOBAL: Places = Places {
    global: true,
    image: false,
    other: false,
};

// Before all sections, and in an image's.
const IMAGES: Places = Places {
    global: true,
    image: true,
    other: false,
};

const ANYWHERE: Places = Places {
    global: true,
    image: true,
    other: true,
};

const IMAGE: Places = Places {
    global: false,
    image: true,
    other: false,
};

const OTHER: Places = Places {
    global: false,
    image: false,
    other: true,
};

// In any section.
const SECTIONS: Places = Places {
    global: false,
    image: true,
    other: true,
};

// It opens a section, or isn't taken.
const NOWHERE: Places = Places {
    global: false,
    image: false,
    other: false,
};

// All options but `Other`.
const ALL: &[Opt] = &[
    Opt::Boot,
    Opt::Map,
    Opt::Install,
    Opt::Backup,
    Opt::ForceBackup,
    Opt::Message,
    Opt::Compact,
    Opt::Linear,
    Opt::Lba32,
    Opt::Prompt,
    Opt::Nowarn,
    Opt::IgnoreTable,
    Opt::FixTable,
    Opt::Default,
    Opt::Delay,
    Opt::Timeout,
    Opt::Verbose,
    Opt::Disk,
    Opt::Bios,
    Opt::Sectors,
    Opt::Heads,
    Opt::Cylinders,
    Opt::Image,
    Opt::OtherDevice,
    Opt::Label,
    Opt::Alias,
    Opt::Initrd,
    Opt::Root,
    Opt::ReadOnly,
    Opt::ReadWrite,
    Opt::Append,
    Opt::Literal,
    Opt::Vga,
    Opt::Password,
    Opt::Restricted,
    Opt::Optional,
    Opt::Lock,
    Opt::Fallback,
    Opt::Table,
    Opt::Loader,
    Opt::Serial,
    Opt::Keytable,
    Opt::Change,
    Opt::ChangeRules,
    Opt::Ramdisk,
    Opt::Disktab,
    Opt::SingleKey,
    Opt::Bitmap,
    Opt::BmpColors,
    Opt::BmpTable,
    Opt::BmpTimer,
    Opt::Unsafe,
    Opt::Range,
    Opt::Partition,
    Opt::MapDrive,
];

impl Opt {
    /// The option of a name, or `Other`.
    pub fn of(word: &[u8]) -> Opt
        ensures { opt_view result ≡ option_at word.now }
    {
        find_option(ALL, word).unwrap_or(Opt::Other)
    }

    /// Its name, and `text` for `Other`.
    pub fn name(self) -> &'static [u8]
        ensures name { result.now ≡ opt_name (opt_view self) }
        ensures short { length result.now ≤ 12 }
    {
        let (name, _, _) = row_of(self);
        name
    }

    /// Whether it is another.
    #[tactic(auto, unfolding(lilo_model::specs::ConfOptions::opt_number))]
    pub fn is(self, other: Opt) -> bool
        ensures { result ≡ same_option (opt_view self) (opt_view other) }
    {
        self as u8 == other as u8
    }

    /// What it takes after an equals sign.
    pub fn takes(self) -> Takes
        ensures { takes_view result ≡ takes_of (opt_view self) }
    {
        let (_, takes, _) = row_of(self);
        takes
    }

    /// Whether it may come in a part.
    #[tactic(auto, unfolding(lilo_model::specs::ConfOptions::stands_in))]
    pub fn stands_in(self, part: Part) -> bool
        ensures { result ≡ model.stands_in (part_view part) (opt_view self) }
    {
        let (_, _, places) = row_of(self);
        match part {
            Part::Global => places.global,
            Part::Image => places.image,
            Part::Other => places.other,
        }
    }

    /// Whether it opens a section.
    #[tactic(auto, unfolding(lilo_model::specs::ConfOptions::opens))]
    pub fn opens(self) -> bool
        ensures { result ≡ opens (opt_view self) }
    {
        matches!(self, Opt::Image | Opt::OtherDevice)
    }

    /// Whether it is a detail of the disk of its group.
    #[tactic(auto, unfolding(lilo_model::specs::ConfOptions::is_of_disk))]
    pub fn is_of_disk(self) -> bool
        ensures { result ≡ is_of_disk (opt_view self) }
    {
        matches!(self, Opt::Bios | Opt::Sectors | Opt::Heads | Opt::Cylinders)
    }

    /// Whether it is a name of a section.
    #[tactic(auto, unfolding(lilo_model::specs::ConfOptions::is_of_name))]
    pub fn is_of_name(self) -> bool
        ensures { result ≡ is_of_name (opt_view self) }
    {
        matches!(self, Opt::Label | Opt::Alias | Opt::Default)
    }

    /// The option that it excludes.
    #[tactic(auto, unfolding(lilo_model::specs::ConfOptions::excluded_by))]
    pub fn excluded_by(self) -> Option<Opt>
        ensures { option_map opt_view result ≡ excluded_by (opt_view self) }
    {
        match self {
            Opt::Linear => Some(Opt::Lba32),
            Opt::Lba32 => Some(Opt::Linear),
            Opt::ReadOnly => Some(Opt::ReadWrite),
            Opt::ReadWrite => Some(Opt::ReadOnly),
            Opt::Backup => Some(Opt::ForceBackup),
            Opt::ForceBackup => Some(Opt::Backup),
            _ => None,
        }
    }
}

// The first of some options that has a name.
fn find_option(options: &[Opt], word: &[u8]) -> Option<Opt>
    ensures { result ≡ find (λ option. bytes_eq word.now (opt_name (opt_view option))) options.now }
{
    options.iter().copied().find(|option| word == option.name())
}

// What is known of an option: its name, or `text` for `Other`; what it takes after an equals sign; where it may come.
#[tactic(auto, unfolding(crate::specs::Row::opt_name, crate::specs::Row::takes_of, crate::specs::Row::places_of))]
fn row_of(option: Opt) -> (&'static [u8], Takes, Places)
    ensures name { result.0.now ≡ opt_name (opt_view option) }
    ensures takes { takes_view result.1 ≡ takes_of (opt_view option) }
    ensures places { places_view result.2 ≡ places_of (opt_view option) }
    ensures short { length result.0.now ≤ 12 }
{
    match option {
        Opt::Boot => (b"boot", Takes::Device, GLOBAL),
        Opt::Map => (b"map", Takes::Path, GLOBAL),
        Opt::Install => (b"install", Takes::Path, GLOBAL),
        Opt::Backup => (b"backup", Takes::Path, GLOBAL),
        Opt::ForceBackup => (b"force-backup", Takes::Path, GLOBAL),
        Opt::Message => (b"message", Takes::Path, GLOBAL),
        Opt::Compact => (b"compact", Takes::Nothing, GLOBAL),
        Opt::Linear => (b"linear", Takes::Nothing, GLOBAL),
        Opt::Lba32 => (b"lba32", Takes::Nothing, GLOBAL),
        Opt::Prompt => (b"prompt", Takes::Nothing, GLOBAL),
        Opt::Nowarn => (b"nowarn", Takes::Nothing, GLOBAL),
        Opt::IgnoreTable => (b"ignore-table", Takes::Nothing, GLOBAL),
        Opt::FixTable => (b"fix-table", Takes::Nothing, GLOBAL),
        Opt::Default => (b"default", Takes::Name, GLOBAL),
        Opt::Delay => (
            b"delay",
            Takes::Number {
                low: 0,
                high: 65534,
            },
            GLOBAL,
        ),
        Opt::Timeout => (
            b"timeout",
            Takes::Number {
                low: 0,
                high: 65534,
            },
            GLOBAL,
        ),
        Opt::Verbose => (
            b"verbose",
            Takes::Number {
                low: 0,
                high: 65535,
            },
            GLOBAL,
        ),
        Opt::Disk => (b"disk", Takes::WholeDisk, GLOBAL),
        Opt::Bios => (b"bios", Takes::Bios, NOWHERE),
        Opt::Sectors => (b"sectors", Takes::Number { low: 1, high: 63 }, NOWHERE),
        Opt::Heads => (b"heads", Takes::Number { low: 1, high: 255 }, NOWHERE),
        Opt::Cylinders => (
            b"cylinders",
            Takes::Number {
                low: 1,
                high: 65535,
            },
            NOWHERE,
        ),
        Opt::Image => (b"image", Takes::Path, NOWHERE),
        Opt::OtherDevice => (b"other", Takes::Device, NOWHERE),
        Opt::Label => (b"label", Takes::Name, SECTIONS),
        Opt::Alias => (b"alias", Takes::Name, SECTIONS),
        Opt::Initrd => (b"initrd", Takes::Path, IMAGES),
        Opt::Root => (b"root", Takes::Root, IMAGES),
        Opt::ReadOnly => (b"read-only", Takes::Nothing, IMAGES),
        Opt::ReadWrite => (b"read-write", Takes::Nothing, IMAGES),
        Opt::Append => (b"append", Takes::Text, IMAGES),
        Opt::Literal => (b"literal", Takes::Text, IMAGE),
        Opt::Vga => (b"vga", Takes::Video, IMAGES),
        Opt::Password => (b"password", Takes::Shown(31), ANYWHERE),
        Opt::Restricted => (b"restricted", Takes::Nothing, ANYWHERE),
        Opt::Optional => (b"optional", Takes::Nothing, ANYWHERE),
        Opt::Lock => (b"lock", Takes::Nothing, ANYWHERE),
        Opt::Fallback => (b"fallback", Takes::Shown(255), ANYWHERE),
        Opt::Table => (b"table", Takes::Device, OTHER),
        Opt::Loader => (b"loader", Takes::Path, OTHER),
        Opt::Serial => (b"serial", Takes::LeftOut, NOWHERE),
        Opt::Keytable => (b"keytable", Takes::LeftOut, NOWHERE),
        Opt::Change => (b"change", Takes::LeftOut, NOWHERE),
        Opt::ChangeRules => (b"change-rules", Takes::LeftOut, NOWHERE),
        Opt::Ramdisk => (b"ramdisk", Takes::LeftOut, NOWHERE),
        Opt::Disktab => (b"disktab", Takes::LeftOut, NOWHERE),
        Opt::SingleKey => (b"single-key", Takes::LeftOut, NOWHERE),
        Opt::Bitmap => (b"bitmap", Takes::LeftOut, NOWHERE),
        Opt::BmpColors => (b"bmp-colors", Takes::LeftOut, NOWHERE),
        Opt::BmpTable => (b"bmp-table", Takes::LeftOut, NOWHERE),
        Opt::BmpTimer => (b"bmp-timer", Takes::LeftOut, NOWHERE),
        Opt::Unsafe => (b"unsafe", Takes::LeftOut, NOWHERE),
        Opt::Range => (b"range", Takes::LeftOut, NOWHERE),
        Opt::Partition => (b"partition", Takes::LeftOut, NOWHERE),
        Opt::MapDrive => (b"map-drive", Takes::LeftOut, NOWHERE),
        Opt::Other => (b"text", Takes::Unknown, NOWHERE),
    }
}
