// What a configuration says as a whole.
use crate::disk::DiskList;
use crate::section::SectionList;
use conf_text::Text;
use mbr_table::Device;
use sector_address::Mode;

/// What a configuration says.
#[derive(Drop)]
pub struct Config {
    /// The device that is to boot.
    pub boot: Option<Device>,
    /// The path of the map.
    pub map: Text,
    /// The path of the file whose code the boot sector is to carry.
    pub install: Option<Text>,
    /// The path of the backup of a foreign boot sector, which is kept where it is there.
    pub backup: Option<Text>,
    /// The same, but one that is there is replaced.
    pub force_backup: Option<Text>,
    /// Whether a slot is to name as many sectors as it can.
    pub compact: bool,
    /// How slots are to say where sectors lie.
    pub mode: Mode,
    /// The name that is to boot where none is chosen, one of the labels and aliases.
    pub default_name: Option<Text>,
    /// Tenths of a second before the choice without a key, 0 to 65,534.
    pub delay: u16,
    /// Tenths of a second that the prompt waits for a key, 0 to 65,534.
    pub timeout: Option<u16>,
    /// Whether the prompt is to be shown at once.
    pub prompt: bool,
    /// The path of the text that goes before the prompt.
    pub message: Option<Text>,
    /// What is said of disks, in order.
    pub disks: DiskList,
    /// The systems to boot, in order; at least one.
    pub sections: SectionList,
}
