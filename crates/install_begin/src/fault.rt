use conf_file::FileFault;
use lilo_conf::ConfFault;

/// Why an installation can't begin.
#[derive(Clone, Copy, Debug, PartialEq, Eq)]
pub enum BeginFault {
    /// The volume isn't found, or its configuration's file isn't read, or the boot device isn't found.
    File(FileFault),
    /// The configuration's text is refused.
    Text(ConfFault),
}
