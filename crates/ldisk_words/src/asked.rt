// What arguments ask for.
ghost use Rattle.std.specs.Prelude.{◌≡◌, ◌≤◌, length, drop, map, Some, option_map};
ghost use Rattle.std.specs.Option.{option_and_then};
ghost use Rattle.lilo_model.specs.Devices.{device_at};
ghost use Rattle.lilo_model.specs.LdiskWords.{is_volume_path};
ghost use Rattle.ldisk_model.specs.Arguments.{
  asked_of,
  asked_at,
  make_at,
  new_with,
  command_at,
  device_command,
  path_command,
  on_path_at,
  pair_command,
  kind_at,
};
ghost use Rattle.mbr_table.specs.View.{device_view};
ghost use Rattle.minix_layout.specs.View.{kind_view};
ghost use Rattle.ldisk_words.specs.View.{part_view, command_view, asked_view};

use crate::number::decimal_between;
use crate::part::{PartWish, parts_in};
use arrayvec::ArrayVec;
use mbr_table::{Device, device_of};
use minix_layout::FsKind;
use stream_trait::Words;

/// What is done on an image.
#[derive(Debug, Drop, PartialEq, Eq)]
pub enum Command<'a> {
    /// `make`: it writes a partition table.
    Make {
        parts: ArrayVec<PartWish, 4>,
    },
    /// `mkfs`: it makes an empty volume, with so many inodes.
    Mkfs {
        device: Device,
        kind: FsKind,
        inodes: u16,
    },
    /// `put`: it stores a file at a path.
    Put {
        device: Device,
        path: &'a [u8],
    },
    /// `get`: it prints the file at a path.
    Get {
        device: Device,
        path: &'a [u8],
    },
    /// `ls`: it lists the directory at a path.
    Ls {
        device: Device,
        path: &'a [u8],
    },
    /// `rm`: it removes a file or a link.
    Rm {
        device: Device,
        path: &'a [u8],
    },
    /// `mkdir`: it makes a directory at a path.
    Mkdir {
        device: Device,
        path: &'a [u8],
    },
    /// `ln`: it makes a symbolic link at a path.
    Ln {
        device: Device,
        path: &'a [u8],
        target: &'a [u8],
    },
    /// `reclaim`: it frees what is marked without a use.
    Reclaim {
        device: Device,
    },
}

/// What arguments ask for.
#[derive(Debug, Drop, PartialEq, Eq)]
pub struct Asked<'a> {
    /// The file that holds the disk.
    pub image: &'a str,
    /// How many sectors a new image has, 0 where none is made.
    pub sectors: u32,
    pub command: Command<'a>,
}

/// What arguments ask for, one of:
///
/// - `make IMAGE SECTORS [START:COUNT:TYPE ..]`, of four partitions at most
/// - `mkfs IMAGE DEVICE KIND INODES`, of a KIND of `v1-14`, `v1-30`, `v2-14` or `v2-30`
/// - `put`, `get`, `ls`, `rm` or `mkdir`, then `IMAGE DEVICE PATH`
/// - `ln IMAGE DEVICE PATH TARGET`
/// - `reclaim IMAGE DEVICE`
///
/// Any others ask for nothing. SECTORS is 1 to 4,294,967,295, INODES 1 to 65,535, START and COUNT up to 4,294,967,295,
/// each in decimal digits; TYPE is two hexadecimal digits.
#[tactic(auto, using(crate::proofs::AskedLemmas::asked_few, crate::proofs::AskedLemmas::asked_new_image, crate::proofs::AskedLemmas::asked_command))]
pub fn ask(words: &Words) -> Option<Asked<'_>>
    ensures { option_map asked_view result ≡ asked_at words.now }
{
    if words.count() < 2 {
        return None;
    }
    let word = words.word(0);
    let image = words.word(1);
    if word == "make" {
        make_in(words, image)
    } else {
        asked_with(image, command_in(word, words))
    }
}

/// A new image.
#[tactic(auto, using(crate::proofs::AskedLemmas::make_few, crate::proofs::AskedLemmas::make_many, crate::proofs::AskedLemmas::make_all))]
fn make_in<'a>(words: &'a Words, image: &'a str) -> Option<Asked<'a>>
    requires { 2 ≤ length words.now }
    ensures { option_map asked_view result ≡ make_at image.entry.now (drop 2 words.entry.now) }
{
    if words.count() < 3 || words.count() > 7 {
        return None;
    }
    let sectors = decimal_between(1, u32::MAX, words.word(2));
    new_with(image, sectors, parts_in(words))
}

/// A new image, where it has sectors and parts.
fn new_with<'a>(
    image: &'a str,
    sectors: Option<u32>,
    parts: Option<ArrayVec<PartWish, 4>>,
) -> Option<Asked<'a>>
    ensures { option_map asked_view result ≡ new_with image.entry.now sectors
        (option_map (λ parts. map part_view parts.items) parts) }
{
    match (sectors, parts) {
        (Some(sectors), Some(parts)) => Some(Asked {
            image,
            sectors,
            command: Command::Make { parts },
        }),
        _ => None,
    }
}

/// A command on an image that is there.
fn asked_with<'a>(image: &'a str, command: Option<Command<'a>>) -> Option<Asked<'a>>
    ensures { option_map asked_view result
        ≡ option_and_then (λ command. Some (asked_of image.entry.now command)) (option_map command_view command.entry) }
{
    match command {
        Some(command) => Some(Asked {
            image,
            sectors: 0,
            command,
        }),
        None => None,
    }
}

/// The command of its name and of the arguments after the image.
#[tactic(auto, using(crate::proofs::AskedLemmas::command_three, crate::proofs::AskedLemmas::command_four, crate::proofs::AskedLemmas::command_five, crate::proofs::AskedLemmas::command_other))]
fn command_in<'a>(word: &str, words: &'a Words) -> Option<Command<'a>>
    requires { 2 ≤ length words.now }
    ensures { option_map command_view result ≡ command_at word.now (drop 2 words.entry.now) }
{
    match words.count() {
        3 => alone_in(word, words.word(2)),
        4 => path_in(word, words.word(2), words.word(3)),
        5 => pair_in(word, words.word(2), words.word(3), words.word(4)),
        _ => None,
    }
}

/// The command of a device alone.
fn alone_in<'a>(word: &str, name: &str) -> Option<Command<'a>>
    ensures { option_map command_view result
        ≡ option_and_then (λ device. device_command word.now device) (device_at name.now) }
{
    let device = device_in(name)?;
    device_command(word, device)
}

/// The same on a device that is known.
#[tactic(auto, unfolding(ldisk_model::specs::Arguments::device_command))]
fn device_command<'a>(word: &str, device: Device) -> Option<Command<'a>>
    ensures { option_map command_view result ≡ device_command word.now (device_view device) }
{
    match word {
        "reclaim" => Some(Command::Reclaim { device }),
        _ => None,
    }
}

/// The command of a path on a device.
fn path_in<'a>(word: &str, name: &str, path: &'a str) -> Option<Command<'a>>
    ensures { option_map command_view result
        ≡ option_and_then (λ device. on_path_at word.now device path.entry.now) (device_at name.now) }
{
    let device = device_in(name)?;
    on_path(word, device, path.as_bytes())
}

/// The same on a device that is known.
#[tactic(auto, unfolding(ldisk_model::specs::Arguments::on_path_at))]
fn on_path<'a>(word: &str, device: Device, path: &'a [u8]) -> Option<Command<'a>>
    ensures { option_map command_view result ≡ on_path_at word.now (device_view device) path.entry.now }
{
    if !is_path(path) {
        return None;
    }
    path_command(word, device, path)
}

/// The same of a path that is one.
#[tactic(auto, unfolding(ldisk_model::specs::Arguments::path_command))]
fn path_command<'a>(word: &str, device: Device, path: &'a [u8]) -> Option<Command<'a>>
    ensures { option_map command_view result ≡ path_command word.now (device_view device) path.entry.now }
{
    match word {
        "put" => Some(Command::Put { device, path }),
        "get" => Some(Command::Get { device, path }),
        "ls" => Some(Command::Ls { device, path }),
        "rm" => Some(Command::Rm { device, path }),
        "mkdir" => Some(Command::Mkdir { device, path }),
        _ => None,
    }
}

/// A command that has two arguments after its device's name.
fn pair_in<'a>(word: &str, name: &str, first: &'a str, second: &'a str) -> Option<Command<'a>>
    ensures { option_map command_view result
        ≡ option_and_then (λ device. pair_command word.now device first.entry.now second.entry.now)
        (device_at name.now) }
{
    let device = device_in(name)?;
    pair_command(word, device, first, second)
}

/// The same on a device that is known.
#[tactic(auto, unfolding(ldisk_model::specs::Arguments::pair_command))]
fn pair_command<'a>(
    word: &str,
    device: Device,
    first: &'a str,
    second: &'a str,
) -> Option<Command<'a>>
    ensures { option_map command_view result
        ≡ pair_command word.now (device_view device) first.entry.now second.entry.now }
{
    match word {
        "mkfs" => {
            let kind = kind_in(first)?;
            let inodes = decimal_between(1, 65_535, second)?;
            Some(Command::Mkfs {
                device,
                kind,
                inodes: inodes as u16,
            })
        }
        "ln" if is_path(first.as_bytes()) => Some(Command::Ln {
            device,
            path: first.as_bytes(),
            target: second.as_bytes(),
        }),
        _ => None,
    }
}

/// The device of a name.
fn device_in(name: &str) -> Option<Device>
    ensures { option_map device_view result ≡ device_at name.now }
{
    match device_of(name.as_bytes()) {
        Ok(device) => Some(device),
        Err(_) => None,
    }
}

/// The kind of a volume.
#[tactic(auto, unfolding(ldisk_model::specs::Arguments::kind_at))]
fn kind_in(word: &str) -> Option<FsKind>
    ensures { option_map kind_view result ≡ kind_at word.now }
{
    match word {
        "v1-14" => Some(FsKind::V1Short),
        "v1-30" => Some(FsKind::V1Long),
        "v2-14" => Some(FsKind::V2Short),
        "v2-30" => Some(FsKind::V2Long),
        _ => None,
    }
}

#[tactic(auto, unfolding(lilo_model::specs::LdiskWords::is_volume_path))]
fn is_path(word: &[u8]) -> bool
    ensures { result ≡ is_volume_path word.now }
{
    match word {
        [b'/', ..] => !word.contains(&0),
        _ => false,
    }
}
