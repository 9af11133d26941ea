// What `--help` and `--version` print.

/// The text that an argument before `--` asks for, if it asks for one. So an image of that name is written `./--help`.
pub fn text_of(word: &str) -> Option<&'static str> {
    match word {
        "--help" => Some(HELP),
        "--version" => Some(VERSION),
        _ => None,
    }
}

const VERSION: &str = "lilo (Dugrelwyn), not yet released\n";

const HELP: &str = "usage: lilo IMAGE.. [-- ARGUMENT..]

Installs, lists and boots the systems of up to four disk images, which are the disks hda, hdb, sda and sdb.
An IMAGE is a path, path:heads:sectors, or - for an absent disk. The arguments need the --.

  lilo IMAGE..                            installs by /etc/lilo.conf of the first Minix volume
  lilo IMAGE.. -- -t                      reports what an installation would do, and writes nothing
  lilo IMAGE.. -- -q [DEVICE]             lists the names in a map
  lilo IMAGE.. -- -R [WORD ..]            sets the default line for one boot, or clears it
  lilo IMAGE.. -- -u DEVICE               restores the boot sector that was there before the first installation
  lilo IMAGE.. -- boot DEVICE [--dump]    boots on a modelled PC by keys from standard input

Before a command, or in place of one: -C PATH for another configuration, --root DEVICE for the volume's device, and -v,
which has no effect. --then joins commands, and the next one runs if all before it answer 0. A DEVICE is one of
/dev/hda, /dev/hdb, /dev/sda and /dev/sdb, or such a name with the number of a partition.

Exit status:
   0  done
   1  the arguments are invalid
   2  the configuration is refused
   3  the device, the volume or a file on it isn't found, or the volume isn't sound
   4  what the configuration names can't be mapped, or a line is too long
   5  the volume has no room
   6  the boot sector isn't of this format, or there is no backup of it
   7  the boot is refused, or the map is
   8  a disk failed before the boot sector or the default line was written: what boots is as before
   9  a disk failed while it was written
  10  a disk failed after that
  11  standard input couldn't be read
  12  done, but the text couldn't be shown
  13  out of memory
  14  an image can't be used

All text goes to standard output. The manual page is docs/man/lilo.8 of the sources.
";
