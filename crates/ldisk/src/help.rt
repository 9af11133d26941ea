// What `--help` and `--version` print.
use stream_trait::Words;

/// The text that the first argument asks for, if it asks for one.
pub fn text_of(words: &Words) -> Option<&'static str> {
    if words.count() == 0 {
        return None;
    }
    match words.word(0) {
        "--help" => Some(HELP),
        "--version" => Some(VERSION),
        _ => None,
    }
}

const VERSION: &str = "ldisk (Dugrelwyn), not yet released\n";

const HELP: &str = "usage: ldisk COMMAND IMAGE ..

Makes disk images, and reads and changes the Minix volumes in them. The image is the disk hda.

  ldisk make IMAGE SECTORS [START:COUNT:TYPE ..]    makes an image with up to four partitions
  ldisk mkfs IMAGE DEVICE KIND INODES               makes an empty volume
  ldisk ls IMAGE DEVICE PATH                        lists a directory
  ldisk get IMAGE DEVICE PATH                       prints a file
  ldisk put IMAGE DEVICE PATH                       stores standard input as a file
  ldisk rm IMAGE DEVICE PATH                        removes a file or a link
  ldisk mkdir IMAGE DEVICE PATH                     makes a directory
  ldisk ln IMAGE DEVICE PATH TARGET                 makes a symbolic link
  ldisk reclaim IMAGE DEVICE                        frees what stops left marked and nothing uses

A DEVICE is /dev/hda, or /dev/hda1 and so on for a partition. A PATH begins with a slash. A KIND is v1-14, v1-30,
v2-14 or v2-30, a TYPE two hexadecimal digits, as 81 for Minix.

Exit status:
   0  done
   1  the arguments aren't one of these lines, or partitions can't lie so
   3  the device, the volume or the path isn't found or is of the wrong kind, or the volume isn't sound
   4  TARGET has no byte or over 1023, or standard input over 67108864
   5  the device or the volume has no room, or a name is too long
   8  the image couldn't be read or written
  11  standard input couldn't be read
  12  the text couldn't be shown
  13  out of memory
  14  the image can't be used

All text goes to standard output. The manual page is docs/man/ldisk.8 of the sources.
";
