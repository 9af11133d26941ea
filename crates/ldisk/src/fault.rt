// What a status means, in a line: the call `ldisk` answers it without a text.
use ldisk_words::ask;
use std::io;
use stream_trait::Words;

/// Says why arguments weren't carried out, as far as the status and the arguments tell. There is no line for 0, nor for
/// 12, where none can be shown.
pub fn tell(rt: &HostRuntime, words: &Words, status: u8) {
    let image = word_at(words, 1);
    let _ = match status {
        1 => tell_usage(rt, words),
        3 => tell_missing(rt, words),
        4 => tell_long(rt, words),
        5 => tell_full(rt, words),
        8 => println!(rt; "ldisk: {image}: can't be read or written"),
        11 => println!(rt; "ldisk: standard input: can't be read"),
        13 => println!(rt; "ldisk: memory"),
        _ => Ok(()),
    };
}

/// Arguments that ask for nothing, or for partitions that can't lie so.
fn tell_usage(rt: &HostRuntime, words: &Words) -> io::Result<()> {
    if let Some(asked) = ask(words) {
        let image = asked.image;
        return println!(rt;
            "ldisk: {image}: partitions overlap, lie outside the image or touch its first sector"
        );
    }
    match word_at(words, 0) {
        "make" => println!(rt; "ldisk: usage: make IMAGE SECTORS [START:COUNT:TYPE ..]"),
        "mkfs" => println!(rt; "ldisk: usage: mkfs IMAGE DEVICE KIND INODES"),
        "ln" => println!(rt; "ldisk: usage: ln IMAGE DEVICE PATH TARGET"),
        "reclaim" => println!(rt; "ldisk: usage: reclaim IMAGE DEVICE"),
        "ls" | "get" | "put" | "rm" | "mkdir" => {
            let command = word_at(words, 0);
            println!(rt; "ldisk: usage: {command} IMAGE DEVICE PATH")
        }
        _ => println!(rt; "ldisk: usage: COMMAND IMAGE .."),
    }
}

/// What was looked for isn't there, or what is there is in the way.
fn tell_missing(rt: &HostRuntime, words: &Words) -> io::Result<()> {
    let device = word_at(words, 2);
    let why = match word_at(words, 0) {
        "ls" => "not there, or not a directory",
        "get" => "not there, or not a file",
        "rm" => "not there, or not a file or a link",
        "put" | "ln" => "there already, or in no directory",
        "mkdir" => "there already, or in no directory, or too deep",
        "reclaim" => return println!(rt; "ldisk: {device}: not there, or without a sound volume"),
        _ => return println!(rt; "ldisk: {device}: no such disk or partition"),
    };
    let path = word_at(words, 3);
    println!(rt; "ldisk: {path}: {why}, or {device} has no sound volume")
}

/// More bytes than there may be.
fn tell_long(rt: &HostRuntime, words: &Words) -> io::Result<()> {
    let path = word_at(words, 3);
    match word_at(words, 0) {
        "ln" => println!(rt; "ldisk: {path}: a target has 1 to 1023 bytes"),
        _ => println!(rt; "ldisk: {path}: a file has at most 67108864 bytes"),
    }
}

/// No room.
fn tell_full(rt: &HostRuntime, words: &Words) -> io::Result<()> {
    let device = word_at(words, 2);
    let last = word_at(words, 3);
    match word_at(words, 0) {
        "mkfs" => println!(rt; "ldisk: {device}: no room for a volume with so many inodes"),
        _ => println!(rt; "ldisk: {last}: its name is too long, or {device} has no room for it"),
    }
}

/// An argument, or nothing where there are fewer.
fn word_at(words: &Words, at: usize) -> &str {
    if at < words.count() {
        words.word(at)
    } else {
        ""
    }
}
