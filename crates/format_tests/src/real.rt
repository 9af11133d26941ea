// Streams over a real file, and a disk over one that is cut short behind its back.
use crate::disks::{Answer, Call, FAILED, OUT_OF_RANGE, make};
use disk_trait::Geometry;
use file_disks::{FileDisk, FileDisks};
use std::fs::{File, OpenOptions};
use std::{fs, io};
use stream_trait::{Next, Sink, Source, StdSink, StdSource, Taken};

const NAME: &str = "format_tests_file";

// Whether a sink writes a file.
fn is_written(rt: &HostRuntime) -> bool {
    match fs::create(rt, NAME) {
        Ok(file) => {
            let mut sink = StdSink::new(file);
            sink.put(b"LI") == Ok(()) && sink.put(b"LO") == Ok(())
        }
        Err(_) => false,
    }
}

// Whether a source reads it.
fn is_read(rt: &HostRuntime) -> bool {
    match fs::open(rt, NAME) {
        Ok(file) => gives_all(&mut StdSource::new(file)),
        Err(_) => false,
    }
}

fn gives_all(source: &mut StdSource<File>) -> bool {
    let mut into = [b'-'; 4];
    source.next_byte() == Next::Got(b'L')
        && source.next_bytes(&mut into) == Taken::Got(3)
        && into == *b"ILO-"
        && source.next_bytes(&mut into) == Taken::End
        && source.next_byte() == Next::End
}

// How many bytes a file has once a disk of four sectors was opened over it, with 100 bytes after them, calls, and what
// each answers. The file is opened for reading alone, which shows when it is to be written.
const CUT: &[(usize, Call, Answer)] = &[
    (2148, Call::Read(0, 3), Ok(1)),
    (2148, Call::Read(0, 4), OUT_OF_RANGE),
    (700, Call::Read(0, 0), Ok(1)),
    (700, Call::Read(0, 1), FAILED),
    (700, Call::Read(0, 3), FAILED),
    (512, Call::Read(0, 0), Ok(1)),
    (2148, Call::Read(0, 1), Ok(1)),
    (2148, Call::Write(0, 0, 2), Ok(0)),
    (2148, Call::Read(0, 0), Ok(2)),
    (2148, Call::Flush, FAILED),
    (2148, Call::Flush, FAILED),
];

fn opened(rt: &HostRuntime) -> io::Result<FileDisks<File>> {
    fs::write(rt, NAME, [1; 2148].as_slice())?;
    let file = OpenOptions::new().read(true).open(rt, NAME)?;
    let geometry = Geometry {
        heads: 1,
        sectors: 1,
    };
    let mut disks = FileDisks::new(rt.alloc());
    disks.push(FileDisk::new(file, geometry).ok())?;
    Ok(disks)
}

// Whether the calls are answered so.
fn are_answered(rt: &HostRuntime, disks: &mut FileDisks<File>) -> bool {
    for (length, call, answer) in CUT {
        let is_cut = *length <= 2148 && fs::write(rt, NAME, &[1; 2148][..*length]).is_ok();
        if !is_cut || make(disks, *call) != *answer {
            return false;
        }
    }
    true
}

fn is_cut(rt: &HostRuntime) -> bool {
    match opened(rt) {
        Ok(mut disks) => are_answered(rt, &mut disks),
        Err(_) => false,
    }
}

// Whether no byte of the file is changed.
fn is_unchanged(rt: &HostRuntime) -> bool {
    match fs::read(rt, NAME) {
        Ok(bytes) => bytes.as_slice() == [1; 2148].as_slice(),
        Err(_) => false,
    }
}

#[test]
fn real_files_are_streams_and_disks(rt: HostRuntime) {
    assert!(rt; is_written(&rt) && is_read(&rt));
    assert!(rt; is_cut(&rt) && is_unchanged(&rt));
    assert!(rt; fs::remove_file(&rt, NAME).is_ok());
}
