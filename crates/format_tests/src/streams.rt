use std::alloc::Global;
use std::io;
use std::io::{ErrorKind, Read, Write};
use stream_trait::{MemSink, Next, Shown, Sink, SinkFailed, Source, StdSink, StdSource, Taken};

// Gives "k", fails, gives "l", ends, and gives "m".
#[derive(Drop)]
struct Keys(u8);

impl Read for Keys {
    fn read(&mut self, buf: &mut [u8]) -> io::Result<usize> {
        self.0 = self.0.saturating_add(1);
        let byte = match self.0 {
            1 => b'k',
            2 => return Err(io::Error::from(ErrorKind::Interrupted)),
            3 => b'l',
            4 => return Ok(0),
            _ => b'm',
        };
        match buf {
            [] => Ok(0),
            [first, ..] => {
                *first = byte;
                Ok(1)
            }
        }
    }
}

const KEYS: &[Next] = &[
    Next::Got(b'k'),
    Next::Failed,
    Next::Got(b'l'),
    Next::End,
    Next::End,
];

#[test]
fn a_source_goes_on_after_a_fault_and_not_after_the_end(rt: HostRuntime) {
    let mut source = StdSource::new(Keys(0));
    for next in KEYS {
        assert!(rt; source.next_byte() == *next);
    }
}

// Whether a source gives as many bytes as there is room for, and nothing else is changed.
fn gives_many() -> bool {
    let mut source = StdSource::new(b"abcdefg".as_slice());
    let mut into = [b'-'; 3];
    let whole = source.next_bytes(&mut into) == Taken::Got(3) && into == *b"abc";
    let one = source.next_bytes(&mut into[..1]) == Taken::Got(1) && into == *b"dbc";
    let next = source.next_byte() == Next::Got(b'e');
    let rest = source.next_bytes(&mut into) == Taken::Got(2) && into == *b"fgc";
    let end = source.next_bytes(&mut into) == Taken::End && into == *b"fgc";
    whole && one && next && rest && end
}

#[test]
fn a_source_gives_as_many_bytes_as_there_is_room_for(rt: HostRuntime) {
    assert!(rt; gives_many());
}

// Takes two bytes of each text, one at a time, and then none.
#[derive(Drop)]
struct Stuck(u8);

impl Write for Stuck {
    fn write(&mut self, buf: &[u8]) -> io::Result<usize> {
        if self.0 >= 2 || buf.is_empty() {
            return Ok(0);
        }
        self.0 += 1;
        Ok(1)
    }

    fn flush(&mut self) -> io::Result<()> {
        self.0 = 0;
        Ok(())
    }
}

#[test]
fn a_sink_fails_where_its_writer_takes_nothing(rt: HostRuntime) {
    let mut sink = StdSink::new(Stuck(0));
    assert!(rt; sink.put(b"ab") == Ok(()));
    assert!(rt; sink.put(b"cd") == Ok(()));
    assert!(rt; sink.put(b"abc") == Err(SinkFailed));
}

// Whether a sink that refuses the second text, an empty one, is known to from then on.
fn refuses_an_empty_text(sink: &mut MemSink) -> bool {
    let mut shown = Shown::new(sink);
    shown.put(b"ab");
    let early = shown.failed();
    shown.put(b"");
    let known = shown.failed();
    shown.put(b"cd");
    !early && known
}

// And whether it has the first alone.
fn has_the_first(alloc: Global) -> bool {
    match MemSink::new(alloc, 8, &[1]) {
        Ok(mut sink) => refuses_an_empty_text(&mut sink) && sink.bytes() == b"ab".as_slice(),
        Err(_) => false,
    }
}

#[test]
fn an_empty_text_may_be_refused(rt: HostRuntime) {
    assert!(rt; has_the_first(rt.alloc()));
}
