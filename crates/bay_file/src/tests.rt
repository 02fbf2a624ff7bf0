// Over real files, in the folder in which the tests run, and over readers and writers that fail.
use crate::one_line::on_one_line;
use crate::{FileBay, FileHost, StdSink, StdSource, SystemClock, hold_streams};
use bay::{Bay, BayError, Clock, Host, HostError, Sink, Source};
use std::io::{ErrorKind, Read, Write};
use std::{fs, io};

fn is_all(bytes: &[u8], byte: u8) -> bool {
    bytes.iter().all(|b| *b == byte)
}

#[test]
fn an_image_is_made_written_and_attached_again(rt: HostRuntime) {
    let page = [7u8; 512];
    let mut back = [1u8; 512];
    let mut second = FileBay::new(rt);
    {
        let mut first = FileBay::new(rt);
        assert!(rt; first.make(0, "made.img", 8192).is_ok());
        assert_eq!(rt; first.attach(0, "made.img").ok(), Some(8192));
        assert!(rt; first.write(0, 7680, &page).is_ok());
        assert!(rt; first.sync(0).is_ok());
        assert!(rt; first.read(0, 7168, &mut back).is_ok());
        assert!(rt; is_all(&back, 0));
        assert_eq!(rt; (first.calls(), first.written(0)), (5, 512));
    }
    assert_eq!(rt; second.attach(3, "made.img").ok(), Some(8192));
    assert!(rt; second.read(3, 7680, &mut back).is_ok());
    assert!(rt; is_all(&back, 7));
    // made anew, it has the new size and zeros
    assert!(rt; second.make(3, "made.img", 1024).is_ok());
    assert_eq!(rt; second.attach(3, "made.img").ok(), Some(1024));
    assert!(rt; second.read(3, 512, &mut back).is_ok());
    assert!(rt; is_all(&back, 0));
    fs::remove_file(&rt, "made.img").expect(&rt, "the image");
}

#[test]
fn an_image_is_locked(rt: HostRuntime) {
    let mut first = FileBay::new(rt);
    let mut second = FileBay::new(rt);
    assert!(rt; first.make(0, "locked.img", 512).is_ok());
    assert_eq!(rt; second.attach(3, "locked.img").err(), Some(BayError::Fault));
    assert_eq!(rt;
        second.make(4, "locked.img", 512).err(),
        Some(BayError::Fault)
    );
    assert_eq!(rt;
        first.attach(1, "./locked.img").err(),
        Some(BayError::Fault)
    );
    let mut host = FileHost::new(rt);
    assert_eq!(rt; host.create("locked.img").err(), Some(HostError::Fault));
    assert_eq!(rt;
        host.append("locked.img", b"x").err(),
        Some(HostError::Fault)
    );
    assert_eq!(rt; host.size("locked.img").ok(), Some(512));
    fs::remove_file(&rt, "locked.img").expect(&rt, "the image");
}

#[test]
fn what_is_not_there_is_a_fault(rt: HostRuntime) {
    let mut bay = FileBay::new(rt);
    assert_eq!(rt; bay.attach(0, "absent.img").err(), Some(BayError::Fault));
    assert_eq!(rt;
        bay.make(0, "absent/new.img", 512).err(),
        Some(BayError::Fault)
    );
    assert_eq!(rt;
        bay.make(0, "huge.img", u64::MAX).err(),
        Some(BayError::Fault)
    );
    fs::remove_file(&rt, "huge.img").expect(&rt, "the image");
    assert!(rt; !fs::exists(&rt, "absent.img").expect(&rt, "the folder"));
    assert_eq!(rt; bay.calls(), 3);
}

#[test]
fn files_are_copied_by_their_paths(rt: HostRuntime) {
    let mut host = FileHost::new(rt);
    let mut back = [0u8; 3];
    assert_eq!(rt; host.size("copy.txt").err(), Some(HostError::Fault));
    assert_eq!(rt; host.append("copy.txt", b"x").err(), Some(HostError::Fault));
    assert!(rt; host.create("copy.txt").is_ok());
    assert!(rt; host.append("copy.txt", b"abc").is_ok());
    assert!(rt; host.append("copy.txt", b"de").is_ok());
    assert_eq!(rt; host.size("copy.txt").ok(), Some(5));
    assert!(rt; host.read("copy.txt", 2, &mut back).is_ok());
    assert_eq!(rt; back, *b"cde");
    assert_eq!(rt;
        host.read("copy.txt", 3, &mut back).err(),
        Some(HostError::Fault)
    );
    assert!(rt; host.create("copy.txt").is_ok());
    assert_eq!(rt; host.size("copy.txt").ok(), Some(0));
    fs::remove_file(&rt, "copy.txt").expect(&rt, "the copy");
}

// Neither an image nor a file of the host is at the path, and none is made there.
fn keeps_no_bytes(rt: HostRuntime, path: &str) -> bool {
    let mut bay = FileBay::new(rt);
    let mut host = FileHost::new(rt);
    bay.attach(0, path).err() == Some(BayError::Fault)
        && bay.make(0, path, 512).err() == Some(BayError::Fault)
        && host.size(path).err() == Some(HostError::Fault)
        && host.create(path).err() == Some(HostError::Fault)
        && host.append(path, b"x").err() == Some(HostError::Fault)
}

#[test]
fn folders_and_character_devices_are_refused(rt: HostRuntime) {
    assert!(rt; keeps_no_bytes(rt, "."));
    assert!(rt; keeps_no_bytes(rt, "/dev/null"));
    assert!(rt; keeps_no_bytes(rt, "/dev/zero"));
}

#[test]
fn a_line_is_one_line(rt: HostRuntime) {
    let line = on_one_line(rt.alloc(), "d\n\t\x1b\x7f ä").expect(&rt, "memory");
    assert!(rt; line.as_slice() == "d\\n\\t\\x1b\\x7f ä\n".as_bytes());
}

// Gives and takes one byte, then nothing, then fails.
#[derive(Drop)]
struct Failing {
    calls: u32,
}

impl Failing {
    fn turn(&mut self) -> io::Result<usize> {
        self.calls = self.calls.saturating_add(1);
        match self.calls {
            1 => Ok(1),
            2 => Ok(0),
            _ => Err(io::Error::from(ErrorKind::BrokenPipe)),
        }
    }
}

impl Read for Failing {
    fn read(&mut self, buf: &mut [u8]) -> io::Result<usize> {
        Ok(self.turn()?.min(buf.len()))
    }
}

impl Write for Failing {
    fn write(&mut self, buf: &[u8]) -> io::Result<usize> {
        Ok(self.turn()?.min(buf.len()))
    }

    fn flush(&mut self) -> io::Result<()> {
        Ok(())
    }
}

#[test]
fn streams_pass_on_counts_and_faults(rt: HostRuntime) {
    let mut source = StdSource::over(Failing { calls: 0 });
    let mut buf = [0u8; 4];
    assert_eq!(rt; source.read(&mut buf).ok(), Some(1));
    assert_eq!(rt; source.read(&mut buf).ok(), Some(0));
    assert!(rt; source.read(&mut buf).is_err());
    let mut sink = StdSink::over(Failing { calls: 0 });
    assert_eq!(rt; sink.write(b"ab").ok(), Some(1));
    // nothing taken of a piece that isn't empty
    assert!(rt; sink.write(b"b").is_err());
    assert!(rt; sink.write(b"b").is_err());
    assert!(rt; hold_streams(&rt).is_ok());
    let mut out = StdSink::new(rt);
    assert_eq!(rt; out.write(b"").ok(), Some(0));
    let mut input = StdSource::new(rt);
    assert!(rt; input.read(&mut buf[..0]).is_ok());
    // after the year 2020
    assert!(rt; SystemClock::new(rt).now() > 1_577_836_800);
}
