//! What devices give and take: inputs that are read whole, and outputs with too little room.

use chi_script::{
    Failed, Fault, FileInput, Input, MOST_BYTES, MemoryInput, MemoryOutput, Output, read_all,
};
use std::alloc::AllocError;
use std::io::{self, ErrorKind, Read};

/// Its first read is interrupted, the second gives a byte, and each later one fails.
#[derive(Drop)]
struct Interrupted {
    reads: u64,
}

impl Read for Interrupted {
    fn read(&mut self, buffer: &mut [u8]) -> io::Result<usize> {
        self.reads = self.reads.saturating_add(1);
        if self.reads == 1 {
            return Err(ErrorKind::Interrupted.into());
        }
        if self.reads > 2 || buffer.is_empty() {
            return Err(ErrorKind::Other.into());
        }
        buffer[0] = b'a';
        Ok(1)
    }
}

// Of a large input one byte too many is read.
#[test]
fn all_of_an_input_is_read(rt: HostRuntime) -> Result<(), AllocError> {
    let mut file = Vec::new(rt.alloc());
    file.resize(10_000, b'a')?;
    file.push(b'b')?;
    let mut input = MemoryInput::new(&file, 100);
    let bytes = read_all(rt.alloc(), &mut input).unwrap_or(Vec::new(rt.alloc()));
    assert!(rt; bytes.as_slice() == file.as_slice());
    file.resize(MOST_BYTES + 5_000, b'a')?;
    let mut input = MemoryInput::new(&file, 1_000);
    let bytes = read_all(rt.alloc(), &mut input).unwrap_or(Vec::new(rt.alloc()));
    assert_eq!(rt; bytes.len(), MOST_BYTES + 1);
    Ok(())
}

#[test]
fn an_input_fails_at_each_read(rt: HostRuntime) {
    let file = [b'a'; 9_000];
    for good_reads in 0..4 {
        let mut input = MemoryInput::new(&file, good_reads);
        let fault = read_all(rt.alloc(), &mut input).err();
        assert_eq!(rt; fault, Some(Fault::Read));
    }
    let mut input = MemoryInput::new(&file, 4);
    assert!(rt; read_all(rt.alloc(), &mut input).is_ok());
}

// After a write that failed nothing is written.
#[test]
fn an_output_takes_what_it_has_room_for(rt: HostRuntime) {
    let text = b"refused 10 OutOfRange\n";
    for room in 0..22 {
        let mut output = MemoryOutput::new(rt.alloc(), room);
        assert_eq!(rt; output.write_all(text), Err(Failed));
        assert_eq!(rt; output.write_all(b"ok"), Err(Failed));
        assert!(rt; output.bytes() == &text[..room] && output.failures() == 2);
    }
    let mut output = MemoryOutput::new(rt.alloc(), 22);
    assert_eq!(rt; output.write_all(text), Ok(()));
    assert!(rt; output.bytes() == text.as_slice());
    assert_eq!(rt; output.write_all(b"x"), Err(Failed));
}

#[test]
fn a_device_shows_how_often_it_failed(rt: HostRuntime) {
    let mut input = MemoryInput::new(b"ok\n", 1);
    let mut buffer = [0; 4];
    assert_eq!(rt; input.read(&mut buffer), Ok(3));
    assert_eq!(rt; input.failures(), 0);
    assert_eq!(rt; input.read(&mut buffer), Err(Failed));
    assert_eq!(rt; input.failures(), 1);
}

#[test]
fn an_interrupted_read_is_tried_again(rt: HostRuntime) {
    let mut input = FileInput::new(Interrupted { reads: 0 });
    let mut buffer = [0; 4];
    assert_eq!(rt; input.read(&mut buffer), Ok(1));
    assert_eq!(rt; buffer, [b'a', 0, 0, 0]);
    assert_eq!(rt; input.failures(), 0);
    assert_eq!(rt; input.read(&mut buffer), Err(Failed));
    assert_eq!(rt; input.failures(), 1);
}
