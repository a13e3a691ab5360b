//! `bytes_are_written_whole_or_taken_back`: what a disk in memory has after `put`.
ghost use Rattle.std.specs.Prelude.{Some};

use iv_disk::{Disk, put};
use std::alloc::{AllocError, Global};
use std::io;
use std::io::ErrorKind;

/// A disk in memory: so many bytes at a time are taken, there is space for so many more, and it may refuse to be cut.
#[derive(Drop)]
struct Platter {
    bytes: Vec<u8>,
    step: usize,
    room: usize,
    is_cut: bool,
}

impl Disk for Platter {
    ghost held = { λ p. Some p.bytes.items };

    ghost synced = { λ p. Some p.bytes.items };

    fn length(&self) -> io::Result<u64> {
        Ok(self.bytes.len() as u64)
    }

    fn write(&mut self, bytes: &[u8]) -> io::Result<usize> {
        let count = bytes.len().min(self.step).min(self.room);
        match self.bytes.extend_from_slice(&bytes[..count]) {
            Ok(()) => {
                self.room -= count;
                Ok(count)
            }
            Err(_) => Err(io::Error::from(ErrorKind::OutOfMemory)),
        }
    }

    fn cut(&mut self, length: u64) -> io::Result<()> {
        if !self.is_cut {
            return Err(io::Error::from(ErrorKind::PermissionDenied));
        }
        if length < self.bytes.len() as u64 {
            self.bytes.truncate(length as usize);
        }
        Ok(())
    }

    fn sync(&mut self) -> io::Result<()> {
        Ok(())
    }
}

/// Bytes that are taken at a time, room, whether it is cut; whether all are written, and what it has then.
const CASES: [(usize, usize, bool, bool, &[u8]); 6] = [
    (100, 100, true, true, b"old\nentry\n"),
    (1, 6, true, true, b"old\nentry\n"),
    (4, 6, false, true, b"old\nentry\n"),
    (2, 5, true, false, b"old\n"),
    (2, 5, false, false, b"old\nentry"),
    (9, 0, true, false, b"old\n"),
];

/// Writes an entry to a disk. Whether all of it is written, and what the disk has then.
fn written(
    alloc: Global,
    step: usize,
    room: usize,
    is_cut: bool,
) -> Result<(bool, Vec<u8>), AllocError> {
    let mut bytes = Vec::new(alloc);
    bytes.extend_from_slice(b"old\n")?;
    let mut disk = Platter {
        bytes,
        step,
        room,
        is_cut,
    };
    let is_written = put(&mut disk, b"entry\n").is_ok();
    Ok((is_written, disk.bytes))
}

#[test]
fn bytes_are_written_whole_or_taken_back(rt: HostRuntime) -> Result<(), AllocError> {
    for (step, room, is_cut, is_written, bytes) in CASES {
        let (was_written, left) = written(rt.alloc(), step, room, is_cut)?;
        assert_eq!(rt; was_written, is_written, "step {step}, room {room}");
        assert_eq!(rt; left.as_slice(), bytes, "step {step}, room {room}");
    }
    Ok(())
}
