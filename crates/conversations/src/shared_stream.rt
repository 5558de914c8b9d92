//! A stream in memory that an audit writes to and that a test reads.
use std::alloc::{AllocError, Global};
use std::cell::RefCell;
use std::io::{self, Write};
use std::rc::Rc;
use xcap_io::{Failed, MemStream, Sink};

/// A stream in memory that has several owners.
#[derive(Drop)]
pub struct SharedStream(Rc<RefCell<MemStream>>);

impl SharedStream {
    pub fn new(alloc: Global, room: usize) -> Result<SharedStream, AllocError> {
        let line = MemStream::new(alloc, b"", 1, None, room)?;
        Ok(SharedStream(Rc::new(alloc, RefCell::new(line))?))
    }

    /// One more owner of the stream.
    pub fn share(&self) -> Result<SharedStream, AllocError> {
        Ok(SharedStream(Rc::clone(&self.0)?))
    }

    /// The bytes that the stream took.
    pub fn output(&self, alloc: Global) -> Result<Vec<u8>, AllocError> {
        match self.0.try_borrow() {
            Ok(line) => line.sent().to_vec(alloc),
            Err(_) => Err(AllocError),
        }
    }
}

impl Write for SharedStream {
    fn write(&mut self, piece: &[u8]) -> io::Result<usize> {
        if piece.is_empty() {
            return Ok(0);
        }
        let Ok(mut line) = self.0.try_borrow_mut() else {
            return Ok(0);
        };
        match line.write(piece) {
            Ok(count) => Ok(count),
            Err(Failed) => Ok(0),
        }
    }

    fn flush(&mut self) -> io::Result<()> {
        Ok(())
    }
}
