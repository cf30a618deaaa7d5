ghost use Rattle.std.specs.Prelude.{◌≡◌, ℕ, ◌≤◌, None, length, IfOk};
ghost use Rattle.shelf_io.specs.Faults.{Counted};
ghost use Rattle.shelf_io.specs.Shelf.{KeepsRoom};

use crate::outside::{Failed, Shelf, TextSink, Unread, one_more};
use std::fs::OpenOptions;
use std::io::{ErrorKind, Read, Seek, SeekFrom, Write};
use std::marker::Model;
use std::rt::Files;
use std::{fs, io};

/// How many bytes are asked of the system at a time.
const PIECE: usize = 65536;

#[derive(Drop)]
struct Input<F> {
    name: String,
    file: F,
    at: u64,
    room: Vec<u8>,
}

impl<F: Read + Seek> Input<F> {
    /// Reads from byte `at` on. No seek is made where the last read ended there: a pipe has none.
    fn read_at(&mut self, at: u64, room: &mut [u8]) -> io::Result<usize>
        ensures bound { IfOk result (λ n. n ≤ length room.old) }
        ensures room { KeepsRoom room.old room.new result }
    {
        if self.at != at {
            self.at = self.file.seek(SeekFrom::Start(at))?;
        }
        // a failed read may leave anything in the room that the system was given, so it is given
        // one apart
        let asked = room.len().min(self.room.len());
        let piece = &mut self.room[..asked];
        let count = self.file.read(piece)?;
        room[..count].copy_from_slice(&piece[..count]);
        self.at = self.at.saturating_add(count as u64);
        Ok(count)
    }
}

#[derive(Drop)]
struct Output<F> {
    name: String,
    file: F,
}

/// The files of the system. It tells nothing of them, so clauses see its count of faults alone.
///
/// The file of the last read stays open, and a read that goes on where that one ended needs no
/// seek: so a pipe can be read. The file of the last make or put stays open too, and later puts of
/// the same name append to it.
#[derive(Drop)]
pub struct HostShelf<R: Files + AllocGlobal> {
    rt: R,
    input: Option<Input<R::File>>,
    output: Option<Output<R::File>>,
    faults: u64,
}

impl<R: Files + AllocGlobal> Model for HostShelf<R> {
    ghost Value = { ℕ };

    ghost view = { λ shelf. shelf.faults };
}

impl<R: Files + AllocGlobal> HostShelf<R> {
    /// The shelf of the system's files. Names are paths from the current folder.
    pub fn new(rt: R) -> HostShelf<R>
        ensures { result ≡ 0 }
    {
        HostShelf {
            rt,
            input: None,
            output: None,
            faults: 0,
        }
    }

    fn fault(&mut self) -> Failed
        ensures { Counted self.old self.new }
    {
        self.faults = one_more(self.faults);
        Failed
    }

    fn unread(&mut self, error: io::Error) -> Unread
        ensures missing { result ≡ Unread.Missing → self.new ≡ self.old }
        ensures failed { result ≡ Unread.Failed → Counted self.old self.new }
    {
        if error.kind() == ErrorKind::NotFound {
            return Unread::Missing;
        }
        let Failed = self.fault();
        Unread::Failed
    }

    fn open_start(&self, name: &str) -> io::Result<Input<R::File>> {
        let owned = String::from_str(self.rt.alloc(), name)?;
        let room = vec![in self.rt.alloc(); 0; PIECE]?;
        let file = fs::open(&self.rt, name)?;
        Ok(Input {
            name: owned,
            file,
            at: 0,
            room,
        })
    }

    /// Reads from the file that is open for it, or from one opened anew. A failed read closes it.
    fn read_on(&mut self, name: &str, at: u64, room: &mut [u8]) -> io::Result<usize>
        ensures bound { IfOk result (λ n. n ≤ length room.old) }
        ensures room { KeepsRoom room.old room.new result }
        ensures same { self.new ≡ self.old }
    {
        let mut input = match self.input.take() {
            Some(input) if input.name.as_str() == name => input,
            _ => self.open_start(name)?,
        };
        let count = input.read_at(at, room)?;
        self.input = Some(input);
        Ok(count)
    }

    /// Closes the file that is read, where it is the one of this name, since its bytes change.
    fn close_input(&mut self, name: &str)
        ensures { self.new ≡ self.old }
    {
        let is_read = match &self.input {
            Some(input) => input.name.as_str() == name,
            None => false,
        };
        if is_read {
            self.input = None;
        }
    }

    fn create(&self, name: &str) -> io::Result<Output<R::File>> {
        let owned = String::from_str(self.rt.alloc(), name)?;
        let file = fs::create(&self.rt, name)?;
        Ok(Output { name: owned, file })
    }

    fn open_end(&self, name: &str) -> io::Result<Output<R::File>> {
        let owned = String::from_str(self.rt.alloc(), name)?;
        let mut options = OpenOptions::new();
        options.append(true).create(true);
        let file = self.rt.open_file(&options, name)?;
        Ok(Output { name: owned, file })
    }

    fn append(&mut self, name: &str, bytes: &[u8]) -> io::Result<usize>
        ensures bound { IfOk result (λ k. k ≤ length bytes.now) }
        ensures same { self.new ≡ self.old }
    {
        let is_open = match &self.output {
            Some(output) => output.name.as_str() == name,
            None => false,
        };
        if !is_open {
            self.output = Some(self.open_end(name)?);
        }
        match &mut self.output {
            Some(output) if !bytes.is_empty() => output.file.write(bytes),
            _ => Ok(0),
        }
    }
}

impl<R: Files + AllocGlobal> Shelf for HostShelf<R> {
    ghost files = { λ _. None };

    ghost faults = { λ count. count };

    /// A folder has no length: asking for it is a fault.
    fn length(&mut self, name: &str) -> Result<u64, Unread> {
        match fs::metadata(&self.rt, name) {
            Ok(metadata) if !metadata.is_dir() => Ok(metadata.len()),
            Ok(_) => {
                let Failed = self.fault();
                Err(Unread::Failed)
            }
            Err(error) => Err(self.unread(error)),
        }
    }

    fn read(&mut self, name: &str, at: u64, room: &mut [u8]) -> Result<usize, Unread> {
        match self.read_on(name, at, room) {
            Ok(count) => Ok(count),
            Err(error) => Err(self.unread(error)),
        }
    }

    fn make(&mut self, name: &str) -> Result<(), Failed> {
        self.close_input(name);
        match self.create(name) {
            Ok(output) => {
                self.output = Some(output);
                Ok(())
            }
            Err(_) => Err(self.fault()),
        }
    }

    /// Fails where the system takes nothing of a piece that isn't empty.
    fn put(&mut self, name: &str, bytes: &[u8]) -> Result<usize, Failed> {
        self.close_input(name);
        match self.append(name, bytes) {
            Ok(count) if count > 0 || bytes.is_empty() => Ok(count),
            _ => Err(self.fault()),
        }
    }
}

/// Standard output. It tells nothing of the text, so clauses see its count of faults alone.
#[derive(Drop)]
pub struct HostSink<R: Print> {
    rt: R,
    faults: u64,
}

impl<R: Print> Model for HostSink<R> {
    ghost Value = { ℕ };

    ghost view = { λ sink. sink.faults };
}

impl<R: Print> HostSink<R> {
    /// The sink of the process's standard output.
    pub fn new(rt: R) -> HostSink<R>
        ensures { result ≡ 0 }
    {
        HostSink { rt, faults: 0 }
    }
}

impl<R: Print> TextSink for HostSink<R> {
    ghost written = { λ _. None };

    ghost faults = { λ count. count };

    /// Fails where standard output takes nothing of a piece that isn't empty.
    fn put(&mut self, bytes: &[u8]) -> Result<usize, Failed> {
        if bytes.is_empty() {
            return Ok(0);
        }
        match io::writer(&self.rt).write(bytes) {
            Ok(count) if count > 0 => Ok(count),
            _ => {
                self.faults = one_more(self.faults);
                Err(Failed)
            }
        }
    }
}
