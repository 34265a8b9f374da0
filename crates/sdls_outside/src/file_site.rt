// The image in a file of the system, and standard output.
ghost use Rattle.std.specs.Prelude.{◌≡◌, [], false, codes};
ghost use Rattle.std.proofs.Common.{rules};
ghost use Rattle.sdls_outside.specs.Crash.{fresh};

use crate::calls::counted;
use crate::site::{PutFaults, noted};
use crate::{Failed, Site};
use std::fs::{File, Permissions};
use std::io;
use std::io::{ErrorKind, Write};
use std::os::fd::AsRawFd;
use std::os::unix::fs::{FileExt, OpenOptionsExt, PermissionsExt};
use std::path::Path;

/// The image in a file, and standard output as the sink. Clauses know nothing of their content. Its
/// count of faults rises at each error of the system.
#[derive(Drop)]
pub struct FileSite {
    rt: HostRuntime,
    path: &'static str,
    image: ImageFile,
    faults: u64,
    put_faults: PutFaults,
}

impl FileSite {
    ghost use Rattle.sdls_outside.specs.FileSite.{image_path, output_faults, output_put_faults};

    /// The file `unit.img` in the folder that the program runs in, with no fault so far.
    pub fn new(rt: HostRuntime) -> Self
        ensures path { image_path result ≡ codes "unit.img" }
        ensures faults { output_faults result ≡ 0 }
        ensures puts { output_put_faults result ≡ 0 }
    {
        FileSite::at(rt, "unit.img")
    }

    /// The file at this path. It is opened at the first `begin` that finds it, and made at the
    /// first `write_at` where none was found.
    pub fn at(rt: HostRuntime, path: &'static str) -> Self
        ensures path { image_path result ≡ path.now }
        ensures faults { output_faults result ≡ 0 }
        ensures puts { output_put_faults result ≡ 0 }
    {
        FileSite {
            rt,
            path,
            image: ImageFile::new(),
            faults: 0,
            put_faults: PutFaults::Zero,
        }
    }
}

impl Site for FileSite {
    ghost use Rattle.sdls_outside.specs.FileSite.{output_faults, output_put_faults};

    ghost told = { false };

    ghost trace = { λ _. fresh [] };

    ghost faults = { λ site. output_faults site };

    ghost put_faults = { λ site. output_put_faults site };

    ghost image_may_stay = { Prim.search rules };

    fn begin(&mut self) -> Result<u64, Failed> {
        let length = self.image.find(&self.rt, self.path);
        counted(length, &mut self.faults)
    }

    fn read_at(&mut self, at: u64, into: &mut [u8]) -> Result<(), Failed> {
        let read = self.image.read_at(at, into);
        counted(read, &mut self.faults)
    }

    fn write_at(&mut self, at: u64, octets: &[u8]) -> Result<(), Failed> {
        let written = self.image.write_at(&self.rt, self.path, at, octets);
        counted(written, &mut self.faults)
    }

    fn sync(&mut self) -> Result<(), Failed> {
        let synced = self.image.sync(&self.rt, self.path);
        counted(synced, &mut self.faults)
    }

    fn put(&mut self, octets: &[u8]) -> Result<(), Failed> {
        let printed = print(&self.rt, octets);
        let put = counted(printed, &mut self.faults);
        self.put_faults = noted(&self.put_faults, &put);
        put
    }

    fn faults(&self) -> u64 {
        self.faults
    }
}

fn print(rt: &impl Print, octets: &[u8]) -> io::Result<()> {
    let mut stdout = io::writer(rt);
    stdout.write_all(octets)?;
    stdout.flush()
}

// Readable and writable by the owner, and by nobody else.
const OWNER_ALONE: u32 = 0o600;

// A file that is opened when it is found, and made at the first write where there was none. While it
// is open no other process opens it as an image.
#[derive(Drop)]
pub struct ImageFile {
    file: Option<File>,
    // how many octets it has, as far as is known
    length: u64,
    // it was empty when it was first written to, and its entry in the folder may not be on the disk
    is_new: bool,
    has_grown: bool,
    is_suspect: bool,
}

impl ImageFile {
    pub fn new() -> Self {
        ImageFile {
            file: None,
            length: 0,
            is_new: false,
            has_grown: false,
            is_suspect: false,
        }
    }

    // Opens the file if it is there, and answers its length, 0 where there is none.
    pub fn find(&mut self, files: &HostRuntime, path: &str) -> io::Result<u64> {
        if self.file.is_none() {
            match File::options().read(true).write(true).open(files, path) {
                Ok(file) => self.file = Some(taken(file)?),
                Err(error) if error.kind() == ErrorKind::NotFound => return Ok(0),
                Err(error) => return Err(error),
            }
        }
        match &self.file {
            Some(file) => {
                self.length = file.metadata()?.len();
                Ok(self.length)
            }
            None => Ok(0),
        }
    }

    pub fn read_at(&self, at: u64, into: &mut [u8]) -> io::Result<()> {
        match &self.file {
            Some(file) => file.read_exact_at(into, at),
            None if into.is_empty() => Ok(()),
            None => Err(ErrorKind::NotFound.into()),
        }
    }

    // Makes the file if there is none. Before the first write to an empty file, one that was there
    // too, its mode becomes the owner's alone, whatever it was and whatever the umask takes.
    pub fn write_at(
        &mut self,
        files: &HostRuntime,
        path: &str,
        at: u64,
        octets: &[u8],
    ) -> io::Result<()> {
        if self.file.is_none() {
            self.file = Some(taken(make(files, path)?)?);
        }
        match &self.file {
            Some(file) => {
                if self.length == 0 {
                    file.set_permissions(Permissions::from_mode(OWNER_ALONE))?;
                    self.is_new = true;
                }
                let end = at.saturating_add(octets.len() as u64);
                if self.length < end {
                    self.length = end;
                    self.has_grown = true;
                }
                file.write_all_at(octets, at)
            }
            None => Ok(()),
        }
    }

    // Brings the file's data to the disk; its length and mode too if it is new or grew, and its entry
    // in the folder if it is new. Once that has failed it is never Ok again: the system may have
    // dropped what was pending, and would answer Ok to the next try.
    pub fn sync(&mut self, files: &HostRuntime, path: &str) -> io::Result<()> {
        if self.is_suspect {
            return Err(ErrorKind::Other.into());
        }
        self.is_suspect = true;
        if let Some(file) = &self.file {
            if self.has_grown {
                file.sync_all()?;
                self.has_grown = false;
            } else {
                file.sync_data()?;
            }
        }
        if self.is_new {
            File::open(files, folder_of(path))?.sync_all()?;
            self.is_new = false;
        }
        self.is_suspect = false;
        Ok(())
    }
}

// Makes the file, for its owner alone from its first moment: keys stand in it in clear.
fn make(files: &HostRuntime, path: &str) -> io::Result<File> {
    File::options()
        .read(true)
        .write(true)
        .create_new(true)
        .mode(OWNER_ALONE)
        .open(files, path)
}

// The folder that a file lies in.
fn folder_of(path: &str) -> &str {
    match Path::new(path).parent() {
        Some(folder) if !folder.as_str().is_empty() => folder.as_str(),
        _ => ".",
    }
}

// Takes an open file as the image, for this process alone: it is locked, without waiting, until the
// process ends. Refuses what is no regular file, as a device or a FIFO. Refuses a file, too, that was
// given the number of a standard stream which is closed: output would be written over the image.
fn taken(file: File) -> io::Result<File> {
    if file.as_raw_fd() <= 2 || !file.metadata()?.is_file() {
        return Err(ErrorKind::Other.into());
    }
    file.try_lock()?;
    Ok(file)
}
