//! The files of a driver.

use std::fs::{File, OpenOptions};
use std::io;
use std::sync::{Mutex, Wait};

/// The paths of a driver: of a file that is read, and of one that is written, which may be the same.
#[derive(Debug, Drop)]
pub(crate) struct DriverPaths {
    pub(crate) from_driver: String,
    pub(crate) to_driver: String,
}

/// The open files of a driver.
#[derive(Drop)]
pub(crate) struct DriverFiles {
    pub(crate) reading: File,
    pub(crate) writing: File,
}

impl DriverPaths {
    // Opens the files, without waiting for a driver.
    pub(crate) fn open(&self, files: HostRuntime) -> io::Result<DriverFiles> {
        if self.from_driver == self.to_driver {
            let reading = open_both_ways(files, &self.from_driver)?;
            let writing = reading.try_clone()?;
            return Ok(DriverFiles { reading, writing });
        }
        // Opening one end of a FIFO waits for the other end, but not while the file is open both ways.
        let other_end = open_both_ways(files, &self.from_driver)?;
        let reading = File::open(&files, self.from_driver.as_str())?;
        drop(other_end);
        let other_end = open_both_ways(files, &self.to_driver)?;
        let writing = OpenOptions::new()
            .write(true)
            .open(&files, self.to_driver.as_str())?;
        drop(other_end);
        Ok(DriverFiles { reading, writing })
    }
}

fn open_both_ways(files: HostRuntime, path: &String) -> io::Result<File> {
    OpenOptions::new()
        .read(true)
        .write(true)
        .open(&files, path.as_str())
}

/// The file that was opened last for writing to a driver, until it is taken.
#[derive(Drop)]
pub(crate) struct OpenedFile {
    file: Mutex<Option<File>>,
}

impl OpenedFile {
    pub(crate) fn new() -> OpenedFile {
        OpenedFile {
            file: Mutex::new(None),
        }
    }

    pub(crate) fn put<R: Wait>(&self, rt: &R, file: File) {
        let mut opened = self.file.lock(rt);
        *opened = Some(file);
    }

    pub(crate) fn take<R: Wait>(&self, rt: &R) -> Option<File> {
        let mut opened = self.file.lock(rt);
        opened.take()
    }
}
