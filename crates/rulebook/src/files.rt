// Image files: read whole, and replaced whole.
use crate::failure::{Failure, OnFile, Tried};
use block::block_store::BlockStore;
use std::fs::File;
use std::io::Write;
use std::path::Path;
use std::{fs, io};

pub(crate) fn load(rt: &HostRuntime, file: &str) -> Result<BlockStore, Failure> {
    let bytes = fs::read(rt, file).on_file(rt.alloc(), Tried::Read, file)?;
    Ok(image::open(bytes)?)
}

fn write_new(rt: &HostRuntime, file: &str, bytes: &[u8]) -> io::Result<()> {
    let mut new = File::create(rt, file)?;
    new.write_all(bytes)?;
    new.sync_all()
}

// A new file with these bytes takes the name of the old one, and its permissions.
fn write_and_rename(rt: &HostRuntime, file: &str, new: &str, bytes: &[u8]) -> io::Result<()> {
    // there may be no old one
    let _ = fs::copy(rt, file, new);
    write_new(rt, new, bytes)?;
    fs::rename(rt, new, file)
}

// A name lasts once its folder is synced, too.
fn sync_folder(rt: &HostRuntime, file: &str) -> io::Result<()> {
    let folder = match Path::new(file).parent() {
        Some(folder) if folder != Path::new("") => folder,
        _ => Path::new("."),
    };
    File::open(rt, folder)?.sync_all()
}

fn replace(rt: &HostRuntime, file: &str, bytes: &[u8]) -> io::Result<()> {
    let new = format!(in rt.alloc(); "{file}.new")?;
    if let Err(error) = write_and_rename(rt, file, new.as_str(), bytes) {
        let _ = fs::remove_file(rt, new.as_str());
        return Err(error);
    }
    sync_folder(rt, file)
}

// Writes the bytes to a new file and gives it the name of the old one, so that whoever pulls the plug finds the old image or the new one.
pub(crate) fn save(rt: &HostRuntime, file: &str, bytes: &[u8]) -> Result<(), Failure> {
    replace(rt, file, bytes).on_file(rt.alloc(), Tried::Write, file)
}
