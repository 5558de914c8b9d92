//! The files of a case.
use anyhow::Result;
use std::{fs, io};

/// The bytes of a case's file with an ending; none where there is no such file.
pub fn read_case_file(rt: &HostRuntime, name: &str, ending: &str) -> Result<Vec<u8>> {
    let path = format!(in rt.alloc(); "{name}.{ending}")?;
    match fs::read(rt, path.as_str()) {
        Err(fault) if fault.kind() == io::ErrorKind::NotFound => Ok(Vec::new(rt.alloc())),
        read => Ok(read?),
    }
}

// The place of the first difference of two texts.
fn first_difference(wanted: &[u8], matches_file: &[u8]) -> usize {
    wanted
        .iter()
        .zip(matches_file)
        .take_while(|(w, c)| w == c)
        .count()
}

/// Whether these bytes are those of the case's file with an ending. Prints where they differ.
pub fn matches_file(rt: &HostRuntime, name: &str, ending: &str, bytes: &[u8]) -> Result<bool> {
    let wanted = read_case_file(rt, name, ending)?;
    if wanted.as_slice() == bytes {
        return Ok(true);
    }
    let place = first_difference(&wanted, bytes);
    println!(rt; "{name}.{ending}: what came differs at byte {place}")?;
    Ok(false)
}
