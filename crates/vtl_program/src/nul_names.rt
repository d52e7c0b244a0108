//! Explains a name with a NUL, by which no file can be made or opened.
use explanations::Explanation;
use std::alloc::{AllocError, Global};
use vtl_config::Config;
use vtl_files::configs::has_nul;

// The entries of a configuration of which a name has a NUL, in words, in the order of the configuration.
fn entries_of(alloc: Global, config: &Config) -> Result<Vec<String>, AllocError> {
    let mut entries = Vec::new(alloc);
    for cartridge in config.cartridges.as_slice() {
        if has_nul(&cartridge.file) {
            let barcode = std::str::from_utf8(cartridge.barcode.as_bytes()).unwrap_or("");
            entries.push(format!(in alloc; "cartridge {barcode}")?)?;
        }
    }
    for drive in config.drives.as_slice() {
        if has_nul(&drive.reservations) {
            let number = drive.number.number();
            entries.push(format!(in alloc; "drive {number}")?)?;
        }
    }
    Ok(entries)
}

// Adds the lines of an entry of which a name has a NUL: which one, what is allowed, and what to do.
fn add_entry(alloc: Global, entry: &str, lines: &mut Explanation) -> Result<(), AllocError> {
    let refused = format!(in alloc; "refused: the name of the file of {entry}, which has a NUL")?;
    lines.add(alloc, refused.as_str())?;
    lines.add(alloc, "allowed: every other character")?;
    lines.add(alloc, "to do: correct the name in the configuration")
}

/// Adds the lines of the first entry of a configuration of which a name has a NUL. Adds nothing where there is none.
pub(crate) fn add_nul(
    alloc: Global,
    config: &Config,
    lines: &mut Explanation,
) -> Result<(), AllocError> {
    let entries = entries_of(alloc, config)?;
    match entries.as_slice().first() {
        Some(entry) => add_entry(alloc, entry.as_str(), lines),
        None => Ok(()),
    }
}

/// Adds the lines of each entry of a configuration of which a name has a NUL.
pub(crate) fn add_each_nul(
    alloc: Global,
    config: &Config,
    lines: &mut Explanation,
) -> Result<(), AllocError> {
    let entries = entries_of(alloc, config)?;
    for entry in entries.as_slice() {
        add_entry(alloc, entry.as_str(), lines)?;
    }
    Ok(())
}
