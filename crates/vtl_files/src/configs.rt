//! Reads the configuration in a file.
ghost use Rattle.std.specs.Prelude.{◌≡◌, IfOk, IfErr};
ghost use Rattle.std.specs.List.{list_any};
ghost use Rattle.vtl_config.specs.Configs.{Says};
ghost use Rattle.vtl_files.specs.Configured.{IsNoConfig, ReadsConfig, ReadsToOpen, has_nul, names_nul};

use crate::files::TextFiles;
use std::alloc::Global;
use vtl_config::{CartridgeEntry, Config, ConfigError, DriveEntry, FileName, read_config};
use vtl_faults::faults::VtlFault;

/// Returns the configuration that a text spells, as `read_config` does. Errors: `Config` where the text is refused,
/// `NoMemory` where memory runs out.
pub fn config_of(alloc: Global, text: &[u8]) -> Result<Config, VtlFault>
    ensures ok { IfOk result (Says text.now) }
    ensures err { IfErr result (IsNoConfig text.now) }
{
    match read_config(alloc, text) {
        Ok(config) => Ok(config),
        Err(ConfigError::NoMemory) => Err(VtlFault::NoMemory),
        Err(_) => Err(VtlFault::Config),
    }
}

/// Returns the configuration in the file of this name. Errors: `Device` where the file cannot be read, `Config` where
/// its text is refused, `NoMemory` where memory runs out, also while the file is read.
pub fn config_in<F: TextFiles>(alloc: Global, files: &F, name: &str) -> Result<Config, VtlFault>
    ensures { ReadsConfig F.reads name.now result }
{
    match files.read(name) {
        Ok(text) => config_of(alloc, text.as_slice()),
        Err(error) => Err(VtlFault::from(error)),
    }
}

/// Whether a name has a NUL, so that the system can neither make nor open a file of it.
pub fn has_nul(name: &FileName) -> bool
    ensures { result ≡ has_nul name.now }
{
    name.as_str().as_bytes().contains(&0)
}

// Whether the name of one of these cartridges has a NUL.
fn cartridges_nul(entries: &[CartridgeEntry]) -> bool
    ensures { result ≡ list_any (λ entry. has_nul entry.file) entries.now }
{
    entries.iter().any(|entry| has_nul(&entry.file))
}

// Whether a name of the reservations of these drives has a NUL.
fn drives_nul(entries: &[DriveEntry]) -> bool
    ensures { result ≡ list_any (λ entry. has_nul entry.reservations) entries.now }
{
    entries.iter().any(|entry| has_nul(&entry.reservations))
}

// Whether one of the names of a configuration has a NUL.
fn names_nul(config: &Config) -> bool
    ensures { result ≡ names_nul config.now }
{
    cartridges_nul(config.cartridges.as_slice()) || drives_nul(config.drives.as_slice())
}

/// Returns the configuration in the file of this name, whose files are to be made or opened. Errors: those of
/// `config_in`; `Device` where a name in the configuration has a NUL.
pub fn config_to_open<F: TextFiles>(
    alloc: Global,
    files: &F,
    name: &str,
) -> Result<Config, VtlFault>
    ensures { ReadsToOpen F.reads name.now result }
{
    match config_in(alloc, files, name) {
        Ok(config) => {
            if names_nul(&config) {
                Err(VtlFault::Device)
            } else {
                Ok(config)
            }
        }
        Err(fault) => Err(fault),
    }
}
