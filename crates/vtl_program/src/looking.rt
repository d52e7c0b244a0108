//! Looks at the files of a library that is about to be switched on, and reports at once what is wrong with them.
ghost use Rattle.std.specs.Prelude.{◌≡◌};

use check_lines::reading::ReportsRead;
use file_disk::{FileDisk, FileError};
use std::alloc::{AllocError, Global};
use vtl_files::config_checks::is_other;
use vtl_files::files::ReadFiles;
use vtl_files::side_checks::lines_of;
use vtl_notes::at_once::AtOnce;

// The files of the system, of which nothing is noted.
#[derive(Clone, Copy)]
struct UnnotedFiles<'a> {
    rt: &'a HostRuntime,
}

impl<'a> ReportsRead for UnnotedFiles<'a> {
    fn read(&self, _used: u64, _all: u64) {}
}

impl<'a> ReadFiles<FileDisk> for UnnotedFiles<'a> {
    ghost opens_to_read = { λ name answer. Unit {0} };

    ghost closes = { λ name disk. Unit {0} };

    fn open_to_read(&self, name: &str) -> Result<FileDisk, FileError> {
        file_disk::open_to_read(self.rt, name)
    }

    fn close(&self, _: &str, disk: FileDisk) {
        drop(disk);
    }

    fn nothing(&self) -> FileDisk {
        file_disk::no_file()
    }
}

// The first of these lines, without its line feed.
fn first_line(lines: &[u8]) -> &str {
    let text = std::str::from_utf8(lines).unwrap_or("");
    match text.split_once("\n") {
        Some((first, _rest)) => first,
        None => text,
    }
}

/// Returns the text of the line that says what is wrong with the file `path`, of which a check gives these lines. It
/// has to be that of the side which the configuration names by this word and this label. None where nothing is wrong
/// with it.
pub fn wrong_text(
    alloc: Global,
    word: &[u8],
    label: &[u8],
    path: &str,
    lines: &[u8],
) -> Result<Option<String>, AllocError> {
    let is_expected = lines.starts_with(word) && !is_other(alloc, word, label, lines)?;
    if is_expected {
        return Ok(None);
    }
    Ok(Some(found_text(alloc, first_line(lines), word, label, path)?))
}

// The text of the line that says what was found in the file `path`.
fn found_text(
    alloc: Global,
    found: &str,
    word: &[u8],
    label: &[u8],
    path: &str,
) -> Result<String, AllocError> {
    let word = std::str::from_utf8(word).unwrap_or("");
    let label = std::str::from_utf8(label).unwrap_or("");
    format!(in alloc; "found: {found}, for {word}{label}, in the file {path}")
}

/// Looks at the file of this name, and its second file, and reports at once what is wrong with them, as `wrong_text`
/// says it. Nothing is reported of files that cannot be read: whoever opens them then finds that. No file is changed.
pub fn report_side(rt: &HostRuntime, at_once: AtOnce<'_>, word: &[u8], label: &[u8], path: &str) {
    if !at_once.is_on() {
        return;
    }
    let files = UnnotedFiles { rt };
    if let Ok(lines) = lines_of::<FileDisk, UnnotedFiles<'_>>(rt.alloc(), &files, path, false) {
        if let Ok(Some(text)) = wrong_text(rt.alloc(), word, label, path, lines.as_slice()) {
            at_once.say(text.as_str());
        }
    }
}
