//! What command blocks are decoded to.
mod blocks;
mod fields;

use scsi_opcodes::{Cdb, Command};
use scsi_sense::Sense;
use std::process::Abort;
use test_assertions::assert_equal;

// How many bytes a host sends with a command.
fn sent_with(command: Option<Command>) -> u32 {
    match command {
        Some(command) => command.sent_length(),
        None => 0,
    }
}

// The block is this command, with which a host sends this many bytes; a block without a command has an
// invalid field.
fn is_decoded(rt: &impl Abort, block: &[u8], command: Option<Command>, sent: u32) {
    let expected = command.ok_or(Sense::invalid_field());
    assert_equal!(rt; Cdb::decode(block), expected; block);
    assert_equal!(rt; sent_with(command), sent; block);
}
