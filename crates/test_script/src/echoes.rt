//! A runner with drive 1, which answers each command and each move with its own fields.
use scsi_sense::{Reply, Status};
use std::alloc::{AllocError, Global};
use vtl_base::{Bytes, DriveNo, NoMemory};
use vtl_script::{Item, Line, Runner};

/// It counts the items that it ran, and `answers` holds for every item.
#[derive(Drop)]
pub struct Echo {
    items: u32,
}

impl Echo {
    pub fn new() -> Self {
        Echo { items: 0 }
    }

    pub fn items(&self) -> u32 {
        self.items
    }
}

// GOOD, with the numbers of host and drive, the command block and the bytes that were sent, which are taken.
fn answer_of(alloc: Global, line: &mut Line) -> Result<Reply, AllocError> {
    let sent = line.sent.take();
    let mut bytes = Vec::new(alloc);
    bytes.push(line.host.number())?;
    bytes.push(line.drive.number())?;
    bytes.extend_from_slice(line.cdb.as_slice())?;
    bytes.extend_from_slice(sent.as_slice())?;
    Ok(Reply::good(Bytes::from_vec(bytes)))
}

// CONFLICT, with both element addresses.
fn answers_of_move(alloc: Global, from: u32, to: u32) -> Result<Vec<Reply>, AllocError> {
    let mut bytes = Vec::new(alloc);
    bytes.extend_from_slice(&from.to_be_bytes())?;
    bytes.extend_from_slice(&to.to_be_bytes())?;
    let mut replies = Vec::new(alloc);
    replies.push(Reply {
        status: Status::Conflict,
        sense: None,
        bytes: Bytes::from_vec(bytes),
    })?;
    Ok(replies)
}

fn answers_of(alloc: Global, lines: &mut [Line]) -> Result<Vec<Reply>, AllocError> {
    let mut replies = Vec::new(alloc);
    for line in lines {
        replies.push(answer_of(alloc, line)?)?;
    }
    Ok(replies)
}

impl Runner for Echo {
    ghost use Rattle.std.specs.Prelude.{◌==◌};

    ghost is_configured = { λ _ number. number == 1 };

    ghost answers = { λ _ _ _ _. Unit {0} };

    ghost is_ready = { λ _. Unit {0} };

    fn configured(&self, drive: DriveNo) -> bool {
        drive.number() == 1
    }

    fn run(&mut self, alloc: Global, item: &mut Item) -> Result<Vec<Reply>, NoMemory> {
        self.items = self.items.saturating_add(1);
        match item {
            Item::Phase(commands) => Ok(answers_of(alloc, commands.as_mut_slice())?),
            Item::Move { from, to } => Ok(answers_of_move(alloc, *from, *to)?),
        }
    }

    ghost answers_none = { λ _. tt };

    ghost answers_empty = { λ _. tt };

    ghost answers_on = { λ _ _ _ _ _ _ _ _ _. tt };
}
