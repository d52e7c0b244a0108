//! Logical objects.
ghost use Rattle.std.specs.Prelude.{◌≡◌};
ghost use Rattle.volume_core.specs.Volume.{cost_of, kind_of};

use vtl_base::Bytes;
use vtl_base::limits::OBJECT_COST;

/// A logical object (SSC-4): a block of 1 to 1,048,576 bytes, or a filemark.
#[derive(Drop)]
pub enum Object {
    Block(Bytes),
    Mark,
}

/// The kind of an object: a block or a filemark.
#[derive(Clone, Copy, PartialEq, Eq, Debug)]
pub enum Kind {
    Block,
    Mark,
}

impl Object {
    /// How many bytes of its partition's capacity the object takes (own).
    pub fn cost(&self) -> u64
        ensures { result ≡ cost_of self.now }
    {
        match self {
            Object::Block(block) => block.len() as u64 + OBJECT_COST,
            Object::Mark => OBJECT_COST,
        }
    }

    /// Whether the object is a block or a filemark.
    pub fn kind(&self) -> Kind
        ensures { result ≡ kind_of self.now }
    {
        match self {
            Object::Block(_) => Kind::Block,
            Object::Mark => Kind::Mark,
        }
    }
}
