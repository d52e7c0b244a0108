//! Fuses, which choose the call of a device that fails.
ghost use Rattle.std.specs.Prelude.{◌≡◌, ◌+◌, if◌then◌else◌};
ghost use Rattle.test_media.specs.Inner.Fuses.{Burns, fuse_of, times_blown};

// A fuse lets some calls pass, and blows in the next; a blown one lets all pass.
#[derive(Clone, Copy)]
pub(crate) enum Fuse {
    Never,
    After(u32),
    Blown,
}

impl Fuse {
    pub(crate) fn new(calls: Option<u32>) -> Self
        ensures { result ≡ fuse_of calls }
    {
        match calls {
            Some(calls) => Fuse::After(calls),
            None => Fuse::Never,
        }
    }

    // Whether it blows in this call.
    pub(crate) fn blows(&mut self) -> bool
        ensures burns { Burns self.old result self.new }
        ensures times { times_blown self.new ≡ times_blown self.old + (if result then 1 else 0) }
    {
        match *self {
            Fuse::After(0) => {
                *self = Fuse::Blown;
                true
            }
            Fuse::After(calls) => {
                *self = Fuse::After(calls - 1);
                false
            }
            Fuse::Never | Fuse::Blown => false,
        }
    }
}
