//! Which bytes of a file were written since its last good sync.
ghost use Rattle.std.specs.Prelude.{◌≡◌, ◌⊎◌, ◌<◌, ◌≤◌, ℕ, false, IfSome};
ghost use Rattle.file_disk.specs.Inner.Doubts.{Covers, InSpan};

/// The bytes of a file from place `from` up to place `end`, which is not included. There are none where `end` is not
/// greater than `from`.
#[derive(Clone, Copy)]
pub(crate) struct Span {
    pub from: u64,
    pub end: u64,
}

const NO_BYTES: Span = Span { from: 0, end: 0 };

impl Span {
    // Joins this range with the bytes from `at` up to `end`, if they touch or overlap, or if this range is empty; else
    // returns None.
    fn joined(self, at: u64, end: u64) -> Option<Span>
        ensures covers { IfSome result (λ span. (place : ℕ) →
            InSpan self place ⊎ ((at ≤ place) × (place < end)) → InSpan span place) }
        ensures no_more { at ≤ end → IfSome result (λ span. (place : ℕ) →
            InSpan span place → InSpan self place ⊎ ((at ≤ place) × (place < end))) }
    {
        if self.from >= self.end {
            return Some(Span { from: at, end });
        }
        if end < self.from || self.end < at {
            return None;
        }
        Some(Span {
            from: self.from.min(at),
            end: self.end.max(end),
        })
    }
}

/// Which bytes of a file were written since its last good sync, as two ranges at most. Where they were more, none is
/// recorded, and `is_apart` is true. An opening may find a third range, `start`.
#[derive(Clone, Copy)]
pub(crate) struct Written {
    pub one: Span,
    pub other: Span,
    /// What an opening found at the start of the file: the first ten bytes of a cartridge's side, or all bytes of an
    /// unfinished one.
    pub start: Span,
    pub is_apart: bool,
}

impl Written {
    /// No bytes.
    pub fn none() -> Written
        ensures apart { result.is_apart ≡ false }
        ensures none { (place : ℕ) → Covers result place → ⊥ }
    {
        Written {
            one: NO_BYTES,
            other: NO_BYTES,
            start: NO_BYTES,
            is_apart: false,
        }
    }

    /// The first `bytes` bytes of a file.
    pub fn first(bytes: u64) -> Written
        ensures { (place : ℕ) → place < bytes → InSpan result.start place }
    {
        Written {
            start: Span {
                from: 0,
                end: bytes,
            },
            ..Written::none()
        }
    }

    /// More ranges than are recorded, or unknown ones: each byte may have been written.
    pub fn apart() -> Written
        ensures { (place : ℕ) → Covers result place }
    {
        Written {
            one: NO_BYTES,
            other: NO_BYTES,
            start: NO_BYTES,
            is_apart: true,
        }
    }

    /// These ranges together with the bytes from `at` up to `end`, which is not included.
    pub fn noted(self, at: u64, end: u64) -> Written
        ensures covers { (place : ℕ) →
            Covers self place ⊎ ((at ≤ place) × (place < end)) → Covers result place }
    {
        match self.one.joined(at, end) {
            Some(one) => Written { one, ..self },
            None => self.noted_beside(at, end),
        }
    }

    fn noted_beside(self, at: u64, end: u64) -> Written
        ensures covers { (place : ℕ) →
            Covers self place ⊎ ((at ≤ place) × (place < end)) → Covers result place }
    {
        match self.other.joined(at, end) {
            Some(other) => Written { other, ..self },
            None => Written::apart(),
        }
    }
}
