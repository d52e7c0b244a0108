//! Lines, and what becomes of texts that do not fit one.
use explanations::Explanation;
use std::alloc::{AllocError, Global};
use std::test::Fail;
use test_assertions::assert_equal;

// Texts and how often each stands in its line, and the line with how many of them are left.
static LINES: &'static [(&'static str, usize, &'static str, usize)] = &[
    ("drive 7 ~ {}", 1, "drive 7 ~ {}", 1),
    ("a\tb\u{1b}[2Jc\u{7f}", 1, "a?b?[2Jc?", 1),
    ("two\nlines", 1, "two?lines", 1),
    ("\u{e9}", 1, "??", 1),
    ("x", 0, "x", 0),
    ("x", 119, "x", 119),
    ("x", 120, "x", 120),
    ("x", 121, "x", 120),
    ("x", 5_000, "x", 120),
];

// This text so often.
fn times(alloc: Global, text: &str, count: usize) -> Result<String, AllocError> {
    let mut all = String::new(alloc);
    for _ in 0..count {
        all.push_str(text)?;
    }
    Ok(all)
}

// Printable ASCII characters, 120 of them at most, and all others are question marks. Each line is behind the first.
#[test]
fn a_line_has_120_columns_at_most(rt: HostRuntime) -> Result<(), Fail> {
    for &(text, count, shown, left) in LINES {
        let mut lines = Explanation::new(rt.alloc());
        lines.add(rt.alloc(), "one")?;
        lines.add(rt.alloc(), times(rt.alloc(), text, count)?.as_str())?;
        let line = times(rt.alloc(), shown, left)?;
        let wanted = format!(in rt.alloc(); "one\n{line}\n")?;
        assert_equal!(rt; lines.as_str(), wanted.as_str(); (text, count));
    }
    Ok(())
}
