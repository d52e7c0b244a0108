//! Why command words are refused.
ghost use Rattle.std.specs.Prelude.{IfSome};
ghost use Rattle.clap.specs.Simple.{subcommand_rows_of};
ghost use Rattle.vtl_words.specs.Orders.{texts_of, order_from, IsNoOrder, AreRefused};

use crate::commands::vtl_command;
use crate::orders::WordsError;
use crate::reading::{order_in, parsed, value_of};
use clap::ArgMatches;
use explanations::Explanation;
use std::alloc::{AllocError, Global};
use vtl_base::limits::MAX_BARCODE;

/// Why command words are refused.
#[derive(Debug, Drop)]
pub enum WordsReason {
    /// The parser refuses the words. This is the parser's text, which names the word that is wrong or missing and has
    /// the usage of the command.
    Parser(String),
    /// This word was given as a barcode, but is not one.
    Barcode(String),
    /// A check was to be of a file and of a configuration.
    TwoFiles,
    /// A check was to be of nothing.
    NoFile,
}

// The parser's text where it refuses these words or answers a request for help; None where it does neither, and where
// memory runs out.
fn parser_text(alloc: Global, words: &[String]) -> Option<String> {
    let command = vtl_command(alloc).ok()?;
    match command.try_get_matches_from(words) {
        Ok(_) => None,
        Err(error) => format!(in alloc; "{error}").ok(),
    }
}

// Words that ask for the help of the command that these words name.
fn help_words(alloc: Global, words: &[String]) -> Result<Vec<String>, AllocError> {
    let mut asking = Vec::new(alloc);
    for word in words.iter().take(2) {
        asking.push(String::from_str(alloc, word.as_str())?)?;
    }
    asking.push(String::from_str(alloc, "--help")?)?;
    Ok(asking)
}

// The first line of a text that begins with `Usage: `; None where there is none.
fn usage_in(text: &str) -> Option<&str> {
    for line in text.split('\n') {
        if line.starts_with("Usage: ") {
            return Some(line);
        }
    }
    None
}

// The usage of the command that these words name, as its help has it. None where the help has none, and where memory
// runs out.
pub(crate) fn usage_of(alloc: Global, words: &[String]) -> Option<String> {
    let asking = help_words(alloc, words).ok()?;
    let help = parser_text(alloc, asking.as_slice())?;
    String::from_str(alloc, usage_in(help.as_str())?).ok()
}

// The parser's text with the usage of the command after its first paragraph.
fn with_usage(alloc: Global, text: &str, words: &[String]) -> Option<String> {
    let usage = usage_of(alloc, words)?;
    let (what, rest) = text.split_once("\n\n")?;
    format!(in alloc; "{what}\n\n{usage}\n\n{rest}").ok()
}

// Why the parser refuses the words, in its own text. Where that has no usage, since an option has no value, the usage
// of the command is added.
fn parser_reason(alloc: Global, words: &[String]) -> Option<WordsReason> {
    let text = parser_text(alloc, words)?;
    if usage_in(text.as_str()).is_some() {
        return Some(WordsReason::Parser(text));
    }
    let whole = with_usage(alloc, text.as_str(), words)?;
    Some(WordsReason::Parser(whole))
}

// The word that is given as a barcode; None where there is none.
fn barcode_word<'a>(matches: &ArgMatches<'a>) -> Option<&'a str> {
    match matches.subcommand() {
        Some(found) => value_of(found.1, "barcode"),
        None => None,
    }
}

// Why a command that the parser accepts is refused. None where memory runs out.
fn refusal_of(alloc: Global, matches: &ArgMatches<'_>) -> Option<WordsReason> {
    let found = matches.subcommand()?;
    if found.0 != "check" {
        let word = String::from_str(alloc, barcode_word(matches)?).ok()?;
        return Some(WordsReason::Barcode(word));
    }
    Some(match value_of(found.1, "file") {
        Some(_) => WordsReason::TwoFiles,
        None => WordsReason::NoFile,
    })
}

// Why words give no order though the parser accepts them; None where they give one, and where memory runs out.
fn form_reason(alloc: Global, matches: &ArgMatches<'_>) -> Option<WordsReason>
    ensures { IfSome result (λ _. IsNoOrder (order_from (subcommand_rows_of matches.now))) }
{
    match order_in(alloc, matches) {
        Err(WordsError::Refused) => refusal_of(alloc, matches),
        _ => None,
    }
}

impl WordsReason {
    /// Returns why these words are refused. None where they are not refused, where they ask for help or for the
    /// version, and where memory runs out. The words are parsed anew.
    pub fn of(alloc: Global, words: &[String]) -> Option<WordsReason>
        ensures { IfSome result (λ _. AreRefused (texts_of words.now)) }
    {
        match parsed(alloc, words) {
            Ok(matches) => form_reason(alloc, &matches),
            Err(error) => match error {
                WordsError::Refused => parser_reason(alloc, words),
                _ => None,
            },
        }
    }

    /// Adds the lines of this reason to `lines`. For `Parser` they are the lines of the parser's text that are not
    /// empty; for the others they say what is refused, what is allowed, and what to do. If memory runs out, only the
    /// first few of these lines, or none, are added.
    pub fn add_to(&self, alloc: Global, lines: &mut Explanation) -> Result<(), AllocError> {
        match self {
            WordsReason::Parser(text) => add_parser(alloc, text.as_str(), lines),
            WordsReason::Barcode(word) => {
                let refused = format!(in alloc; "refused: the barcode {word}")?;
                lines.add(alloc, refused.as_str())?;
                let allowed = format!(in alloc;
                    "allowed: 1 to {MAX_BARCODE} characters, A to Z and 0 to 9"
                )?;
                lines.add(alloc, allowed.as_str())?;
                lines.add(alloc, "to do: take a barcode of the configuration")
            }
            WordsReason::TwoFiles => add_check(
                alloc,
                "refused: FILE together with --config",
                lines,
            ),
            WordsReason::NoFile => add_check(alloc, "refused: check without a file", lines),
        }
    }
}

// Adds the lines of a check that is not of one thing.
fn add_check(alloc: Global, refused: &str, lines: &mut Explanation) -> Result<(), AllocError> {
    lines.add(alloc, refused)?;
    lines.add(alloc, "allowed: one of FILE and --config FILE")?;
    lines.add(
        alloc,
        "to do: name a file, or the configuration of which all is to be checked",
    )
}

// Adds the lines of the parser's text that are not empty.
fn add_parser(alloc: Global, text: &str, lines: &mut Explanation) -> Result<(), AllocError> {
    for line in text.split('\n') {
        match line.strip_prefix("error: ") {
            Some(what) => {
                let refused = format!(in alloc; "refused: {what}")?;
                lines.add(alloc, refused.as_str())?;
            }
            None if line.is_empty() => {}
            None => lines.add(alloc, line)?,
        }
    }
    Ok(())
}
