//! What is wrong with the words of a command line, and where the right words are explained.

ghost use Rattle.std.specs.Prelude.{◌≡◌, map, option_map, IfOk};
ghost use Rattle.tpmsim_arguments.specs.Usage.{command_in, command_named, is_command};

use crate::command_line::command;
use crate::slip::slip_of;
use clap::ArgMatches;
use std::alloc::{AllocError, Global};
use std::convert::AsStr;
use std::fmt;

/// What is wrong with the words of a command line. `Display` also writes where the right words are
/// explained.
#[derive(Drop)]
pub struct Usage<'a> {
    reason: String,
    /// The command whose help explains the words, if the second word names one.
    command: Option<&'a str>,
}

impl<'a> Usage<'a> {
    ghost use Rattle.tpmsim_arguments.specs.Usage.{named_in};

    /// What is wrong with the words of a command line that [`crate::Arguments::parse`] refuses. The
    /// contract says which help explains them.
    pub fn new<S: AsStr>(alloc: Global, words: &'a [S]) -> Result<Usage<'a>, AllocError>
        ensures { IfOk result (λ usage. named_in usage ≡ command_in (map S.text words.entry.now)) }
    {
        let reason = reason_of(alloc, words)?;
        let command = command_in(words);
        Ok(Usage { reason, command })
    }
}

impl fmt::Display for Usage<'_> {
    ghost use Rattle.std.specs.Prelude.{Some};
    ghost use Rattle.tpmsim_arguments.specs.Usage.{usage_text};

    ghost output = { λ usage. Some (usage_text usage) };

    fn fmt<W: fmt::Write>(&self, f: &mut fmt::Formatter<W>) -> fmt::Result {
        let reason = self.reason.as_str();
        match self.command {
            Some(command) => write!(f, "{reason}; see tpmsim help {command}"),
            None => write!(f, "{reason}; see tpmsim help"),
        }
    }
}

/// Returns the second word of a command line, if it names a command.
fn command_in<'a, S: AsStr>(words: &'a [S]) -> Option<&'a str>
    ensures { option_map (λ name. name.now) result ≡ command_in (map S.text words.entry.now) }
{
    match words {
        [_, word, ..] => named(word.as_str()),
        _ => None,
    }
}

/// Returns this word, if it names a command.
fn named<'a>(word: &'a str) -> Option<&'a str>
    ensures { option_map (λ name. name.now) result ≡ command_named word.entry.now }
{
    if is_command(word) { Some(word) } else { None }
}

/// Whether a command has this name.
fn is_command(name: &str) -> bool
    ensures { result ≡ is_command name.now }
{
    match name {
        "run"
        | "check"
        | "asm"
        | "line"
        | "lines"
        | "code"
        | "serve"
        | "power"
        | "snapshot"
        | "restore"
        | "script"
        | "replay" => true,
        _ => false,
    }
}

/// What is wrong with the words of a command line.
fn reason_of<'a, S: AsStr>(alloc: Global, words: &'a [S]) -> Result<String, AllocError> {
    match command(alloc)?.try_get_matches_from(words) {
        Ok(matches) => slip_in(alloc, &matches),
        Err(error) => {
            let text = format!(in alloc; "{error}")?;
            first_paragraph(alloc, text.as_str())
        }
    }
}

/// Why options that clap accepts are refused.
fn slip_in(alloc: Global, matches: &ArgMatches<'_>) -> Result<String, AllocError> {
    let Some((name, options)) = matches.subcommand() else {
        return String::from_str(alloc, "missing command");
    };
    match slip_of(name, options) {
        Some(slip) => format!(in alloc; "{slip}"),
        None => String::from_str(alloc, "wrong words"),
    }
}

/// The first paragraph of clap's text about a mistake, as one line, without `error: `.
fn first_paragraph(alloc: Global, text: &str) -> Result<String, AllocError> {
    let mut paragraph = String::new(alloc);
    let mut is_over = false;
    for line in text.split('\n') {
        is_over = is_over || line.is_empty();
        if !is_over {
            put_line(&mut paragraph, line)?;
        }
    }
    Ok(paragraph)
}

/// Adds a line of clap's text, after a space unless it is the first.
fn put_line(paragraph: &mut String, line: &str) -> Result<(), AllocError> {
    match line.strip_prefix("error: ") {
        Some(first) => paragraph.push_str(first),
        None => {
            paragraph.push_str(" ")?;
            paragraph.push_str(line.strip_prefix("  ").unwrap_or(line))
        }
    }
}
