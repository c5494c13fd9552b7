//! The command line as clap is given it.
ghost use Rattle.std.specs.Prelude.{◌≡◌, false, IfOk, fold, map};
ghost use Rattle.clap.specs.Words.{App, app_of, rule_of, with_subcommand};
ghost use Rattle.clap.specs.declared.builder.Command.TheViews.{out-Command as fields_of};
ghost use Rattle.cx_words.specs.CommandLine as line;

use clap::{Arg, ArgAction, Command};
use std::alloc::{AllocError, Global};

/// A word with a fixed place.
fn needed<'a>(alloc: Global, id: &'a str) -> Arg<'a>
    ensures rule { rule_of result ≡ line.needed id.entry.now }
    ensures local { result.global ≡ false }
{
    Arg::new(alloc, id).required(true).action(ArgAction::Set)
}

/// An option, with the value that follows it.
fn optional<'a>(alloc: Global, id: &'a str) -> Arg<'a>
    ensures rule { rule_of result ≡ line.optional id.entry.now }
    ensures local { result.global ≡ false }
{
    Arg::new(alloc, id).long(id).action(ArgAction::Set)
}

/// An option without a value.
fn flag<'a>(alloc: Global, id: &'a str) -> Arg<'a>
    ensures rule { rule_of result ≡ line.flag id.entry.now }
    ensures local { result.global ≡ false }
{
    Arg::new(alloc, id).long(id).action(ArgAction::SetTrue)
}

/// A command with words that have fixed places.
fn taking<'a>(alloc: Global, name: &'a str, ids: &[&'a str]) -> Result<Command<'a>, AllocError>
    ensures { IfOk result (λ c. (app_of c ≡ line.command name.entry.now (map (λ id. line.needed id.now) ids.entry.now)) × ((fields_of c).has_globals ≡ false)) }
{
    let mut command = Command::new(alloc, name);
    for id in ids {
        command = command.arg(needed(alloc, *id))?;
    }
    Ok(command)
}

fn solve<'a>(alloc: Global) -> Result<Command<'a>, AllocError>
    ensures { IfOk result (λ c. (app_of c ≡ line.solve) × ((fields_of c).has_globals ≡ false)) }
{
    taking(alloc, "solve", &["formula"])?
        .arg(optional(alloc, "proof"))?
        .arg(optional(alloc, "conflicts"))?
        .arg(flag(alloc, "inprocess"))
}

/// The command with one more command below it, where there was memory to make that one.
fn with<'a>(
    command: Command<'a>,
    sub: Result<Command<'a>, AllocError>,
) -> Result<Command<'a>, AllocError>
    ensures { (a s : App) → app_of command.entry ≡ a → IfOk sub.entry (λ c. (app_of c ≡ s) × ((fields_of c).has_globals ≡ false)) → IfOk result (λ c. app_of c ≡ with_subcommand a s.top) }
{
    match sub {
        Ok(sub) => command.subcommand(sub),
        Err(err) => Err(err),
    }
}

/// The commands whose words all have fixed places, and those words.
const PLAIN: [(&str, &[&str]); 7] = [
    ("check", &["formula", "proof"]),
    ("elab", &["formula", "log", "proof"]),
    ("model", &["formula", "answer"]),
    ("demo", &["kind", "size", "seed"]),
    ("trim", &["formula", "proof", "out"]),
    ("blast", &["formula", "out"]),
    ("affine", &["formula"]),
];

/// The command with these commands below it.
fn with_plain<'a>(
    alloc: Global,
    command: Command<'a>,
    plain: &[(&'a str, &[&'a str])],
) -> Result<Command<'a>, AllocError>
    ensures { (a : App) → app_of command.entry ≡ a → IfOk result (λ c. app_of c ≡ fold (λ (b : App) p. with_subcommand b (line.command p.0.now (map (λ id. line.needed id.now) p.1.now)).top) a plain.entry.now) }
{
    let mut command = command;
    for (name, ids) in plain {
        command = with(command, taking(alloc, *name, *ids))?;
    }
    Ok(command)
}

/// The whole command line. It has to name a command.
pub(crate) fn cxsat<'a>(alloc: Global) -> Result<Command<'a>, AllocError>
    ensures { IfOk result (λ c. app_of c ≡ line.cxsat) }
{
    let command = Command::new(alloc, "cxsat").subcommand_required(true);
    let command = with(command, solve(alloc))?;
    with_plain(alloc, command, &PLAIN)
}
