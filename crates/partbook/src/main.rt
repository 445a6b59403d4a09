//! The program `partbook`: inspects the book of a choir before it is set.
#![tactic(auto)]

mod catalogues;
mod command;
mod inspect;
mod load;
mod options;
mod report;
mod score;
mod shown;
mod trouble;
mod unfold;

use catalogues::shelf_of;
use command::{Command, USAGE, UnfoldCall, command_of};
use load::load;
use options::limits_of;
use report::write_report;
use std::env;
use std::io::Write;
use std::process::ExitCode;
use tags::answers::IncludeSpec;
use trouble::Trouble;
use unfold::unfold;

// The words of the call behind the program's name.
fn call_words(rt: &HostRuntime) -> Result<Vec<String>, Trouble> {
    let mut words = Vec::new(rt.alloc());
    for word in env::args(rt)?.skip(1) {
        words.push(word)?;
    }
    Ok(words)
}

fn inspect_book(rt: &HostRuntime, folder: &str) -> Result<(), Trouble> {
    let loaded = load(rt, folder)?;
    let mut out = String::new(rt.alloc());
    write_report(&mut out, &loaded)?;
    print!(rt; "{out}")?;
    Ok(())
}

fn unfold_call(rt: &HostRuntime, call: UnfoldCall<'_>) -> Result<(), Trouble> {
    let loaded = load(rt, call.book)?;
    let shelf = shelf_of(&loaded)?;
    let limits = limits_of(rt, call.options)?;
    let insert = IncludeSpec {
        path: call.path.as_bytes(),
        anchor: call.anchor.as_bytes(),
    };
    let printed = unfold(rt.alloc(), &shelf, &loaded, limits, insert)?;
    rt.stdout().write_all(printed.text.as_slice())?;
    let events = printed.passage.events;
    let aliases = printed.passage.aliases;
    let replayed = printed.passage.replayed;
    eprintln!(rt; "{events} events, {aliases} aliases replaced, {replayed} events replayed")?;
    Ok(())
}

fn run(rt: &HostRuntime) -> Result<(), Trouble> {
    let words = call_words(rt)?;
    match command_of(words.as_slice()).ok_or(Trouble::Usage)? {
        Command::Help => {
            print!(rt; "{USAGE}")?;
            Ok(())
        }
        Command::Inspect(folder) => inspect_book(rt, folder),
        Command::Unfold(call) => unfold_call(rt, call),
    }
}

fn main(rt: HostRuntime) -> ExitCode {
    match run(&rt) {
        Ok(()) => ExitCode::SUCCESS,
        Err(trouble) => {
            let _ = eprint!(rt; "{trouble}");
            ExitCode::FAILURE
        }
    }
}
