// Runs the command of the words over standard input, standard output and the files of the current folder, and tells on
// standard error why it ended if not well; on a terminal also what helps a person.
#![tactic(auto)]

use card_emul::model_of;
use pcm_base::Model;
use pcm_help::{
    Answered, Command, Recent, RememberingShelf, RememberingSink, RememberingSource, Seen,
    help_text,
};
use pcm_io::{FolderShelf, StdSink, StdSource};
use pcm_text::{Status, fault_text};
use pcm_top::pcm_main;
use play_record::Deck;
use std::alloc::Global;
use std::fs::Files;
use std::io::{ErrorKind, IsTerminal, Write};
use std::process::ExitCode;
use std::rt::Env;
use std::{env, io};

// How a run ended, and what is told of it on a terminal.
#[derive(Drop)]
struct Ended {
    status: Status,
    help: Option<Vec<u8>>,
}

// The end of a run, with what is told of it on a terminal.
fn end(alloc: Global, status: Status, seen: &Seen, wanted: bool) -> Ended {
    let help = if wanted {
        help_text(alloc, &status, seen).ok()
    } else {
        None
    };
    Ended { status, help }
}

// The end of a run that did not begin.
fn unbegun(alloc: Global, status: Status, wanted: bool) -> Ended {
    let model = model_of(Model::Duplex);
    let seen = Seen {
        command: None,
        recent: None,
        answered: 0,
        asked: None,
        model: &model,
    };
    end(alloc, status, &seen, wanted)
}

// Puts the words behind the program's name into the list.
fn take_words(rt: &(impl Env + AllocGlobal), words: &mut Vec<String>) -> Result<(), Status> {
    let all = match env::args(rt) {
        Ok(all) => all,
        Err(e) if e.kind() == ErrorKind::OutOfMemory => return Err(Status::Memory),
        Err(_) => return Err(Status::Usage),
    };
    for word in all.skip(1) {
        if words.push(word).is_err() {
            return Err(Status::Memory);
        }
    }
    Ok(())
}

// Runs the command of the words. What goes by is remembered, for the help, where that is wanted.
fn run(rt: &(impl Env + Input + Print + Files + AllocGlobal), wanted: bool) -> Ended {
    let alloc = rt.alloc();
    let mut words = Vec::new(alloc);
    if let Err(status) = take_words(rt, &mut words) {
        return unbegun(alloc, status, wanted);
    }
    let Ok(mut deck) = Deck::new(alloc) else {
        return unbegun(alloc, Status::Memory, wanted);
    };
    let mut source = RememberingSource {
        source: StdSource::new(rt.reader()),
        recent: if wanted {
            Recent::new(alloc).ok()
        } else {
            None
        },
    };
    let mut out = RememberingSink {
        sink: StdSink::new(io::writer(rt)),
        wanted,
        answered: Answered::NONE,
    };
    let mut shelf = RememberingShelf {
        shelf: FolderShelf::new(rt, alloc, "."),
        wanted,
        asked: None,
    };
    let status = pcm_main(alloc, &words, &mut source, &mut out, &mut shelf, &mut deck);
    let model = model_of(Model::Duplex);
    let seen = Seen {
        command: match words.first() {
            Some(word) => Command::of(word),
            None => None,
        },
        recent: source.recent.as_ref(),
        answered: out.answered.last,
        asked: shelf.asked.as_ref(),
        model: &model,
    };
    end(alloc, status, &seen, wanted)
}

fn main(rt: HostRuntime) -> ExitCode {
    let wanted = rt.stderr().is_terminal();
    let ended = run(&rt, wanted);
    let number = ended.status.number();
    if number != 0 {
        if let Ok(text) = fault_text(rt.alloc(), &ended.status) {
            let _ = eprintln!(rt; "pcm: {text}");
        }
        if let Some(help) = &ended.help {
            let _ = rt.stderr().write_all(help);
        }
    }
    ExitCode::from(number)
}
