// Runs the live plan on standard input, writes its logs to standard output, with the files of the current folder, and tells on
// standard error why it ended if not well.
#![tactic(auto)]

use live_top::live_main;
use live_work::FreeGate;
use pcm_io::{FolderShelf, StdSink, StdSource};
use pcm_text::{Status, fault_text};
use std::fs::Files;
use std::io::ErrorKind;
use std::process::ExitCode;
use std::rt::Env;
use std::sync::Wait;
use std::thread::Threads;
use std::{env, io};

// Puts the words behind the program's name into the list.
fn take_words(rt: &(impl Env + AllocGlobal), words: &mut Vec<String>) -> Result<(), Status> {
    let all = match env::args(rt) {
        Ok(all) => all,
        Err(e) if e.kind() == ErrorKind::OutOfMemory => return Err(Status::Memory),
        Err(_) => return Err(Status::Usage),
    };
    for word in all.skip(1) {
        if words.push(word).is_err() {
            return Err(Status::Memory);
        }
    }
    Ok(())
}

fn run(rt: &(impl Env + Input + Print + Files + AllocGlobal + Threads + Wait + Sync)) -> Status {
    let alloc = rt.alloc();
    let mut words = Vec::new(alloc);
    if let Err(status) = take_words(rt, &mut words) {
        return status;
    }
    let mut plan = StdSource::new(rt.reader());
    let mut out = StdSink::new(io::writer(rt));
    let mut shelf = FolderShelf::new(rt, alloc, ".");
    live_main(
        rt, alloc, &words, &mut plan, &mut out, &mut shelf, &FreeGate,
    )
}

fn main(rt: HostRuntime) -> ExitCode {
    let status = run(&rt);
    let number = status.number();
    if number != 0 {
        if let Ok(text) = fault_text(rt.alloc(), &status) {
            let _ = eprintln!(rt; "pcmlive: {text}");
        }
    }
    ExitCode::from(number)
}
