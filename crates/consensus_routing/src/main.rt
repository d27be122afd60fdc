//! Replays schedules of a network whose routers agree on stable tables, makes loads of them, and runs one
//! router over a link.
#![tactic(auto)]

mod exit;
mod standard_files;

use acceptor_journal::FileDisk;
use exit::exit_of;
use route_io::{StdSink, StdSource, TcpLink};
use routing_commands::notes::tell;
use routing_commands::run::run;
use standard_files::keep_standard_files;
use std::process::ExitCode;
use std::{env, io};
use topology::Status;

// The words after the program's name. Words that are no text are those of no form.
fn words_of(rt: &HostRuntime) -> Result<Vec<String>, Status> {
    let arguments = match env::args(rt) {
        Ok(arguments) => arguments,
        Err(error) if error.kind() == io::ErrorKind::OutOfMemory => return Err(Status::NoMemory),
        Err(_) => return Err(Status::Usage),
    };
    let mut words = Vec::new(rt.alloc());
    for word in arguments.skip(1) {
        if words.push(word).is_err() {
            return Err(Status::NoMemory);
        }
    }
    Ok(words)
}

fn main(rt: HostRuntime) -> ExitCode {
    let _standard_files = keep_standard_files(&rt);
    let mut notes = StdSink::new(rt.stderr());
    let status = match words_of(&rt) {
        Err(status) => {
            tell(&mut notes, &status);
            status
        }
        Ok(words) => {
            let mut source = StdSource::new(rt.stdin());
            let mut sink = StdSink::new(rt.stdout());
            let mut link = TcpLink::new(&rt);
            let mut disk = FileDisk::new(&rt);
            let status = run(
                rt.alloc(),
                &words,
                &mut source,
                &mut sink,
                &mut notes,
                &mut link,
                &mut disk,
            );
            link.close();
            status
        }
    };
    exit_of(&status)
}
