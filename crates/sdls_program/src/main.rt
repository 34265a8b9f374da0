//! The program `sdls`: the words after its name, standard input and standard output, and the file
//! `unit.img` in the folder that it runs in. What it does is the top call's matter (`sdls_run`).
#![tactic(auto)]

use sdls_outside::{FileSite, StdSource};
use sdls_run::{OpenGate, Outcome, run, status};
use std::alloc::AllocError;
use std::process::ExitCode;
use std::rt::Env;
use std::{env, io};

/// The words after the program's name. Words that are not text are no command, so they are read as
/// no words.
fn words<R: Env + AllocGlobal>(rt: &R) -> Result<Vec<String>, AllocError> {
    match env::args(rt) {
        Ok(args) => args.skip(1).collect(rt.alloc()),
        Err(error) if error.kind() == io::ErrorKind::InvalidData => Ok(Vec::new(rt.alloc())),
        Err(_) => Err(AllocError),
    }
}

/// The octets of a room that is taken and given back before anything else.
const WARMING: usize = 16_777_216;

/// Takes a large room, and gives it back untouched. The C library then keeps up to twice as much of what is given back,
/// and what is taken next is found there. Else each segment's pages would go back to the system, and come anew.
fn warm_up<R: AllocGlobal>(rt: &R) {
    let _room: Result<Vec<u8>, AllocError> = Vec::with_capacity(rt.alloc(), WARMING);
}

fn main(rt: HostRuntime) -> ExitCode {
    warm_up(&rt);
    let Ok(words) = words(&rt) else {
        return ExitCode::from(status::NO_MEMORY);
    };
    let mut source = StdSource::new(rt.stdin());
    let site = FileSite::new(rt);
    let Outcome {
        status,
        site: _,
        entries: _,
    } = run(
        &rt,
        rt.alloc(),
        words.as_slice(),
        &mut source,
        site,
        &OpenGate,
    );
    ExitCode::from(status)
}
