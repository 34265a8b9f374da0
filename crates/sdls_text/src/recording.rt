//! The files of a recording.

use record_io::ANSWER_HEADER;
use record_io::code::END;
use record_io::status::{DONE, NO_MEMORY, REFUSED, SITE_FAULT, SOURCE_FAULT};
use sdls_outside::{FileSite, Site, SureSource};
use std::fs;
use std::io::ErrorKind;
use text_streams::{RunFault, begin_recording, put_run};

/// The octets that a recorded input begins with.
const INPUT_BEGINNING: &[u8] = b"SDLSREC1";

/// The status of a run that was not written.
fn status_of(fault: RunFault) -> u8 {
    match fault {
        RunFault::TooLong | RunFault::Changed => REFUSED,
        RunFault::SourceFault => SOURCE_FAULT,
        RunFault::OutputFault => SITE_FAULT,
    }
}

/// The octets of a file; or the status, if it cannot be read, which is said on standard error.
fn read_file(rt: &HostRuntime, name: &str) -> Result<Vec<u8>, u8> {
    match fs::read(rt, name) {
        Ok(octets) => Ok(octets),
        Err(error) if error.kind() == ErrorKind::OutOfMemory => {
            let _ = eprintln!(rt; "sdls_text: out of memory");
            Err(NO_MEMORY)
        }
        Err(_) => {
            let _ = eprintln!(rt; "sdls_text: {name} could not be read");
            Err(SOURCE_FAULT)
        }
    }
}

/// Whether the last octets can be an End answer, which has no body.
fn ends_with_end(octets: &[u8]) -> bool {
    let last = octets.len().saturating_sub(ANSWER_HEADER);
    match octets.get(last..) {
        Some([END, _, 0, 0, 0, 0, 0, 0, ..]) => octets.len() >= ANSWER_HEADER,
        _ => false,
    }
}

/// What is odd about the octets of a file, which are written all the same.
fn oddity_of(octets: &[u8]) -> Option<&'static str> {
    if octets.starts_with(INPUT_BEGINNING) {
        return Some("is a recorded input, and not what a run wrote");
    }
    if !ends_with_end(octets) {
        return Some("does not end with End: the run was cut off, or its output failed");
    }
    None
}

/// Looks at a file before anything is written: whether it can be read and is short enough. Says on standard error what
/// is wrong or odd, and returns the status.
fn judge_file(rt: &HostRuntime, name: &str) -> u8 {
    let octets = match read_file(rt, name) {
        Ok(octets) => octets,
        Err(status) => return status,
    };
    if u32::try_from(octets.len()).is_err() {
        let _ = eprintln!(rt; "sdls_text: {name}: 4 gibibytes or more");
        return REFUSED;
    }
    if let Some(oddity) = oddity_of(&octets) {
        let _ = eprintln!(rt; "sdls_text: note: {name} {oddity}");
    }
    DONE
}

/// Whether a name stands among these.
fn is_among(name: &str, names: &[String]) -> bool {
    names.iter().any(|other| other.as_str() == name)
}

/// Looks at all files, and says which is named twice. It returns the status of the first one that cannot be written.
fn judge_files(rt: &HostRuntime, names: &[String]) -> u8 {
    for (place, name) in names.iter().enumerate() {
        let name = name.as_str();
        if is_among(name, names.get(..place).unwrap_or(&[])) {
            let _ = eprintln!(rt; "sdls_text: note: {name} is named twice");
            continue;
        }
        let status = judge_file(rt, name);
        if status != DONE {
            return status;
        }
    }
    DONE
}

/// Writes a file as a run, or says on standard error why not. It returns the status. If the file can no longer be read,
/// one octet is written, so that the recording is malformed, and no audit passes it.
fn put_file(rt: &HostRuntime, sink: &mut FileSite, name: &str) -> u8 {
    let octets = match read_file(rt, name) {
        Ok(octets) => octets,
        Err(status) => {
            let _ = sink.put(&[0]);
            return status;
        }
    };
    let len = octets.len() as u64;
    match put_run(&mut SureSource::new(octets), len, sink) {
        Ok(()) => DONE,
        Err(fault) => {
            let _ = eprintln!(rt; "sdls_text: {name}: {fault}");
            status_of(fault)
        }
    }
}

/// Writes the recording of these files.
fn put_files(rt: &HostRuntime, sink: &mut FileSite, names: &[String]) -> u8 {
    if begin_recording(sink).is_err() {
        let _ = eprintln!(rt; "sdls_text: standard output could not be written");
        return SITE_FAULT;
    }
    for name in names {
        let status = put_file(rt, sink, name.as_str());
        if status != DONE {
            return status;
        }
    }
    DONE
}

/// Writes the recording of the runs whose outputs the files have, in this order, and returns the status. Nothing is
/// written before each of them was read. A file is held whole while it is written.
pub fn put_recording(rt: HostRuntime, sink: &mut FileSite, names: &[String]) -> u8 {
    let status = judge_files(&rt, names);
    if status != DONE {
        return status;
    }
    put_files(&rt, sink, names)
}
