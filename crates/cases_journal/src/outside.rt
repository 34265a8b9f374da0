// Cases of the disk, the sink and the input: what a crash leaves of writes and syncs, five calls of which
// some fail, octets taken from a source, and a site on a file.
use crate::images::{crash_of, site_of};
use case_lines::{Page, Words, number};
use sdls_outside::{Crash, Failed, FileSite, MemSite, MemSource, Site, Source, SureSource};
use std::fs::Permissions;
use std::os::unix::fs::PermissionsExt;
use std::{fs, str};

/// The octets of a word, none of `-`.
fn octets(word: Option<&str>) -> &[u8] {
    match word {
        Some("-") | None => &[],
        Some(word) => word.as_bytes(),
    }
}

/// Octets as text, none as `-`.
pub fn text(octets: &[u8]) -> &str {
    match str::from_utf8(octets) {
        Ok("") => "-",
        Ok(text) => text,
        Err(_) => "no text",
    }
}

/// Whether the write lies in the image and is Ok.
fn writes(site: &mut MemSite, at: u64, octets: &[u8]) -> bool {
    at <= site.image().len() as u64 && site.write_at(at, octets).is_ok()
}

/// Whether the step lies in the image and is Ok.
fn does(site: &mut MemSite, step: &str) -> bool {
    match step.split_once(':') {
        Some((at, octets)) => writes(site, at.parse().unwrap_or(u64::MAX), octets.as_bytes()),
        None => site.sync().is_ok(),
    }
}

/// Writes the image after the steps and the crash, or the first step that is not Ok.
fn write_left(words: &mut Words<'_>, page: &mut Page) {
    let how = crash_of(words.next().unwrap_or(""));
    let mut site = site_of(octets(words.next()), None, page);
    match words.find(|step| !does(&mut site, step)) {
        Some(step) => write!(page, "{step} failed"),
        None => page.push_str(text(site.crashed(how).image())),
    }
}

/// Makes one of the five calls. Whether it is Ok.
fn is_done(site: &mut MemSite, call: u32) -> bool {
    match call {
        0 => site.begin().is_ok(),
        1 => site.write_at(0, b"aXY").is_ok(),
        2 => site.sync().is_ok(),
        3 => site.put(b"sunk").is_ok(),
        _ => site.image().len() >= 2 && site.read_at(0, &mut [0; 2]).is_ok(),
    }
}

/// Makes the five calls on a site of which one fails, or that is dead from one on. Writes of each whether it is Ok.
fn site_called(failing: Option<u64>, dead_from: Option<u64>, page: &mut Page) -> MemSite {
    let (image, calls) = (page.copy(b"ab"), page.list_of(failing));
    let mut site = MemSite::new(page.alloc(), image, calls, dead_from);
    for call in 0..5 {
        page.push_str(if is_done(&mut site, call) { "o" } else { "x" });
    }
    site
}

/// Writes what a site holds.
fn write_held(site: &MemSite, page: &mut Page) {
    let (image, sunk, faults) = (text(site.image()), text(site.sunk()), site.faults());
    write!(page, " image {image} sunk {sunk} faults {faults}");
}

/// Makes the calls on a site that is dead from one of them on, and writes what it holds after a crash.
fn write_dead(words: &mut Words<'_>, page: &mut Page) {
    let site = site_called(None, number(words), page);
    write_held(&site.crashed(Crash::Lost), page);
}

/// Writes what each take of at most four octets gives, and what then stands in the room, which was four dots; then the
/// faults.
fn write_takes<S: Source>(source: &mut S, words: &mut Words<'_>, page: &mut Page) {
    let mut room = [b'.'; 4];
    for word in words {
        let most = word.parse().unwrap_or(0usize).min(4);
        match source.take(&mut room[..most]) {
            Ok(count) => write!(page, "{count} {}, ", text(&room)),
            Err(Failed) => write!(page, "failed {}, ", text(&room)),
        }
    }
    write!(page, "faults {}", source.faults());
}

/// Takes from a source that gives a piece at most, and fails at one call.
fn write_in_pieces(words: &mut Words<'_>, page: &mut Page) {
    let piece = number(words).unwrap_or(0).max(1) as usize;
    let calls = page.list_of(number(words));
    let mut source = MemSource::new(page.copy(octets(words.next())), piece, calls);
    write_takes(&mut source, words, page);
}

/// Takes from a source that gives all that it has.
fn write_sure(words: &mut Words<'_>, page: &mut Page) {
    let mut source = SureSource::new(page.copy(octets(words.next())));
    write_takes(&mut source, words, page);
}

/// The file of a `FileSite`.
const PATH: &str = "written.img";

fn word_of(answer: Result<(), Failed>) -> &'static str {
    match answer {
        Ok(()) => "ok",
        Err(Failed) => "failed",
    }
}

// Each call has a function of its own, without a clause: what several contracts say together takes long to prove.
fn begun(site: &mut FileSite) -> u64 {
    site.begin().unwrap_or(u64::MAX)
}

fn written(site: &mut FileSite, at: u64, octets: &[u8]) -> &'static str {
    word_of(site.write_at(at, octets))
}

/// Reads three octets.
fn read(site: &mut FileSite, at: u64, into: &mut [u8; 3]) -> &'static str {
    word_of(site.read_at(at, into))
}

/// Holds for what may be handed to another thread.
fn is_send<T: Send>() -> bool {
    true
}

/// Holds if the owner may read and write the file, and nobody else.
fn is_owners_alone(rt: HostRuntime) -> bool {
    match fs::metadata(&rt, PATH) {
        Ok(file) => file.permissions().mode() & 0o777 == 0o600,
        Err(_) => false,
    }
}

/// Lets these read and write the file.
fn set_mode(rt: HostRuntime, mode: u32, page: &mut Page) {
    page.check(fs::set_permissions(&rt, PATH, Permissions::from_mode(mode)));
}

/// Writes the octets of the file, which is then removed.
fn write_octets(rt: HostRuntime, page: &mut Page) {
    match fs::read(&rt, PATH) {
        Ok(octets) => page.push_str(text(&octets)),
        Err(_) => page.spoil(),
    }
    page.check(fs::remove_file(&rt, PATH));
}

/// Writes a write, and whether the file is its owner's alone behind it.
fn write_private(rt: HostRuntime, site: &mut FileSite, at: u64, octets: &[u8], page: &mut Page) {
    let (written, is_private) = (written(site, at, octets), is_owners_alone(rt));
    write!(page, "{written} mode 600 {is_private}, ");
}

/// Writes what each call answers, on an empty file that all may read before the first write and its group before the
/// second, and what the file then is.
fn write_filled(rt: HostRuntime, page: &mut Page) {
    page.check(fs::write(&rt, PATH, b""));
    set_mode(rt, 0o644, page);
    let mut site = FileSite::at(rt, PATH);
    let (length, was_private) = (begun(&mut site), is_owners_alone(rt));
    write!(page, "length {length} mode 600 {was_private}, ");
    write_private(rt, &mut site, 0, b"abc", page);
    set_mode(rt, 0o640, page);
    write_private(rt, &mut site, 2, b"XYZ", page);
    write_octets(rt, page);
}

/// Writes what the calls answer that make the file.
fn write_making(rt: HostRuntime, site: &mut FileSite, page: &mut Page) {
    let (before, is_there) = (begun(site), fs::read(&rt, PATH).is_ok());
    write!(page, "length {before} there {is_there}, ");
    let (first, second) = (written(site, 0, b"abc"), written(site, 2, b"XYZ"));
    let (synced, length) = (word_of(site.sync()), begun(site));
    write!(page, "{first}, {second}, {synced}, length {length}, ");
}

/// Writes what the calls answer that read the file, the second of them past its end, and the counts of faults.
fn write_reading(site: &mut FileSite, page: &mut Page) {
    let mut octets = [b'.'; 3];
    let (inside, put) = (read(site, 1, &mut octets), word_of(site.put(b"")));
    write!(page, "{inside} {}, {put}, ", text(&octets));
    write!(page, "faults {}, ", site.faults());
    // past the end: an error of the system, which counts
    let past = read(site, 4, &mut octets);
    write!(page, "{past}, faults {}, ", site.faults());
}

/// Writes what each call answers, on a file that is not there before the first write, whether a site may be handed to
/// another thread, and what the file then is.
fn write_made(rt: HostRuntime, page: &mut Page) {
    let mut site = FileSite::at(rt, PATH);
    write_making(rt, &mut site, page);
    write_reading(&mut site, page);
    let send = is_send::<FileSite>() && is_send::<MemSite>();
    let is_private = is_owners_alone(rt);
    write!(page, "send {send}, mode 600 {is_private}, ");
    write_octets(rt, page);
}

/// Writes a case and what it answers.
pub fn write_case(rt: HostRuntime, case: &str, page: &mut Page) {
    write!(page, "{case}: ");
    let words = &mut case.split_whitespace();
    match words.next().unwrap_or("") {
        "file" => write_made(rt, page),
        "empty" => write_filled(rt, page),
        "crash" => write_left(words, page),
        "failing" => write_held(&site_called(number(words), None, page), page),
        "dead" => write_dead(words, page),
        "source" => write_in_pieces(words, page),
        "sure" => write_sure(words, page),
        _ => page.push_str("no case"),
    }
}
