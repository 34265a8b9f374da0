// Images: made, written by steps, opened and printed, also behind each death of a step.
ghost use Rattle.std.specs.Prelude.{◌≡◌, IfOk, length};
ghost use Rattle.sdls_outside.specs.MemSite.{site_trace};
ghost use Rattle.disk_journal.specs.Journal.{IsOpen, IsSettled};

use case_lines::{Differences, Page, cut, part_at, word_at};
use disk_journal::{
    BODY_LENGTH, Journal, JournalFault, LEAST_SLOTS, MOST_SLOTS, PLAN_ROOM, create, create_two,
};
use sdls_base::{CONTENT_LENGTH_TWO, Version};
use sdls_outside::{Crash, MemSite};

/// More calls than a step makes.
const MOST_CALLS: u64 = 256;

/// A site that holds the image. Each call from `dead_from` on fails.
pub fn site_of(image: &[u8], dead_from: Option<u64>, page: &mut Page) -> MemSite {
    let image = page.copy(image);
    MemSite::new(page.alloc(), image, Vec::new(page.alloc()), dead_from)
}

/// The octet that a word has in digits, or its first one.
fn octet_of(word: &str) -> u8 {
    let first = word.as_bytes().first().copied();
    u8::from_str_radix(word, 16).unwrap_or(first.unwrap_or(0))
}

/// Takes the image of a plan, of version 1 or by `create_two` of version 2, with a content of this octet alone: `SLOTS
/// CONTENT PLAN`. The slots and the plan have to be within bounds.
pub fn create_image(image: &mut Vec<u8>, step: &str, line: &str, page: &mut Page) {
    let version = match step {
        "create_two" => Version::Two,
        _ => Version::One,
    };
    let (alloc, mut words) = (page.alloc(), line.split_whitespace());
    let slots = words.next().unwrap_or("").parse().unwrap_or(0);
    let octet = octet_of(words.next().unwrap_or(""));
    let plan = page.octets(&mut words);
    if slots < LEAST_SLOTS || slots > MOST_SLOTS || plan.len() as u64 > PLAN_ROOM {
        return page.spoil();
    }
    let Ok(content) = vec![in alloc; octet; version.content_length()] else {
        return page.spoil();
    };
    let mut site = MemSite::new(alloc, Vec::new(alloc), Vec::new(alloc), None);
    match version {
        Version::One => page.check(create(&mut site, &plan, slots, &content)),
        Version::Two => page.check(create_two(&mut site, &plan, slots, &content)),
    }
    *image = page.copy(site.image());
}

/// Opens the image and brings it to rest.
fn at_rest(site: &mut MemSite) -> Result<Journal, JournalFault>
    ensures { IfOk result (IsSettled (site_trace site.new)) }
{
    let journal = Journal::open(site)?;
    journal.settle(site)?;
    Ok(journal)
}

/// Adds a record of this octet alone, if a slot is free.
fn append(site: &mut MemSite, octet: u8) -> Result<(), JournalFault> {
    let mut journal = at_rest(site)?;
    if journal.used() == journal.slots() {
        return Ok(());
    }
    journal.append(site, &[octet; BODY_LENGTH])
}

/// Writes a content of this octet alone by a turn.
fn turn(site: &mut MemSite, octet: u8, page: &mut Page) -> Result<(), JournalFault> {
    let mut journal = at_rest(site)?;
    match vec![in page.alloc(); octet; journal.content_version().content_length()] {
        Ok(content) => journal.turn(site, &content),
        Err(_) => Ok(page.spoil()),
    }
}

/// Migrates the image to a content, if it is of version 1.
fn migrate(site: &mut MemSite, content: &[u8]) -> Result<(), JournalFault>
    requires { length content.now ≡ CONTENT_LENGTH_TWO }
{
    let mut journal = at_rest(site)?;
    match journal.content_version() {
        Version::One => journal.migrate(site, content),
        Version::Two => Ok(()),
    }
}

/// Migrates the image to a content of this octet alone.
fn migrate_to(site: &mut MemSite, octet: u8, page: &mut Page) -> Result<(), JournalFault> {
    match vec![in page.alloc(); octet; CONTENT_LENGTH_TWO] {
        Ok(content) => migrate(site, &content),
        Err(_) => Ok(page.spoil()),
    }
}

/// Does a step on the site: `settle`, `append OCTET`, `turn OCTET` or `migrate OCTET`.
fn does(site: &mut MemSite, line: &str, page: &mut Page) -> Result<(), JournalFault> {
    let octet = octet_of(word_at(line, 1));
    match word_at(line, 0) {
        "append" => append(site, octet),
        "turn" => turn(site, octet, page),
        "migrate" => migrate_to(site, octet, page),
        _ => at_rest(site).map(|_| ()),
    }
}

/// Writes what a fault says.
fn write_fault(fault: JournalFault, page: &mut Page) {
    match fault {
        JournalFault::SiteFault(count) => write!(page, "site fault {count}"),
        JournalFault::Image(offset) => write!(page, "refused at {offset}"),
    }
}

/// Does a step on the image, and writes how it ended.
pub fn write_step(image: &mut Vec<u8>, line: &str, page: &mut Page) {
    let mut site = site_of(image, None, page);
    let ended = does(&mut site, line, page);
    *image = page.copy(site.image());
    match ended {
        Ok(()) => page.push_str("ok"),
        Err(fault) => write_fault(fault, page),
    }
}

/// Writes the octet that these are alone, in digits, or that they differ.
fn write_alone(octets: &[u8], page: &mut Page) {
    let first = octets.first().copied().unwrap_or(0);
    if octets.iter().any(|octet| *octet != first) {
        page.push_str("mixed");
    } else {
        write!(page, "{first:02x}");
    }
}

/// Writes how many records there are, with the octet of the first one and that of the last one.
fn write_records(site: &mut MemSite, journal: &Journal, page: &mut Page)
    requires { IsOpen (site_trace site.old) journal.now }
{
    let used = journal.used();
    if used == 0 {
        return page.push_str("no records");
    }
    match (journal.body(site, 0), journal.body(site, used - 1)) {
        (Ok(first), Ok(last)) => {
            write!(page, "{used} records, ");
            write_alone(&first, page);
            page.push_str(" to ");
            write_alone(&last, page);
        }
        _ => page.push_str("no records read"),
    }
}

/// Writes what an image holds that is open: the content and the records.
fn write_held(site: &mut MemSite, journal: &Journal, page: &mut Page)
    requires { IsOpen (site_trace site.old) journal.now }
{
    let Ok(mut room) = vec![in page.alloc(); 0; journal.content_version().content_length()] else {
        return page.spoil();
    };
    if journal.content(site, &mut room).is_err() {
        return page.push_str("no content read");
    }
    write_alone(&room, page);
    page.push_str(", ");
    write_records(site, journal, page);
}

/// Writes what the image holds when it is opened, or the offset that it is refused with.
pub fn write_opened(image: &[u8], page: &mut Page) {
    let mut site = site_of(image, None, page);
    match Journal::open(&mut site) {
        Ok(journal) => {
            let (slots, at) = (journal.slots(), journal.content_at());
            let two = journal.version() == 2;
            let version = if two { " of version 2" } else { "" };
            write!(page, "{slots} slots{version}, content at {at}, ");
            write_held(&mut site, &journal, page);
        }
        Err(fault) => write_fault(fault, page),
    }
}

/// Whether these octets of the image are 0: `OFFSET LENGTH`.
pub fn zeros(image: &[u8], line: &str) -> &'static str {
    match part_at(image, line) {
        Some(part) if part.iter().all(|octet| *octet == 0) => "zeros",
        Some(_) => "others",
        None => "not so many",
    }
}

/// The crash of a word: `kept`, `lost`, or filled with an octet.
pub fn crash_of(word: &str) -> Crash {
    match word {
        "kept" => Crash::Kept,
        "lost" => Crash::Lost,
        _ => Crash::Filled(octet_of(word)),
    }
}

/// Takes the image that a death of the step leaves: `CALL STEP OCTET KIND`.
pub fn leave(image: &mut Vec<u8>, line: &str, page: &mut Page) {
    let (call, step) = cut(line);
    let mut site = site_of(image, call.parse().ok(), page);
    let _ended = does(&mut site, step, page);
    let how = crash_of(word_at(step, 2));
    *image = page.copy(site.crashed(how).image());
}

/// Does the step on a site that is dead from a call on, and writes what the image holds after it, once it is at rest.
/// Returns whether the step came to its end.
fn write_death(mut site: MemSite, line: &str, page: &mut Page) -> bool {
    let is_whole = does(&mut site, line, page).is_ok();
    let mut site = site.crashed(crash_of(word_at(line, 2)));
    match at_rest(&mut site) {
        Ok(journal) => write_held(&mut site, &journal, page),
        Err(fault) => write_fault(fault, page),
    }
    is_whole
}

/// Writes what deaths in a row left, and how many these are, if there is one.
fn write_row(count: u64, left: &Differences, page: &mut Page) {
    if count > 0 {
        write!(page, "; {count} ");
        left.write_last(page);
    }
}

/// Writes what the death of the step at each of its calls leaves, and how often that stands so in a row: `STEP OCTET
/// KIND`.
pub fn write_each(image: &[u8], line: &str, page: &mut Page) {
    page.push_str(line);
    let (mut left, mut count) = (Differences::new(page.alloc()), 0u64);
    for dead in 0..MOST_CALLS {
        let site = site_of(image, Some(dead), page);
        let is_whole = write_death(site, line, left.next());
        if left.is_other() {
            write_row(count, &left, page);
            count = 0;
        }
        left.take();
        count = count.saturating_add(1);
        if is_whole {
            return write_row(count, &left, page);
        }
    }
    page.push_str("; no end");
}
