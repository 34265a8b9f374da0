//! The word `stat`.
ghost use Rattle.std.specs.Prelude.{◌≡◌, ◌≢◌, ◌≤◌, ◌++◌, [], ℕ, List, IsTrue};
ghost use Rattle.sdls_outside.specs.Faults.{HasCause, Rose};
ghost use Rattle.sdls_outside.specs.Moments.{EachMoment};
ghost use Rattle.unit_image.specs.Image.{held};
ghost use Rattle.run_promise.specs.Sound.{HasPlan};
ghost use Rattle.unit_book.specs.Book.{IsKept, with_put};
ghost use Rattle.unit_book.specs.Log.{sunk_between};
ghost use Rattle.record_io.specs.Outcome.{Ends};
ghost use Rattle.sdls_outside.specs.Output.{Delivers};
ghost use Rattle.cli_image.specs.Stat.{EndsStat, PutsText, ShowsAlone, TellsBook, end_of_open, fault_text, image_text};
ghost use Rattle.cli_image.specs.Stat.{stat_status};

use command_words::{put_number, put_text};
use record_io::Outcome;
use record_io::status::{DONE, NO_MEMORY, NO_STATE, SITE_FAULT};
use sdls_base::NoMemory;
use sdls_outside::{Failed, Site};
use status_text::status_text;
use std::alloc::Global;
use unit_book::Book;
use unit_image::{OpenFault, refused_with_one, shows_one};

/// Why `stat` ends.
#[derive(Clone, Copy, Debug, PartialEq, Eq)]
pub enum StatEnd {
    /// The state is told.
    Told,
    /// The site failed.
    SiteFault,
    /// Memory ran out.
    NoMemory,
    /// The image shows no state: the offset of the first check that fails.
    NoState(u64),
}

impl StatEnd {
    fn status(self) -> u8
        ensures { result ≡ stat_status self }
    {
        match self {
            StatEnd::Told => DONE,
            StatEnd::SiteFault => SITE_FAULT,
            StatEnd::NoMemory => NO_MEMORY,
            StatEnd::NoState(_) => NO_STATE,
        }
    }
}

/// Writes a text through the book, and answers the status: this one, or that of a put that failed.
fn put_through<O: Site>(book: &mut Book<O>, text: &[u8], status: u8) -> u8
    requires kept { IsKept O.told book.old }
    ensures kept { IsKept O.told book.new }
    ensures made { book.new ≡ with_put (sunk_between book.old.site.trace book.new.site.trace)
        (record book.old { site = book.new.site }) }
    ensures put { PutsText O.told text.now status result book.old.site.trace book.new.site.trace
        (Rose book.old.site.faults book.new.site.faults) }
    ensures later { book.old.site.faults ≤ book.new.site.faults }
    ensures quiet { result ≢ SITE_FAULT → book.new.site.faults ≡ book.old.site.faults }
{
    match book.put(text) {
        Ok(()) => status,
        Err(_) => SITE_FAULT,
    }
}

/// Writes the state of the book as text, or that memory ran out, and answers the status.
fn put_state<O: Site>(alloc: Global, book: &mut Book<O>) -> u8
    requires kept { IsKept O.told book.old }
    ensures kept { IsKept O.told book.new }
    ensures made { (piece : List ℕ) × (book.new ≡ with_put piece (record book.old { site = book.new.site })) }
    ensures told { (end : StatEnd) × (text : List ℕ) × TellsBook book.old text end
        × PutsText O.told text (stat_status end) result book.old.site.trace book.new.site.trace
        (Rose book.old.site.faults book.new.site.faults) }
    ensures later { book.old.site.faults ≤ book.new.site.faults }
    ensures quiet { result ≢ SITE_FAULT → book.new.site.faults ≡ book.old.site.faults }
{
    match status_text(alloc, book.state(), book.used(), book.plan().slots()) {
        Ok(text) => put_through(book, &text, DONE),
        Err(NoMemory) => put_through(book, b"no memory\n", NO_MEMORY),
    }
}

/// Writes the state of a book that was opened.
fn tell_state<O: Site>(alloc: Global, mut book: Book<O>) -> Outcome<O>
    requires kept { IsKept O.told book }
    requires first { (book.log ≡ []) × (book.opened ≡ book.site) }
    ensures told { (end : StatEnd) × (text : List ℕ) × TellsBook book text end
        × PutsText O.told text (stat_status end) result.status book.site.trace (O.trace result.site)
        (Rose book.site.faults (O.faults result.site)) }
    ensures moments { IsTrue O.told → EachMoment book.site.trace (O.trace result.site)
        (λ image sunk. ShowsAlone book.start image) }
    ensures plans { IsTrue O.told → EachMoment book.site.trace (O.trace result.site)
        (λ image sunk. HasPlan (held book.image).plan image) }
    ensures later { book.site.faults ≤ O.faults result.site }
    ensures quiet { result.status ≢ SITE_FAULT → O.faults result.site ≡ book.site.faults }
    ensures no_history { result.entries.items ≡ [] }
{
    let status = put_state(alloc, &mut book);
    let (site, _entries) = book.into_site();
    Outcome {
        status,
        site,
        entries: Vec::new(alloc),
    }
}

/// Writes the line that names the offset at which an image is refused.
fn put_refused<O: Site>(site: &mut O, offset: u64) -> Result<(), Failed>
    ensures delivered { IsTrue O.told → Delivers (image_text offset) result (O.trace site.old) (O.trace site.new) }
    ensures cause { HasCause (O.faults site.old) (O.faults site.new) result }
{
    put_text(site, b"image at ")?;
    put_number(site, offset)?;
    put_text(site, b"\n")
}

/// Writes the line that says why there is no state to print.
fn put_fault<O: Site>(site: &mut O, end: StatEnd) -> Result<(), Failed>
    ensures delivered { IsTrue O.told → Delivers (fault_text end) result (O.trace site.old) (O.trace site.new) }
    ensures cause { HasCause (O.faults site.old) (O.faults site.new) result }
{
    match end {
        StatEnd::NoState(offset) => put_refused(site, offset),
        StatEnd::SiteFault => put_text(site, b"site fault\n"),
        StatEnd::Told | StatEnd::NoMemory => put_text(site, b"no memory\n"),
    }
}

/// Why there is no state to be told.
fn end_of(fault: OpenFault) -> StatEnd
    ensures { result ≡ end_of_open fault }
{
    match fault {
        OpenFault::SiteFault(_) => StatEnd::SiteFault,
        OpenFault::Image(offset) => StatEnd::NoState(offset),
        OpenFault::NoMemory => StatEnd::NoMemory,
    }
}

/// Writes why there is no state to print.
fn tell_fault<O: Site>(alloc: Global, fault: OpenFault, mut site: O) -> Outcome<O>
    ensures ends { Ends O.told (O.trace site) (O.trace result.site) (Rose (O.faults site) (O.faults result.site))
        (fault_text (end_of_open fault)) (stat_status (end_of_open fault)) result.status }
    ensures later { O.faults site ≤ O.faults result.site }
    ensures quiet { result.status ≢ SITE_FAULT → O.faults result.site ≡ O.faults site }
    ensures site_fault { (count : ℕ) → fault ≡ OpenFault.SiteFault count → result.status ≡ SITE_FAULT }
    ensures no_history { result.entries.items ≡ [] }
{
    let end = end_of(fault);
    let status = match put_fault(&mut site, end) {
        Ok(()) => end.status(),
        Err(Failed) => SITE_FAULT,
    };
    Outcome {
        status,
        site,
        entries: Vec::new(alloc),
    }
}

/// Runs `stat`.
pub(crate) fn run_stat<O: Site>(alloc: Global, site: O) -> Outcome<O>
    ensures ends { EndsStat O.told (O.trace site) (O.trace result.site) (Rose (O.faults site) (O.faults result.site))
        result.status }
    ensures quiet { result.status ≢ SITE_FAULT → O.faults result.site ≡ O.faults site }
    ensures no_history { result.entries.items ≡ [] }
{
    shows_one();
    refused_with_one();
    match Book::open(alloc, site) {
        Ok(book) => tell_state(alloc, book),
        Err((fault, site)) => tell_fault(alloc, fault, site),
    }
}
