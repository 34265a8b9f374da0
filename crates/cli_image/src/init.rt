ghost use Rattle.std.specs.Prelude.{◌≡◌, ◌≢◌, ◌+◌, ◌≤◌, [], length, vec_len, IsTrue, IfOk};
ghost use Rattle.sdls_outside.specs.Faults.{HasCause, Rose};
ghost use Rattle.sdls_outside.specs.Moments.{EachMoment};
ghost use Rattle.cli_image.specs.Init.{EndsInit, InitEnds, JudgesPlan, cause_text, cause_word, init_status, init_text};
ghost use Rattle.cli_image.specs.Init.{IsNoneOrInitial, LeavesNoOther, plan_fault_text};
ghost use Rattle.sdls_outside.specs.Intake.{TakesAtMost};
ghost use Rattle.sdls_outside.specs.Output.{Delivers, OnlySinks};

use command_words::{put_number, put_text};
use law_image::cut_beginning;
use record_io::Outcome;
use record_io::status::{DONE, MALFORMED, NO_MEMORY, NO_STATE, SITE_FAULT, SOURCE_FAULT};
use sdls_base::CONTENT_LENGTH_TWO;
use sdls_outside::{Failed, Site, Source, collect};
use std::alloc::{AllocError, Global};
use unit_image::create_image;
use unit_plan::{MOST_OCTETS, Plan, PlanCause, PlanError, PlanFault};
use unit_state::State;

/// Why `init` ends.
#[derive(Clone, Copy, Debug, PartialEq, Eq)]
pub enum InitEnd {
    /// The image is made, and on the disk.
    Made,
    /// There is an image already.
    ImageExists,
    /// The input is no plan: its first line that has a cause.
    Refused(PlanFault),
    /// The source failed.
    SourceFault,
    /// The site failed.
    SiteFault,
    /// Memory ran out.
    NoMemory,
}

impl InitEnd {
    fn status(self) -> u8
        ensures { result ≡ init_status self }
    {
        match self {
            InitEnd::Made => DONE,
            InitEnd::ImageExists => NO_STATE,
            InitEnd::Refused(_) => MALFORMED,
            InitEnd::SourceFault => SOURCE_FAULT,
            InitEnd::SiteFault => SITE_FAULT,
            InitEnd::NoMemory => NO_MEMORY,
        }
    }
}

/// The plan that this text is, and the state that its lines make.
fn plan_of(alloc: Global, text: &[u8]) -> Result<(Plan, State), PlanError>
    ensures { JudgesPlan text.now result }
{
    let plan = Plan::read(alloc, text)?;
    let state = State::initial(alloc, &plan)?;
    Ok((plan, state))
}

/// So many zeros.
fn zeros(alloc: Global, count: usize) -> Result<Vec<u8>, AllocError>
    ensures { IfOk result (λ zeros. vec_len zeros ≡ count) }
{
    vec![in alloc; 0; count]
}

/// Makes the image of the plan that this text is, if there is none.
fn make_image<O: Site>(alloc: Global, site: &mut O, text: &[u8]) -> InitEnd
    requires empty { IsTrue O.told → (O.trace site.old).now.image ≡ [] }
    requires short { length text.now ≤ MOST_OCTETS + 1 }
    ensures ends { InitEnds (λ input. input ≡ text.now) ⊥ ⊥ O.told (Rose (O.faults site.old) (O.faults site.new))
        (O.trace site.old) (O.trace site.new) result }
    ensures moments { IsTrue O.told → EachMoment (O.trace site.old) (O.trace site.new)
        (λ image sunk. IsNoneOrInitial text.now image) }
    ensures later { O.faults site.old ≤ O.faults site.new }
    ensures quiet { result ≢ InitEnd.SiteFault → O.faults site.new ≡ O.faults site.old }
{
    let (plan, state) = match plan_of(alloc, text) {
        Ok(made) => made,
        Err(PlanError::Refused(fault)) => return InitEnd::Refused(fault),
        Err(PlanError::NoMemory) => return InitEnd::NoMemory,
    };
    let Ok(mut bare) = zeros(alloc, text.len() + 1) else {
        return InitEnd::NoMemory;
    };
    let Ok(mut content) = zeros(alloc, CONTENT_LENGTH_TWO) else {
        return InitEnd::NoMemory;
    };
    cut_beginning();
    match create_image(site, text, &plan, &state, &mut bare, &mut content) {
        Ok(()) => InitEnd::Made,
        Err(_) => InitEnd::SiteFault,
    }
}

/// Reads the input to its end into the room, and makes the image of the plan that it is. The room has
/// one octet more than the longest plan.
fn collect_and_make<S: Source, O: Site>(
    alloc: Global,
    source: &mut S,
    site: &mut O,
    room: &mut [u8],
) -> InitEnd
    requires empty { IsTrue O.told → (O.trace site.old).now.image ≡ [] }
    requires room { length room.old ≡ MOST_OCTETS + 1 }
    ensures ends { InitEnds (λ input. IsTrue S.told → input ≡ S.left source.old) (source.new ≡ source.old)
        (Rose (S.faults source.old) (S.faults source.new)) O.told (Rose (O.faults site.old) (O.faults site.new))
        (O.trace site.old) (O.trace site.new) result }
    ensures moments { IsTrue O.told → LeavesNoOther (λ input. IsTrue S.told → input ≡ S.left source.old)
        (O.trace site.old) (O.trace site.new) }
    ensures taken { IsTrue S.told → TakesAtMost (MOST_OCTETS + 1) (S.left source.old) (S.left source.new) }
    ensures later { O.faults site.old ≤ O.faults site.new }
    ensures quiet { result ≢ InitEnd.SiteFault → O.faults site.new ≡ O.faults site.old }
    ensures heard { result ≢ InitEnd.SourceFault → S.faults source.new ≡ S.faults source.old }
{
    match collect(source, room) {
        Ok(count) => make_image(alloc, site, &room[..count]),
        Err(Failed) => InitEnd::SourceFault,
    }
}

/// Reads the input to its end, and makes the image of the plan that it is.
fn read_and_make<S: Source, O: Site>(alloc: Global, source: &mut S, site: &mut O) -> InitEnd
    requires { IsTrue O.told → (O.trace site.old).now.image ≡ [] }
    ensures ends { InitEnds (λ input. IsTrue S.told → input ≡ S.left source.old) (source.new ≡ source.old)
        (Rose (S.faults source.old) (S.faults source.new)) O.told (Rose (O.faults site.old) (O.faults site.new))
        (O.trace site.old) (O.trace site.new) result }
    ensures moments { IsTrue O.told → LeavesNoOther (λ input. IsTrue S.told → input ≡ S.left source.old)
        (O.trace site.old) (O.trace site.new) }
    ensures taken { IsTrue S.told → TakesAtMost (MOST_OCTETS + 1) (S.left source.old) (S.left source.new) }
    ensures later { O.faults site.old ≤ O.faults site.new }
    ensures quiet { result ≢ InitEnd.SiteFault → O.faults site.new ≡ O.faults site.old }
    ensures heard { result ≢ InitEnd.SourceFault → S.faults source.new ≡ S.faults source.old }
{
    let Ok(mut room) = zeros(alloc, MOST_OCTETS + 1) else {
        return InitEnd::NoMemory;
    };
    collect_and_make(alloc, source, site, &mut room)
}

/// Asks for the image, reads the plan and makes the image of it, in this order.
fn initialize<S: Source, O: Site>(alloc: Global, source: &mut S, site: &mut O) -> InitEnd
    ensures ends { InitEnds (λ input. IsTrue S.told → input ≡ S.left source.old) (source.new ≡ source.old)
        (Rose (S.faults source.old) (S.faults source.new)) O.told (Rose (O.faults site.old) (O.faults site.new))
        (O.trace site.old) (O.trace site.new) result }
    ensures moments { IsTrue O.told → (O.trace site.old).now.image ≡ []
        → LeavesNoOther (λ input. IsTrue S.told → input ≡ S.left source.old) (O.trace site.old) (O.trace site.new) }
    ensures untouched { IsTrue O.told → (O.trace site.old).now.image ≢ [] → O.trace site.new ≡ O.trace site.old }
    ensures taken { IsTrue S.told → TakesAtMost (MOST_OCTETS + 1) (S.left source.old) (S.left source.new) }
    ensures later { O.faults site.old ≤ O.faults site.new }
    ensures quiet { result ≢ InitEnd.SiteFault → O.faults site.new ≡ O.faults site.old }
    ensures heard { result ≢ InitEnd.SourceFault → S.faults source.new ≡ S.faults source.old }
{
    match site.begin() {
        Ok(0) => read_and_make(alloc, source, site),
        Ok(_) => InitEnd::ImageExists,
        Err(Failed) => InitEnd::SiteFault,
    }
}

/// The word for what is wrong with a line.
fn cause_word(cause: PlanCause) -> &'static [u8]
    ensures { result.now ≡ cause_word cause }
{
    match cause {
        PlanCause::Long => b"long",
        PlanCause::Form => b"form",
        PlanCause::Order => b"order",
        PlanCause::Range => b"range",
        PlanCause::Twice => b"twice",
        PlanCause::Unknown => b"unknown",
        PlanCause::Refused => b"refused",
    }
}

/// Writes the end of the line that names a fault: its cause.
fn put_cause<O: Site>(site: &mut O, cause: PlanCause) -> Result<(), Failed>
    ensures delivered { IsTrue O.told → Delivers (cause_text cause) result (O.trace site.old) (O.trace site.new) }
    ensures cause { HasCause (O.faults site.old) (O.faults site.new) result }
{
    put_text(site, b" ")?;
    put_text(site, cause_word(cause))?;
    put_text(site, b"\n")
}

/// Writes the line that names the first fault of a plan.
fn put_plan_fault<O: Site>(site: &mut O, fault: PlanFault) -> Result<(), Failed>
    ensures delivered { IsTrue O.told → Delivers (plan_fault_text fault) result (O.trace site.old) (O.trace site.new) }
    ensures cause { HasCause (O.faults site.old) (O.faults site.new) result }
{
    put_text(site, b"plan line ")?;
    put_number(site, u64::from(fault.line))?;
    put_cause(site, fault.cause)
}

/// Writes the text that is due at this end, if there is one.
fn put_end<O: Site>(site: &mut O, end: InitEnd) -> Result<(), Failed>
    ensures delivered { IsTrue O.told → Delivers (init_text end) result (O.trace site.old) (O.trace site.new) }
    ensures cause { HasCause (O.faults site.old) (O.faults site.new) result }
{
    match end {
        InitEnd::Made => Ok(()),
        InitEnd::Refused(fault) => put_plan_fault(site, fault),
        InitEnd::ImageExists => put_text(site, b"image exists\n"),
        InitEnd::SourceFault => put_text(site, b"source fault\n"),
        InitEnd::SiteFault => put_text(site, b"site fault\n"),
        InitEnd::NoMemory => put_text(site, b"no memory\n"),
    }
}

/// Runs `init`.
pub(crate) fn run_init<S: Source, O: Site>(alloc: Global, source: &mut S, mut site: O) -> Outcome<O>
    ensures ends { EndsInit (λ input. IsTrue S.told → input ≡ S.left source.old) (source.new ≡ source.old)
        (Rose (S.faults source.old) (S.faults source.new)) O.told (O.trace site) (O.trace result.site)
        (Rose (O.faults site) (O.faults result.site)) result.status }
    ensures untouched { IsTrue O.told → (O.trace site).now.image ≢ [] → OnlySinks (O.trace site) (O.trace result.site) }
    ensures taken { IsTrue S.told → TakesAtMost (MOST_OCTETS + 1) (S.left source.old) (S.left source.new) }
    ensures quiet { result.status ≢ SITE_FAULT → O.faults result.site ≡ O.faults site }
    ensures heard { result.status ≢ SOURCE_FAULT → result.status ≢ SITE_FAULT
        → S.faults source.new ≡ S.faults source.old }
    ensures no_history { result.entries.items ≡ [] }
{
    let end = initialize(alloc, source, &mut site);
    let status = match put_end(&mut site, end) {
        Ok(()) => end.status(),
        Err(Failed) => SITE_FAULT,
    };
    Outcome {
        status,
        site,
        entries: Vec::new(alloc),
    }
}
