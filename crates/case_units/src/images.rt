//! Plans, images that no unit has open, and crashes.
ghost use Rattle.std.specs.Prelude.{◌≡◌, ◌+◌, ◌≤◌, [], IfSome, IsTrue, Ok, OnOk, length, vec_len};
ghost use Rattle.sdls_base.specs.declared.version.Version.TheVariants.{One};
ghost use Rattle.unit_plan.specs.PlanLines.{PlanLines};
ghost use Rattle.unit_plan.specs.Plan.{plan_of};
ghost use Rattle.unit_plan.specs.Bare.{bare_of};
ghost use Rattle.unit_state.specs.declared.state.State.{State};
ghost use Rattle.unit_image.specs.Content.{content_of};
ghost use Rattle.unit_image.specs.ContentReading.{FitsVersion};
ghost use Rattle.disk_journal.specs.declared.layout.HeaderForm.TheVariants.{Old};
ghost use Rattle.disk_journal.specs.Initial.{created_image};
ghost use Rattle.unit_image.specs.Beginning.{SaysPlan, image_of_plan};
ghost use Rattle.sdls_base.specs.Version.{content_length_of};
ghost use Rattle.case_units.specs.Images.{first_image};

use disk_journal::{JournalFault, create};
use sdls_base::{CONTENT_LENGTH_ONE, Version};
use sdls_outside::{Crash, MemSite, Site};
use std::alloc::Global;
use unit_image::{create_image, write_content};
use unit_plan::{MOST_OCTETS, Plan, bare_plan_is_short, write_bare_plan};
use unit_state::State;

/// The lines of a plan behind the first five: a telecommand channel that one association protects, under a CMAC key.
pub const TELECOMMAND_SENDER: &str = "link 0 tc seg nofecf -
channel 0 0 42 5 3
key 32769 active 2b7e151628aed2a6abf7158809cf4f3c
sa 7 send cmac 32769 1 1 0
";

/// The same of a telecommand and a telemetry channel, the second under a GCM key.
pub const TWO_SENDERS: &str = "link 0 tc seg nofecf -
link 1 tm 64 fecf -
channel 0 0 42 5 3
channel 1 1 42 2 -
key 32769 active 2b7e151628aed2a6abf7158809cf4f3c
key 256 active 000102030405060708090a0b0c0d0e0f
sa 7 send cmac 32769 1 1 0
sa 9 send gcm 256 1 1 1
";

/// So many zeros.
fn zeros(alloc: Global, count: usize) -> Option<Vec<u8>>
    ensures { IfSome result (λ zeros. vec_len zeros ≡ count) }
{
    vec![in alloc; 0; count].ok()
}

/// Writes the image of version 1 that the plan of a text begins with, in this state, if there is no image. The bare
/// plan and the content are written into `bare` and `content` first.
fn create_old_image<O: Site>(
    site: &mut O,
    text: &[u8],
    plan: &Plan,
    state: &State,
    bare: &mut [u8],
    content: &mut [u8],
) -> Result<(), JournalFault>
    requires empty { IsTrue O.told → (O.trace site.old).now.image ≡ [] }
    requires read { plan_of text.now ≡ Ok plan.now }
    requires room { length text.now + 1 ≤ length bare.old }
    requires sized { length content.old ≡ CONTENT_LENGTH_ONE }
    requires fits { FitsVersion One state.now }
    ensures created { IsTrue O.told → OnOk result ((O.trace site.new).now.image
        ≡ created_image Old (bare_of text.now) plan.now.slots (content_of One state.now)) }
{
    bare_plan_is_short();
    let end = write_bare_plan(text, bare);
    write_content(state, content);
    create(site, &bare[..end], plan.slots(), content)
}

/// The image of this version of a plan and its first state, made in these rooms.
fn image_made(
    alloc: Global,
    version: Version,
    text: &[u8],
    plan: &Plan,
    state: &State,
    bare: &mut [u8],
    content: &mut [u8],
) -> Option<Vec<u8>>
    requires says { SaysPlan text.now plan.now state.now }
    requires room { length text.now + 1 ≤ length bare.old }
    requires sized { length content.old ≡ content_length_of version }
    requires fits { FitsVersion version state.now }
    ensures { IfSome result (λ image. image.items ≡ first_image version text.now plan.now state.now) }
{
    let mut site = MemSite::new(alloc, Vec::new(alloc), Vec::new(alloc), None);
    match version {
        Version::One => match create_old_image(&mut site, text, plan, state, bare, content) {
            Ok(()) => Vec::from_slice(alloc, site.image()).ok(),
            Err(_) => None,
        },
        Version::Two => match create_image(&mut site, text, plan, state, bare, content) {
            Ok(()) => Vec::from_slice(alloc, site.image()).ok(),
            Err(_) => None,
        },
    }
}

/// The image of this version of a plan and its first state. `None` if the version has no room for its keys or
/// associations.
fn image_of_state(
    alloc: Global,
    version: Version,
    text: &[u8],
    plan: &Plan,
    state: &State,
) -> Option<Vec<u8>>
    requires says { SaysPlan text.now plan.now state.now }
    requires short { length text.now ≤ MOST_OCTETS }
    ensures { IfSome result (λ image. image.items ≡ first_image version text.now plan.now state.now) }
{
    if !unit_image::fits(version, state) {
        return None;
    }
    let mut bare = zeros(alloc, text.len() + 1)?;
    let mut content = zeros(alloc, version.content_length())?;
    image_made(alloc, version, text, plan, state, &mut bare, &mut content)
}

/// The image of this version of a plan that was read.
fn image_of_lines(alloc: Global, version: Version, text: &[u8], plan: &Plan) -> Option<Vec<u8>>
    requires read { plan_of text.now ≡ Ok plan.now }
    requires short { length text.now ≤ MOST_OCTETS }
    ensures { IfSome result (λ image. (first : State) × SaysPlan text.now plan.now first
        × (image.items ≡ first_image version text.now plan.now first)) }
{
    match State::initial(alloc, plan) {
        Ok(state) => image_of_state(alloc, version, text, plan, &state),
        Err(_) => None,
    }
}

/// The image of this version that the plan of a text begins with.
fn image_of_version(alloc: Global, version: Version, text: &[u8]) -> Option<Vec<u8>>
    ensures { IfSome result (λ image. (plan : PlanLines) × (first : State) × SaysPlan text.now plan first
        × (image.items ≡ first_image version text.now plan first)) }
{
    if text.len() > MOST_OCTETS {
        return None;
    }
    match Plan::read(alloc, text) {
        Ok(plan) => image_of_lines(alloc, version, text, &plan),
        Err(_) => None,
    }
}

/// The image that the plan of a text begins with. `None` if the text is no plan, or memory ran out.
pub fn image_of(alloc: Global, text: &[u8]) -> Option<Vec<u8>>
    ensures { IfSome result (λ image. (plan : PlanLines) × (first : State)
        × SaysPlan text.now plan first × (image.items ≡ image_of_plan text.now plan first)) }
{
    image_of_version(alloc, Version::Two, text)
}

/// The image of version 1 of the plan of a text, as earlier programs made it. `None` if the text is no plan, if version
/// 1 has no room for its keys or associations, or if memory ran out.
pub fn image_of_version_one(alloc: Global, text: &[u8]) -> Option<Vec<u8>>
    ensures { IfSome result (λ image. (plan : PlanLines) × (first : State) × SaysPlan text.now plan first
        × (image.items ≡ created_image Old (bare_of text.now) plan.slots (content_of One first))) }
{
    image_of_version(alloc, Version::One, text)
}

/// The image of a plan with so many slots and blocks of so many numbers, and these lines behind its first five.
pub fn image_of_sender(alloc: Global, slots: u32, block: u64, lines: &str) -> Option<Vec<u8>> {
    let plan = format!(in alloc;
        "sdls 1\ndevice d0000001\nslots {slots}\nblock {block}\naccept 1\n{lines}"
    );
    image_of(alloc, plan.ok()?.as_str().as_bytes())
}

/// What the word says that a crash leaves: what was written, what was synced, or an octet for each that was torn.
pub fn crash_of(word: &str) -> Crash {
    match word {
        "kept" => Crash::Kept,
        "lost" => Crash::Lost,
        _ => Crash::Filled(word.parse().unwrap_or(0)),
    }
}

/// Where these octets stand first in an image.
pub fn place_of(image: &[u8], octets: &[u8]) -> Option<usize> {
    let length = octets.len().max(1);
    image.windows(length).position(|part| part == octets)
}
