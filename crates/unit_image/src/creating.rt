ghost use Rattle.std.specs.Prelude.{◌≡◌, ◌+◌, ◌≤◌, [], IsTrue, OnOk, IfErr, length, Ok};
ghost use Rattle.sdls_base.specs.declared.version.Version.TheVariants.{Two};
ghost use Rattle.sdls_outside.specs.Disk.{IsSynced};
ghost use Rattle.sdls_outside.specs.Faults.{HasCause};
ghost use Rattle.sdls_outside.specs.Moments.{Trace};
ghost use Rattle.unit_plan.specs.Plan.{plan_of};
ghost use Rattle.unit_plan.specs.Bare.{bare_of};
ghost use Rattle.unit_image.specs.Content.{content_of};
ghost use Rattle.disk_journal.specs.declared.layout.HeaderForm.TheVariants.{New};
ghost use Rattle.disk_journal.specs.Initial.{IsLaid};
ghost use Rattle.unit_image.specs.Beginning.{image_of_plan};

use crate::content::write_content_two;
use disk_journal::{JournalFault, create_two};
use sdls_base::CONTENT_LENGTH_TWO;
use sdls_outside::Site;
use unit_plan::{Plan, bare_plan_is_short, write_bare_plan};
use unit_state::State;

/// Writes the image of version 2 that the plan of a text begins with, in this state, if there is no image. The bare
/// plan and the content are written into `bare` and `content` first, whatever these hold. Takes no memory.
///
/// After `Ok` the image is on the disk. An error is the site's count of faults, and some of the image may stand then.
pub fn create_image<O: Site>(
    site: &mut O,
    text: &[u8],
    plan: &Plan,
    state: &State,
    bare: &mut [u8],
    content: &mut [u8],
) -> Result<(), u64>
    requires empty { IsTrue O.told → (O.trace site.old).now.image ≡ [] }
    requires read { plan_of text.now ≡ Ok plan.now }
    requires room { length text.now + 1 ≤ length bare.old }
    requires sized { length content.old ≡ CONTENT_LENGTH_TWO }
    ensures created { IsTrue O.told → OnOk result (IsSynced (O.trace site.new).now
        × ((O.trace site.new).now.image ≡ image_of_plan text.now plan.now state.now)) }

    // A crash at any moment leaves an image that is refused at its first octet, or this one but for its gate.
    ensures any_moment { IsTrue O.told → ((mid : Trace) × IsLaid New (bare_of text.now) plan.now.slots
        (content_of Two state.now) (O.trace site.old) mid (O.trace site.new)) }
    ensures fault { HasCause (O.faults site.old) (O.faults site.new) result }
    ensures count { IfErr result (λ count. count ≡ O.faults site.new) }
    ensures puts { O.put_faults site.new ≡ O.put_faults site.old }
{
    bare_plan_is_short();
    let end = write_bare_plan(text, bare);
    write_content_two(state, content);
    match create_two(site, &bare[..end], plan.slots(), content) {
        Ok(()) => Ok(()),
        Err(JournalFault::SiteFault(count)) => Err(count),
        Err(JournalFault::Image(_)) => Err(site.faults()),
    }
}
