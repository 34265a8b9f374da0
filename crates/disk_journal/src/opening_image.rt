// The checks of an image, in their order. Nothing is written.
ghost use Rattle.std.specs.Prelude.{◌≡◌, ◌≤◌, IsTrue, IfOk, OnOk, length};
ghost use Rattle.sdls_outside.specs.Faults.{HasCause};
ghost use Rattle.sdls_outside.specs.Site.{Synced};
ghost use Rattle.disk_journal.specs.Moments.{OnlySyncs};
ghost use Rattle.disk_journal.specs.Banks.{IsLayout, image_end, bank_at};
ghost use Rattle.disk_journal.specs.Journal.{IsHeaderOf, IsCurrent};
ghost use Rattle.disk_journal.specs.Verdict.{IsVerdict};

use crate::header::{Header, choose, first_closed, read_front, read_header, stray_gate};
use crate::journal::Journal;
use crate::layout::{Bank, HEADER_LENGTH, Layout, PLAN_ROOM};
use sdls_outside::{Failed, Site};

/// What the checks of an image come to.
#[derive(Drop)]
pub(crate) enum Verdict {
    /// The image opens, and this is its journal.
    Opens(Journal),
    /// The offset of the first check that fails.
    Fails(u64),
}

/// Makes the checks of the gates of the current bank, behind banks that pass their own.
fn inspect_slots<O: Site>(
    site: &mut O,
    header: Header,
    bank: Bank,
    generation: u64,
) -> Result<Verdict, Failed>
    requires room { header.plan_length ≤ PLAN_ROOM }
    requires layout { IsLayout header.layout }
    requires passed { IsTrue O.told → IsHeaderOf (O.trace site.old).now.image header.plan_length header.layout }
    requires newest { IsTrue O.told → IsCurrent (O.trace site.old).now.image bank generation }
    ensures found { IsTrue O.told → IfOk result (IsVerdict (O.trace site.old).now.image) }
    ensures same { IsTrue O.told → O.trace site.new ≡ O.trace site.old }
    ensures cause { HasCause (O.faults site.old) (O.faults site.new) result }
    ensures puts { O.put_faults site.new ≡ O.put_faults site.old }
{
    let Header {
        plan_length,
        layout,
    } = header;
    let at = layout.bank_at(bank);
    let used = first_closed(site, layout, at)?;
    match stray_gate(site, layout, at, used + 1)? {
        Some(offset) => Ok(Verdict::Fails(offset)),
        None => Ok(Verdict::Opens(Journal {
            plan_length,
            layout,
            bank,
            generation,
            used,
        })),
    }
}

/// Makes the checks of the banks and of the gates, behind a header that passes its own.
fn inspect_banks<O: Site>(site: &mut O, header: Header) -> Result<Verdict, Failed>
    requires room { header.plan_length ≤ PLAN_ROOM }
    requires layout { IsLayout header.layout }
    requires passed { IsTrue O.told → IsHeaderOf (O.trace site.old).now.image header.plan_length header.layout }
    ensures found { IsTrue O.told → IfOk result (IsVerdict (O.trace site.old).now.image) }
    ensures same { IsTrue O.told → O.trace site.new ≡ O.trace site.old }
    ensures cause { HasCause (O.faults site.old) (O.faults site.new) result }
    ensures puts { O.put_faults site.new ≡ O.put_faults site.old }
{
    let first_at = header.layout.bank_at(Bank::First);
    let second_at = header.layout.bank_at(Bank::Second);
    let first = read_front(site, first_at)?;
    let second = read_front(site, second_at)?;
    match choose(first, second, first_at, second_at) {
        Ok(Bank::First) => inspect_slots(site, header, Bank::First, first.generation),
        Ok(Bank::Second) => inspect_slots(site, header, Bank::Second, second.generation),
        Err(offset) => Ok(Verdict::Fails(offset)),
    }
}

/// Makes the checks of an image of this length.
fn inspect<O: Site>(site: &mut O, image_length: u64) -> Result<Verdict, Failed>
    requires { IsTrue O.told → image_length ≡ length (O.trace site.old).now.image }
    ensures found { IsTrue O.told → IfOk result (IsVerdict (O.trace site.old).now.image) }
    ensures same { IsTrue O.told → O.trace site.new ≡ O.trace site.old }
    ensures cause { HasCause (O.faults site.old) (O.faults site.new) result }
    ensures puts { O.put_faults site.new ≡ O.put_faults site.old }
{
    if image_length < HEADER_LENGTH {
        return Ok(Verdict::Fails(0));
    }
    let mut octets = [0; HEADER_LENGTH as usize];
    site.read_at(0, &mut octets)?;
    match read_header(&octets, image_length) {
        Ok(header) => inspect_banks(site, header),
        Err(offset) => Ok(Verdict::Fails(offset)),
    }
}

/// Starts a run on the site, syncs, and makes the checks.
pub(crate) fn inspect_synced<O: Site>(site: &mut O) -> Result<Verdict, Failed>
    ensures found { IsTrue O.told → IfOk result (IsVerdict (O.trace site.old).now.image) }
    ensures synced { IsTrue O.told → OnOk result (Synced (O.trace site.old) (O.trace site.new)) }
    ensures unchanged { IsTrue O.told → OnlySyncs (O.trace site.old) (O.trace site.new) }
    ensures cause { HasCause (O.faults site.old) (O.faults site.new) result }
    ensures puts { O.put_faults site.new ≡ O.put_faults site.old }
{
    let image_length = site.begin()?;
    site.sync()?;
    inspect(site, image_length)
}
