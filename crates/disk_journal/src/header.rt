// The header of an image, and which of its two banks is the current one. The gates of a bank are read with their slots,
// a run of these in a call.
ghost use Rattle.byteorder.specs.Endian.{big_number};
ghost use Rattle.std.specs.Prelude.{◌≡◌, ◌+◌, ◌≤◌, ◌==◌, not, length, drop, MatchResult, ◌-◌, ◌*◌, ◌^◌, ◌<◌, IsTrue};
ghost use Rattle.std.specs.Prelude.{IfOk, slice_index, ◌≢◌, ◌⊎◌};
ghost use Rattle.std.specs.List.{list_any};
ghost use Rattle.sdls_base.specs.FirstFailing.{first_failing};
ghost use Rattle.sdls_outside.specs.Faults.{HasCause};
ghost use Rattle.disk_journal.specs.Header.{plan_length_in, slot_count_in, has_magic, form_in};
ghost use Rattle.disk_journal.specs.Banks.{layout_of, IsLayout, bank_length, slot_gate, bank_generation, next, chosen};
ghost use Rattle.disk_journal.specs.Fault.{header_checks, gate_checks, bank_checks};
ghost use Rattle.disk_journal.specs.Gates.{IsFirstClosed, IsFirstOther};
ghost use Rattle.disk_journal.specs.declared.layout.TheConstants.{OPEN};

use crate::layout::{
    Bank, CLOSED, CONTENT_AT, FIELD_LENGTH, GENERATION_AT, HEADER_LENGTH, HeaderForm, LEAST_SLOTS,
    Layout, MAGIC_AT, MAGIC_ONE, MAGIC_TWO, MIGRATED_AT, MOST_SLOTS, OPEN, PLAN_LENGTH_AT,
    PLAN_ROOM, RUN, RUN_LENGTH, SLOT_COUNT_AT, SLOT_LENGTH, next_generation,
};
use byteorder::{BigEndian, ByteOrder};
use sdls_outside::{Failed, Site};

/// What a header that passes its checks says.
#[derive(Clone, Copy, Debug)]
pub(crate) struct Header {
    pub(crate) plan_length: u32,
    pub(crate) layout: Layout,
}

/// The number that stands at `at`.
fn number_at(header: &[u8], at: u64) -> u32
    requires { at + FIELD_LENGTH ≤ length header.now }
    ensures { result ≡ big_number FIELD_LENGTH (drop at header.now) }
{
    BigEndian::read_u32(&header[at as usize..])
}

/// Whether an octet is not 0. All are looked at: so many are joined at a time.
pub(crate) fn has_other(octets: &[u8]) -> bool
    ensures { result ≡ list_any (λ octet. not (octet == 0)) octets.now }
{
    octets.iter().fold(0, |all, octet| all | *octet) != 0
}

/// Whether a header has this magic.
fn has_magic(header: &[u8], magic: &[u8; 8]) -> bool
    requires { length header.now ≡ HEADER_LENGTH }
    ensures { result ≡ has_magic magic.now header.now }
{
    header[MAGIC_AT as usize..PLAN_LENGTH_AT as usize] == magic[..]
}

/// The form of a header.
#[tactic(auto, unfolding(crate::specs::Header::form_in))]
fn form_in(header: &[u8]) -> HeaderForm
    requires { length header.now ≡ HEADER_LENGTH }
    ensures { result ≡ form_in header.now }
{
    if has_magic(header, &MAGIC_TWO) {
        HeaderForm::New
    } else if header[MIGRATED_AT as usize] == OPEN {
        HeaderForm::Migrated
    } else {
        HeaderForm::Old
    }
}

/// The offset of the first check of the header that fails.
fn header_fault(header: &[u8], image_length: u64) -> Option<u64>
    requires { length header.now ≡ HEADER_LENGTH }
    ensures { result ≡ first_failing (header_checks header.now image_length) }
{
    let slots = number_at(header, SLOT_COUNT_AT);
    let form = form_in(header);
    if header[0] != OPEN {
        return Some(0);
    }
    if !has_magic(header, &MAGIC_ONE) && !has_magic(header, &MAGIC_TWO) {
        return Some(MAGIC_AT);
    }
    if number_at(header, PLAN_LENGTH_AT) as u64 > PLAN_ROOM {
        return Some(PLAN_LENGTH_AT);
    }
    if slots < LEAST_SLOTS || slots > MOST_SLOTS {
        return Some(SLOT_COUNT_AT);
    }
    if image_length < Layout::new(form, slots).end() {
        return Some(image_length);
    }
    if has_other(&header[form.zeros_at() as usize..]) {
        return Some(form.zeros_at());
    }
    None
}

/// Reads a header, of an image of this length, or names the offset of the first check that fails.
pub(crate) fn read_header(header: &[u8], image_length: u64) -> Result<Header, u64>
    requires { length header.now ≡ HEADER_LENGTH }
    ensures checked { MatchResult result (λ _. first_failing (header_checks header.now image_length) ≡ None)
        (λ offset. first_failing (header_checks header.now image_length) ≡ Some offset) }
    ensures found { MatchResult result (λ found. (found.plan_length ≡ plan_length_in header.now)
        × (found.layout ≡ layout_of (form_in header.now) (slot_count_in header.now)) × (found.plan_length ≤ PLAN_ROOM)
        × IsLayout found.layout)
        (λ _. Unit {0}) }
{
    match header_fault(header, image_length) {
        Some(offset) => Err(offset),
        None => Ok(Header {
            plan_length: number_at(header, PLAN_LENGTH_AT),
            layout: Layout::new(form_in(header), number_at(header, SLOT_COUNT_AT)),
        }),
    }
}

/// The first of so many slots whose gate is not this octet, or their number if all have it.
fn first_other_of(slots: &[u8], count: u32, gate: u8) -> u32
    requires { length slots.now ≡ SLOT_LENGTH * count }
    ensures { IsFirstOther (λ i. slice_index slots.now (SLOT_LENGTH * i)) gate 0 count result }
{
    for index in 0..count {
        if slots[SLOT_LENGTH as usize * index as usize] != gate {
            return index;
        }
    }
    count
}

/// The first slot from `first` on, and before `end`, whose gate is not this octet, or `end` if all have it. The slots
/// are read into `slots`.
fn first_other_in_run<O: Site>(
    site: &mut O,
    layout: Layout,
    bank: u64,
    first: u32,
    end: u32,
    gate: u8,
    slots: &mut [u8],
) -> Result<u32, Failed>
    requires ordered { first ≤ end }
    requires slots { end ≤ layout.slots }
    requires room { length slots.old ≡ SLOT_LENGTH * (end - first) }
    requires place { bank + bank_length layout < 2 ^ 64 }
    requires within { IsTrue O.told → bank + bank_length layout ≤ length (O.trace site.old).now.image }
    ensures within { IfOk result (λ index. index ≤ end) }
    ensures found { IsTrue O.told → IfOk result
        (IsFirstOther (slot_gate layout (O.trace site.old).now.image bank) gate first end) }
    ensures same { IsTrue O.told → O.trace site.new ≡ O.trace site.old }
    ensures cause { HasCause (O.faults site.old) (O.faults site.new) result }
    ensures puts { O.put_faults site.new ≡ O.put_faults site.old }
{
    site.read_at(layout.slot_at(bank, first), slots)?;
    Ok(first + first_other_of(slots, end - first, gate))
}

/// The first slot from `from` on whose gate is not this octet, or the number of slots if all have it.
fn first_other<O: Site>(
    site: &mut O,
    layout: Layout,
    bank: u64,
    from: u32,
    gate: u8,
) -> Result<u32, Failed>
    requires place { bank + bank_length layout < 2 ^ 64 }
    requires within { IsTrue O.told → bank + bank_length layout ≤ length (O.trace site.old).now.image }
    ensures within { IfOk result (λ index. index ≤ layout.slots) }
    ensures found { IsTrue O.told → IfOk result
        (IsFirstOther (slot_gate layout (O.trace site.old).now.image bank) gate from layout.slots) }
    ensures same { IsTrue O.told → O.trace site.new ≡ O.trace site.old }
    ensures cause { HasCause (O.faults site.old) (O.faults site.new) result }
    ensures puts { O.put_faults site.new ≡ O.put_faults site.old }
{
    let mut room = [0; RUN_LENGTH];
    let mut first = from;
    while first < layout.slots {
        let count = RUN.min(layout.slots - first);
        let end = first + count;
        let slots = &mut room[..SLOT_LENGTH as usize * count as usize];
        let index = first_other_in_run(site, layout, bank, first, end, gate, slots)?;
        if index < end {
            return Ok(index);
        }
        first = end;
    }
    Ok(layout.slots)
}

/// The first closed one of the slots, or their number if none is closed.
pub(crate) fn first_closed<O: Site>(site: &mut O, layout: Layout, bank: u64) -> Result<u32, Failed>
    requires place { bank + bank_length layout < 2 ^ 64 }
    requires within { IsTrue O.told → bank + bank_length layout ≤ length (O.trace site.old).now.image }
    ensures within { IfOk result (λ index. index ≤ layout.slots) }
    ensures found { IsTrue O.told → IfOk result
        (IsFirstClosed (slot_gate layout (O.trace site.old).now.image bank) layout.slots) }
    ensures same { IsTrue O.told → O.trace site.new ≡ O.trace site.old }
    ensures cause { HasCause (O.faults site.old) (O.faults site.new) result }
    ensures puts { O.put_faults site.new ≡ O.put_faults site.old }
{
    first_other(site, layout, bank, 0, OPEN)
}

/// Where the first slot from `from` on begins whose gate is not 0.
pub(crate) fn stray_gate<O: Site>(
    site: &mut O,
    layout: Layout,
    bank: u64,
    from: u32,
) -> Result<Option<u64>, Failed>
    requires place { bank + bank_length layout < 2 ^ 64 }
    requires within { IsTrue O.told → bank + bank_length layout ≤ length (O.trace site.old).now.image }
    ensures found { IsTrue O.told → IfOk result (λ stray. stray ≡ first_failing
        (gate_checks layout bank (slot_gate layout (O.trace site.old).now.image bank) (layout.slots - from) from)) }
    ensures same { IsTrue O.told → O.trace site.new ≡ O.trace site.old }
    ensures cause { HasCause (O.faults site.old) (O.faults site.new) result }
    ensures puts { O.put_faults site.new ≡ O.put_faults site.old }
{
    let index = first_other(site, layout, bank, from, CLOSED)?;
    if index < layout.slots {
        return Ok(Some(layout.slot_at(bank, index)));
    }
    Ok(None)
}

/// What stands at the front of a bank: whether its gate is open, and its generation.
#[derive(Clone, Copy, Debug)]
pub(crate) struct Front {
    pub(crate) open: bool,
    pub(crate) generation: u64,
}

/// Reads the front of the bank that begins at `bank`.
pub(crate) fn read_front<O: Site>(site: &mut O, bank: u64) -> Result<Front, Failed>
    requires place { bank + CONTENT_AT < 2 ^ 64 }
    requires within { IsTrue O.told → bank + CONTENT_AT ≤ length (O.trace site.old).now.image }
    ensures front { IsTrue O.told → IfOk result (λ front.
        (front.open ≡ (slice_index (O.trace site.old).now.image bank == OPEN))
        × (front.generation ≡ bank_generation (O.trace site.old).now.image bank)) }
    ensures same { IsTrue O.told → O.trace site.new ≡ O.trace site.old }
    ensures cause { HasCause (O.faults site.old) (O.faults site.new) result }
    ensures puts { O.put_faults site.new ≡ O.put_faults site.old }
{
    let mut octets = [0; CONTENT_AT as usize];
    site.read_at(bank, &mut octets)?;
    Ok(Front {
        open: octets[0] == OPEN,
        generation: BigEndian::read_u64(&octets[GENERATION_AT as usize..]),
    })
}

/// Chooses the current bank by the fronts of the two, which begin at these places. Answers the offset of
/// the first check that fails, if one does.
pub(crate) fn choose(
    first: Front,
    second: Front,
    first_at: u64,
    second_at: u64,
) -> Result<Bank, u64>
    requires { second_at + GENERATION_AT < 2 ^ 64 }
    ensures checked { MatchResult result
        (λ bank. first_failing
        (bank_checks first.open second.open first.generation second.generation first_at second_at) ≡ None)
        (λ offset. first_failing
        (bank_checks first.open second.open first.generation second.generation first_at second_at) ≡ Some offset) }
    ensures chosen { MatchResult result
        (λ bank. bank ≡ chosen first.open second.open (second.generation == next first.generation))
        (λ offset. Unit {0}) }
{
    match (first.open, second.open) {
        (false, false) => Err(first_at),
        (true, false) => Ok(Bank::First),
        (false, true) => Ok(Bank::Second),
        (true, true) => newer(first.generation, second.generation, second_at),
    }
}

/// Chooses the newer one of two open banks.
fn newer(first: u64, second: u64, second_at: u64) -> Result<Bank, u64>
    requires { second_at + GENERATION_AT < 2 ^ 64 }
    ensures { MatchResult result
        (λ bank. ((bank ≡ Bank.Second) × (second ≡ next first))
        ⊎ ((bank ≡ Bank.First) × (second ≢ next first) × (first ≡ next second)))
        (λ offset. (offset ≡ second_at + GENERATION_AT) × (second ≢ next first) × (first ≢ next second)) }
{
    if second == next_generation(first) {
        Ok(Bank::Second)
    } else if first == next_generation(second) {
        Ok(Bank::First)
    } else {
        Err(second_at + GENERATION_AT)
    }
}
