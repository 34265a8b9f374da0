//! How a plan takes its lines one after the other: the tests of a line, in order, and what it then says.
ghost use Rattle.std.specs.Prelude.{◌≡◌, ◌≤◌, IfOk, IfSome, OnOk};
ghost use Rattle.sdls_base.specs.Link.{IsInBounds};
ghost use Rattle.unit_plan.specs.Lines.{words_of};
ghost use Rattle.unit_plan.specs.PlanRules.{IsAssociation};
ghost use Rattle.unit_plan.specs.PlanError.{Gives};
ghost use Rattle.unit_plan.specs.LineForm.{bounded, channel_id, association_of};
ghost use Rattle.unit_plan.specs.Plan.{TakesPlanLine, in_order, is_on_link, version_taken, device_taken, slots_taken};
ghost use Rattle.unit_plan.specs.Plan.{number_in_order, link_admitted, channel_admitted, key_admitted, block_taken};
ghost use Rattle.unit_plan.specs.Plan.{accept_taken, link_taken, channel_taken, key_taken, admitted};
ghost use Rattle.unit_plan.specs.Plan.{association_added, association_taken, taken_as, taken, is_skipped, line_taken};

use crate::above::Expected;
use crate::bounds::{LEAST_SLOTS, MOST_COUNT, MOST_KEY, MOST_LINK, MOST_NUMBER, MOST_SPI};
use crate::key_line::{AssociationLine, are_channel_ids, association, key};
use crate::kind::{Kind, kind_of};
use crate::link_line::{ChannelPlace, channel, is_link, is_place, link};
use crate::plan::{Plan, PlanKey, PlanSa};
use crate::plan_error::{PlanCause, PlanError, check, refused};
use crate::reader::{Reader, device, number, version};
use sdls_base::{ChannelId, KeyId, KeyItem, Link, MOST_WINDOW, NewSa, Spi};
use std::alloc::Global;

fn bounded(n: u64, least: u64, most: u64) -> Option<u64>
    ensures same { result ≡ bounded least most n }
    ensures within { IfSome result (λ n. (least ≤ n) × (n ≤ most)) }
{
    if n < least || most < n {
        return None;
    }
    Some(n)
}

fn channel_id(n: u8) -> Option<ChannelId>
    ensures { result ≡ channel_id n }
{
    ChannelId::new(n)
}

fn key_id(n: u64) -> Option<KeyId>
    ensures { result ≡ bounded 1 65535 n }
{
    let n = bounded(n, 1, MOST_KEY)?;
    KeyId::new(n as u16)
}

fn spi(n: u64) -> Option<Spi>
    ensures { result ≡ bounded 1 65534 n }
{
    let n = bounded(n, 1, MOST_SPI)?;
    Spi::new(n as u16)
}

/// The association of a line whose numbers and list are within their bounds.
#[tactic(auto, unfolding(crate::specs::LineForm::association_of))]
fn association_of(line: u32, said: AssociationLine) -> Option<PlanSa>
    ensures said { result ≡ association_of line said }
    ensures bounds { IfSome result IsAssociation }
{
    let before = said.before;
    let spi = spi(before.spi)?;
    let key = key_id(before.key)?;
    let number = bounded(before.number, 0, MOST_NUMBER)?;
    let window = bounded(before.window, 1, MOST_WINDOW)?;
    if !are_channel_ids(said.channels.as_slice()) {
        return None;
    }
    Some(PlanSa {
        line,
        sa: NewSa {
            spi,
            direction: before.direction,
            suite: before.suite,
            window,
            channels: said.channels,
        },
        key,
        number,
    })
}

/// Whether the line is empty or a comment.
pub(crate) fn is_skipped(line: &[u8]) -> bool
    ensures { result ≡ is_skipped line.now }
{
    line.is_empty() || line[0] == b'#'
}

impl Plan {
    fn in_order(&self, line: u32, heads: u8) -> Result<(), PlanError>
        ensures { Gives result (in_order line self.now heads) }
    {
        check(line, PlanCause::Order, self.heads == heads)
    }

    #[tactic(auto, unfolding(crate::specs::Plan::version_taken))]
    fn take_version(&mut self, line: u32, words: &mut Reader<'_>) -> Result<(), PlanError>
        ensures { TakesPlanLine result (version_taken line self.old words.old) self.new }
    {
        version(words).ok_or(refused(line, PlanCause::Form))?;
        self.in_order(line, 0)?;
        self.heads = 1;
        Ok(())
    }

    #[tactic(auto, unfolding(crate::specs::Plan::device_taken))]
    fn take_device(&mut self, line: u32, words: &mut Reader<'_>) -> Result<(), PlanError>
        ensures { TakesPlanLine result (device_taken line self.old words.old) self.new }
    {
        let device = device(words).ok_or(refused(line, PlanCause::Form))?;
        self.in_order(line, 1)?;
        self.heads = 2;
        self.device = device;
        Ok(())
    }

    /// Takes the one number of a line behind so many of the first five.
    fn number_in_order(
        &self,
        line: u32,
        heads: u8,
        least: u64,
        words: &mut Reader<'_>,
    ) -> Result<u64, PlanError>
        ensures said { Gives result (number_in_order line self.now heads least 65536 words.old) }
        ensures within { IfOk result (λ n. (least ≤ n) × (n ≤ 65536)) }
    {
        let n = number(words, least).ok_or(refused(line, PlanCause::Form))?;
        self.in_order(line, heads)?;
        bounded(n, least, MOST_COUNT).ok_or(refused(line, PlanCause::Range))
    }

    #[tactic(auto, unfolding(crate::specs::Plan::slots_taken))]
    fn take_slots(&mut self, line: u32, words: &mut Reader<'_>) -> Result<(), PlanError>
        ensures { TakesPlanLine result (slots_taken line self.old words.old) self.new }
    {
        let n = self.number_in_order(line, 2, LEAST_SLOTS, words)?;
        self.heads = 3;
        self.slots = n as u32;
        Ok(())
    }

    #[tactic(auto, unfolding(crate::specs::Plan::block_taken))]
    fn take_block(&mut self, line: u32, words: &mut Reader<'_>) -> Result<(), PlanError>
        ensures { TakesPlanLine result (block_taken line self.old words.old) self.new }
    {
        let n = self.number_in_order(line, 3, 1, words)?;
        self.heads = 4;
        self.block = n;
        Ok(())
    }

    #[tactic(auto, unfolding(crate::specs::Plan::accept_taken))]
    fn take_accept(&mut self, line: u32, words: &mut Reader<'_>) -> Result<(), PlanError>
        ensures { TakesPlanLine result (accept_taken line self.old words.old) self.new }
    {
        let n = self.number_in_order(line, 4, 1, words)?;
        self.heads = 5;
        self.accept = n;
        Ok(())
    }

    /// Refuses a link in a place of the first five, out of its bounds, or that has a line already.
    fn admit_link(&self, line: u32, number: u8, link: &Link) -> Result<(), PlanError>
        ensures admitted { Gives result (link_admitted line self.now number link.now) }
        ensures bounds { OnOk result (IsInBounds link.now.layout) }
    {
        self.in_order(line, 5)?;
        check(line, PlanCause::Range, is_link(number, link))?;
        check(line, PlanCause::Twice, !self.has_link(number))
    }

    #[tactic(auto, unfolding(crate::specs::Plan::link_taken))]
    fn take_link(&mut self, line: u32, words: &mut Reader<'_>) -> Result<(), PlanError>
        ensures { TakesPlanLine result (link_taken line self.old words.old) self.new }
    {
        let said = link(words).ok_or(refused(line, PlanCause::Form))?;
        self.admit_link(line, said.0, &said.1)?;
        self.links.push(said)?;
        Ok(())
    }

    /// Whether the place is one on its link, where that has a line.
    fn is_on_link(&self, place: &ChannelPlace) -> bool
        ensures { result ≡ is_on_link self.now.links place.now }
    {
        match self.link(place.link) {
            Some(link) => is_place(link, place),
            None => true,
        }
    }

    /// The identifier of a channel that may have a line here.
    fn admit_channel(
        &self,
        line: u32,
        number: u8,
        place: &ChannelPlace,
    ) -> Result<ChannelId, PlanError>
        ensures { Gives result (channel_admitted line self.now number place.now) }
    {
        self.in_order(line, 5)?;
        let id = channel_id(number).ok_or(refused(line, PlanCause::Range))?;
        check(line, PlanCause::Range, place.link <= MOST_LINK)?;
        check(line, PlanCause::Range, self.is_on_link(place))?;
        check(line, PlanCause::Twice, !self.channels.has(number))?;
        check(line, PlanCause::Twice, !self.channels.has_place(place))?;
        check(line, PlanCause::Unknown, self.has_link(place.link))?;
        Ok(id)
    }

    #[tactic(auto, unfolding(crate::specs::Plan::channel_taken))]
    fn take_channel(&mut self, line: u32, words: &mut Reader<'_>) -> Result<(), PlanError>
        ensures { TakesPlanLine result (channel_taken line self.old words.old) self.new }
    {
        let (number, place) = channel(words).ok_or(refused(line, PlanCause::Form))?;
        let id = self.admit_channel(line, number, &place)?;
        self.channels.push(id, place)
    }

    /// The identifier of a key that may have a line here.
    fn admit_key(&self, line: u32, number: u64) -> Result<KeyId, PlanError>
        ensures { Gives result (key_admitted line self.now number) }
    {
        self.in_order(line, 5)?;
        let id = key_id(number).ok_or(refused(line, PlanCause::Range))?;
        check(line, PlanCause::Twice, !self.has_key(id))?;
        Ok(id)
    }

    #[tactic(auto, unfolding(crate::specs::Plan::key_taken))]
    fn take_key(
        &mut self,
        alloc: Global,
        line: u32,
        words: &mut Reader<'_>,
    ) -> Result<(), PlanError>
        ensures { TakesPlanLine result (key_taken line self.old words.old) self.new }
    {
        let said = key(alloc, words)?.ok_or(refused(line, PlanCause::Form))?;
        let id = self.admit_key(line, said.id)?;
        self.keys.push(PlanKey {
            line,
            item: KeyItem {
                id,
                bytes: said.octets,
            },
            state: said.state,
        })?;
        Ok(())
    }

    /// Refuses an association that has a line already, or names what has none.
    fn admit(&self, found: &PlanSa) -> Result<(), PlanError>
        ensures { Gives result (admitted self.now found.now) }
    {
        let knows_channels = self.channels.are_known(found.sa.channels.as_slice());
        check(
            found.line,
            PlanCause::Twice,
            !self.has_association(found.sa.spi),
        )?;
        check(found.line, PlanCause::Unknown, self.has_key(found.key))?;
        check(found.line, PlanCause::Unknown, knows_channels)
    }

    #[tactic(auto, unfolding(crate::specs::Plan::association_added))]
    fn add_association(&mut self, found: PlanSa) -> Result<(), PlanError>
        requires { IsAssociation found }
        ensures { TakesPlanLine result (association_added self.old found) self.new }
    {
        self.admit(&found)?;
        self.associations.push(found)?;
        Ok(())
    }

    #[tactic(auto, unfolding(crate::specs::Plan::association_taken))]
    fn take_association(
        &mut self,
        alloc: Global,
        line: u32,
        words: &mut Reader<'_>,
    ) -> Result<(), PlanError>
        ensures { TakesPlanLine result (association_taken line self.old words.old) self.new }
    {
        let said = association(alloc, words)?.ok_or(refused(line, PlanCause::Form))?;
        self.in_order(line, 5)?;
        match association_of(line, said) {
            Some(found) => self.add_association(found),
            None => Err(refused(line, PlanCause::Range)),
        }
    }

    fn take_as(
        &mut self,
        alloc: Global,
        line: u32,
        kind: Kind,
        words: &mut Reader<'_>,
    ) -> Result<(), PlanError>
        ensures { TakesPlanLine result (taken_as line self.old kind words.old) self.new }
    {
        match kind {
            Kind::Version => self.take_version(line, words),
            Kind::Device => self.take_device(line, words),
            Kind::Slots => self.take_slots(line, words),
            Kind::Block => self.take_block(line, words),
            Kind::Accept => self.take_accept(line, words),
            Kind::Link => self.take_link(line, words),
            Kind::Channel => self.take_channel(line, words),
            Kind::Key => self.take_key(alloc, line, words),
            Kind::Association => self.take_association(alloc, line, words),
        }
    }

    #[tactic(auto, unfolding(crate::specs::Plan::taken))]
    fn take(&mut self, alloc: Global, line: u32, words: &mut Reader<'_>) -> Result<(), PlanError>
        ensures { TakesPlanLine result (taken line self.old words.old) self.new }
    {
        let word = words
            .next(Expected::Kind)
            .ok_or(refused(line, PlanCause::Form))?;
        let kind = kind_of(word).ok_or(refused(line, PlanCause::Form))?;
        self.take_as(alloc, line, kind, words)
    }

    /// Takes a line, unless it is skipped.
    pub(crate) fn pass_line(
        &mut self,
        alloc: Global,
        line: u32,
        text: &[u8],
    ) -> Result<(), PlanError>
        ensures { TakesPlanLine result (line_taken line self.old text.now) self.new }
    {
        if is_skipped(text) {
            return Ok(());
        }
        self.take(alloc, line, &mut Reader::of(text))
    }
}
