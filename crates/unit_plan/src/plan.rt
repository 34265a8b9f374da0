ghost use Rattle.std.specs.Prelude.{◌≡◌, ◌≤◌, length, map, All, IfOk, IfSome, ◌||◌, [], ◌∷◌, ◌++◌, OnOk, IfErr};
ghost use Rattle.std.specs.Option.{option_map};
ghost use Rattle.sdls_base.specs.Bounds.{IsKeyLength};
ghost use Rattle.sdls_base.specs.Link.{IsLink};
ghost use Rattle.unit_plan.specs.Lines.{lines_of};
ghost use Rattle.unit_plan.specs.PlanError.{Gives};
ghost use Rattle.unit_plan.specs.Channels.{channel_at, has_channel, has_place, are_known};
ghost use Rattle.unit_plan.specs.PlanLines.{no_lines, link_of, has_link, has_key, has_association};
ghost use Rattle.unit_plan.specs.PlanRules.{IsAssociation};
ghost use Rattle.unit_plan.specs.Plan.{plan_of, plan_after};

use crate::MOST_OCTETS;
use crate::lines::Lines;
use crate::link_line::{ChannelPlace, is_same_place};
use crate::plan_error::{PlanCause, PlanError, check, refused};
use sdls_base::{ChannelId, KeyId, KeyItem, KeyState, Link, NewSa, NoMemory, Spi};
use std::alloc::Global;
use std::marker::Model;

/// What a `key` line says.
#[derive(Clone, Debug, Drop)]
pub struct PlanKey {
    /// The number of the line.
    pub line: u32,
    pub item: KeyItem,
    /// Pre-active or active.
    pub state: KeyState,
}

/// What an `sa` line says.
#[derive(Clone, Debug, Drop)]
pub struct PlanSa {
    /// The number of the line.
    pub line: u32,
    pub sa: NewSa,
    pub key: KeyId,
    /// The first number that it may use or accept.
    pub number: u64,
}

/// What the lines of a plan say.
#[derive(Drop)]
pub struct Plan {
    // How many of the first five lines were read.
    pub(crate) heads: u8,
    pub(crate) device: [u8; 4],
    pub(crate) slots: u32,
    pub(crate) block: u64,
    pub(crate) accept: u64,
    pub(crate) links: Vec<(u8, Link)>,
    pub(crate) channels: Channels,
    pub(crate) keys: Vec<PlanKey>,
    pub(crate) associations: Vec<PlanSa>,
}

impl Model for Plan {
    ghost use Rattle.unit_plan.specs.PlanLines.{PlanLines};
    ghost use Rattle.unit_plan.specs.PlanRules.{IsPlan};

    ghost Value = { PlanLines };

    ghost view = { λ plan. record {
      heads = plan.heads;
      device = plan.device;
      slots = plan.slots;
      block = plan.block;
      accept = plan.accept;
      links = plan.links.items;
      channels = plan.channels;
      keys = plan.keys.items;
      associations = plan.associations.items;
    } };

    ghost invariant = { λ plan. IsPlan (record {
      heads = plan.heads;
      device = plan.device;
      slots = plan.slots;
      block = plan.block;
      accept = plan.accept;
      links = plan.links.items;
      channels = plan.channels;
      keys = plan.keys.items;
      associations = plan.associations.items;
    }) };
}

impl Plan {
    pub(crate) fn new(alloc: Global) -> Plan
        ensures { result ≡ no_lines }
    {
        Plan {
            heads: 0,
            device: [0; 4],
            slots: 16,
            block: 1,
            accept: 1,
            links: Vec::new(alloc),
            channels: Channels::new(alloc),
            keys: Vec::new(alloc),
            associations: Vec::new(alloc),
        }
    }

    /// Reads the text of a plan, of at most [`MOST_OCTETS`] octets: what its lines say, or the first line that has a
    /// cause, with the first cause that it has.
    pub fn read(alloc: Global, text: &[u8]) -> Result<Plan, PlanError>
        ensures { Gives result (plan_of text.now) }
    {
        if text.len() > MOST_OCTETS {
            return Err(refused(1, PlanCause::Long));
        }
        Plan::read_lines(alloc, text)
    }

    fn read_lines(alloc: Global, text: &[u8]) -> Result<Plan, PlanError>
        requires { length text.now ≤ 65536 }
        ensures { Gives result (plan_after 1 no_lines (lines_of text.now)) }
    {
        let mut plan = Plan::new(alloc);
        let mut number = 1;
        for line in Lines::of(text) {
            plan.pass_line(alloc, number, line)?;
            number += 1;
        }
        check(number, PlanCause::Order, plan.heads == 5)?;
        Ok(plan)
    }

    /// An equal plan.
    pub fn copy(&self) -> Result<Plan, NoMemory>
        ensures { IfOk result (λ plan. plan ≡ self.now) }
    {
        Ok(Plan {
            heads: self.heads,
            device: self.device,
            slots: self.slots,
            block: self.block,
            accept: self.accept,
            links: self.links.clone()?,
            channels: self.channels.copy()?,
            keys: self.keys.clone()?,
            associations: self.associations.clone()?,
        })
    }

    /// The unit's device field.
    pub fn device(&self) -> [u8; 4]
        ensures { result ≡ self.now.device }
    {
        self.device
    }

    /// The slots of the image.
    pub fn slots(&self) -> u32
        ensures line { result ≡ self.now.slots }
        ensures bounds { (16 ≤ result) × (result ≤ 65536) }
    {
        self.slots
    }

    /// How many numbers a reserve takes.
    pub fn block(&self) -> u64
        ensures line { result ≡ self.now.block }
        ensures bounds { (1 ≤ result) × (result ≤ 65536) }
    {
        self.block
    }

    /// After how many accepted numbers a floor is stored.
    pub fn accept(&self) -> u64
        ensures line { result ≡ self.now.accept }
        ensures bounds { (1 ≤ result) × (result ≤ 65536) }
    {
        self.accept
    }

    /// What the line of a link says.
    pub fn link(&self, link: u8) -> Option<&Link>
        ensures line { option_map (λ found. found.now) result ≡ link_of self.now.links link }
        ensures bounds { IfSome result (λ found. IsLink found.now) }
    {
        let entry = self.links.iter().find(|entry| entry.0 == link)?;
        Some(&entry.1)
    }

    /// The channel on a link with this spacecraft, virtual channel and multiplexer access point.
    pub fn channel_of(
        &self,
        link: u8,
        spacecraft: u16,
        channel: u8,
        map: Option<u8>,
    ) -> Option<ChannelId>
        ensures { result ≡ channel_at self.now.channels
            (record { link = link; spacecraft = spacecraft; channel = channel; map = map }) }
    {
        self.channels.at(&ChannelPlace {
            link,
            spacecraft,
            channel,
            map,
        })
    }

    /// The channels, in the order of the lines.
    pub fn channels(&self) -> &[ChannelId]
        ensures { result.now ≡ map (λ row. row.0) self.now.channels }
    {
        self.channels.ids()
    }

    /// The keys, in the order of the lines.
    pub fn keys(&self) -> &[PlanKey]
        ensures lines { result.now ≡ self.now.keys }
        ensures lengths { All (λ key. IsKeyLength (length key.item.bytes)) result.now }
    {
        self.keys.as_slice()
    }

    /// The security associations, in the order of the lines.
    pub fn associations(&self) -> &[PlanSa]
        ensures lines { result.now ≡ self.now.associations }
        ensures bounds { All IsAssociation result.now }
    {
        self.associations.as_slice()
    }

    pub(crate) fn has_link(&self, link: u8) -> bool
        ensures { result ≡ has_link self.now.links link }
    {
        self.links.iter().any(|entry| entry.0 == link)
    }

    pub(crate) fn has_key(&self, id: KeyId) -> bool
        ensures { result ≡ has_key self.now.keys id }
    {
        self.keys.iter().any(|key| key.item.id == id)
    }

    pub(crate) fn has_association(&self, spi: Spi) -> bool
        ensures { result ≡ has_association self.now.associations spi }
    {
        self.associations.iter().any(|known| known.sa.spi == spi)
    }
}

/// The channels of a plan with their places, in the order of the lines.
#[derive(Drop)]
pub(crate) struct Channels {
    rows: Vec<(ChannelId, ChannelPlace)>,
    ids: Vec<ChannelId>,
}

impl Model for Channels {
    ghost use Rattle.std.specs.Prelude.{◌≡◌, ℕ, List, map};
    ghost use Rattle.unit_plan.specs.declared.link_line.ChannelPlace.{ChannelPlace};

    ghost Value = { List (ℕ × ChannelPlace) };

    ghost view = { λ channels. channels.rows.items };

    ghost invariant = { λ channels. channels.ids.items ≡ map (λ row. row.0) channels.rows.items };
}

impl Channels {
    pub(crate) fn new(alloc: Global) -> Channels
        ensures { result ≡ [] }
    {
        Channels {
            rows: Vec::new(alloc),
            ids: Vec::new(alloc),
        }
    }

    pub(crate) fn push(&mut self, id: ChannelId, place: ChannelPlace) -> Result<(), PlanError>
        ensures added { OnOk result (self.new ≡ self.old ++ (id, place) ∷ []) }
        ensures refused { IfErr result (λ e. e ≡ PlanError.NoMemory) }
    {
        self.ids.push(id)?;
        match self.rows.push((id, place)) {
            Ok(()) => Ok(()),
            Err(_) => {
                self.ids.pop();
                Err(PlanError::NoMemory)
            }
        }
    }

    /// Equal channels.
    pub(crate) fn copy(&self) -> Result<Channels, NoMemory>
        ensures { IfOk result (λ channels. channels ≡ self.now) }
    {
        Ok(Channels {
            rows: self.rows.clone()?,
            ids: self.ids.clone()?,
        })
    }

    pub(crate) fn ids(&self) -> &[ChannelId]
        ensures { result.now ≡ map (λ row. row.0) self.now }
    {
        self.ids.as_slice()
    }

    /// Whether a channel has this number.
    pub(crate) fn has(&self, number: u8) -> bool
        ensures { result ≡ has_channel self.now number }
    {
        self.rows.iter().any(|row| row.0.get() == number)
    }

    pub(crate) fn has_place(&self, place: &ChannelPlace) -> bool
        ensures { result ≡ has_place self.now place.now }
    {
        self.rows.iter().any(|row| is_same_place(&row.1, place))
    }

    /// The channel at a place.
    pub(crate) fn at(&self, place: &ChannelPlace) -> Option<ChannelId>
        ensures { result ≡ channel_at self.now place.now }
    {
        let row = self.rows.iter().find(|row| is_same_place(&row.1, place))?;
        Some(row.0)
    }

    /// Whether each number is a channel's.
    pub(crate) fn are_known(&self, numbers: &[u8]) -> bool
        ensures { result ≡ are_known self.now numbers.now }
    {
        for number in numbers {
            if !self.has(*number) {
                return false;
            }
        }
        true
    }
}
