//! `link` and `channel` lines.
ghost use Rattle.std.specs.Prelude.{◌≡◌, ◌≤◌, IfSome, IsTrue};
ghost use Rattle.sdls_base.specs.Link.{IsInBounds};
ghost use Rattle.unit_plan.specs.Reading.{Reads};
ghost use Rattle.unit_plan.specs.LinkLine.{mask_at, tc_at, tm_at, aos_at, frame_at, link_said, is_link};
ghost use Rattle.unit_plan.specs.ChannelLine.{channel_said, is_same_number, is_same_place, is_map, is_place};

use crate::above::{ChannelWord, Expected, LinkWord};
use crate::bounds::{
    LEAST_LENGTH, MOST_AOS_CHANNEL, MOST_AOS_SPACECRAFT, MOST_CHANNEL, MOST_INSERT, MOST_LENGTH,
    MOST_LINK, MOST_MAP, MOST_SPACECRAFT, MOST_TC_CHANNEL, MOST_TM_CHANNEL,
};
use crate::fields::{choice, octet, optional, short};
use crate::reader::Reader;
use sdls_base::{AnyLayout, AosLayout, Link, Mask, TcLayout, TmLayout};

/// Takes a mask as long as the usual one, for which `-` stands.
#[tactic(auto, unfolding(crate::specs::LinkLine::mask_at))]
fn mask(words: &mut Reader<'_>, usual: Mask) -> Option<Mask>
    requires { usual.length ≤ 6 }
    ensures read { Reads result (mask_at usual words.old) words.new }
    ensures within { IfSome result (λ mask. mask.length ≤ 6) }
{
    let expected = Expected::Link(LinkWord::Mask(usual.length));
    let word = words.next(expected)?;
    if word == b"-".as_slice() {
        return Some(usual);
    }
    let mut octets = [0; 6];
    match hex::decode_to_slice(word, &mut octets[..usize::from(usual.length)]) {
        Ok(()) => Some(Mask {
            octets,
            length: usual.length,
        }),
        Err(_) => {
            words.note(expected);
            None
        }
    }
}

#[tactic(auto, unfolding(crate::specs::LinkLine::tc_at))]
fn tc(words: &mut Reader<'_>) -> Option<Link>
    ensures read { Reads result (tc_at words.old) words.new }
    ensures mask { IfSome result (λ link. link.mask.length ≤ 6) }
{
    let segment = choice(words, b"seg", b"noseg", Expected::Link(LinkWord::Segments))?;
    let fecf = choice(words, b"fecf", b"nofecf", Expected::Link(LinkWord::Fecf))?;
    let mask = mask(words, Mask::usual_tc(segment))?;
    Some(Link {
        layout: AnyLayout::Tc(TcLayout {
            segment,
            fecf,
            most: 1_024,
        }),
        mask,
    })
}

#[tactic(auto, unfolding(crate::specs::LinkLine::tm_at))]
fn tm(words: &mut Reader<'_>) -> Option<Link>
    ensures read { Reads result (tm_at words.old) words.new }
    ensures mask { IfSome result (λ link. link.mask.length ≤ 6) }
{
    let length = short(
        words,
        LEAST_LENGTH,
        MOST_LENGTH,
        Expected::Link(LinkWord::Length),
    )?;
    let fecf = choice(words, b"fecf", b"nofecf", Expected::Link(LinkWord::Fecf))?;
    let mask = mask(words, Mask::usual_tm())?;
    Some(Link {
        layout: AnyLayout::Tm(TmLayout { length, fecf }),
        mask,
    })
}

#[tactic(auto, unfolding(crate::specs::LinkLine::aos_at))]
fn aos(words: &mut Reader<'_>) -> Option<Link>
    ensures read { Reads result (aos_at words.old) words.new }
    ensures mask { IfSome result (λ link. link.mask.length ≤ 6) }
{
    let length = short(
        words,
        LEAST_LENGTH,
        MOST_LENGTH,
        Expected::Link(LinkWord::Length),
    )?;
    let place = words.place();
    let insert = octet(words, MOST_INSERT, Expected::Link(LinkWord::Insert))?;
    let least = LEAST_LENGTH + u16::from(insert);
    words.test_at(
        place,
        length >= least,
        Expected::Link(LinkWord::LengthFrom(u64::from(least))),
    );
    let ocf = choice(words, b"ocf", b"noocf", Expected::Link(LinkWord::Ocf))?;
    let fecf = choice(words, b"fecf", b"nofecf", Expected::Link(LinkWord::Fecf))?;
    let mask = mask(words, Mask::usual_aos())?;
    Some(Link {
        layout: AnyLayout::Aos(AosLayout {
            length,
            insert,
            ocf,
            fecf,
        }),
        mask,
    })
}

#[tactic(auto, unfolding(crate::specs::LinkLine::frame_at))]
fn frame(words: &mut Reader<'_>) -> Option<Link>
    ensures read { Reads result (frame_at words.old) words.new }
    ensures mask { IfSome result (λ link. link.mask.length ≤ 6) }
{
    let expected = Expected::Link(LinkWord::Frames);
    let kind = words.next(expected)?;
    if kind == b"tc".as_slice() {
        return tc(words);
    }
    if kind == b"tm".as_slice() {
        return tm(words);
    }
    if kind == b"aos".as_slice() {
        return aos(words);
    }
    words.note(expected);
    None
}

/// The number of a link, and what its line says of it.
#[tactic(auto, unfolding(crate::specs::LinkLine::link_said))]
pub(crate) fn link(words: &mut Reader<'_>) -> Option<(u8, Link)>
    ensures said { result ≡ link_said words.old }
    ensures mask { IfSome result (λ said. said.1.mask.length ≤ 6) }
{
    let number = octet(words, MOST_LINK, Expected::Link(LinkWord::Number))?;
    let link = frame(words)?;
    words.end()?;
    Some((number, link))
}

/// Whether number and lengths are within their bounds.
pub(crate) fn is_link(number: u8, link: &Link) -> bool
    ensures tested { result ≡ is_link number link.now }
    ensures bounds { IsTrue result → IsInBounds link.now.layout }
{
    if number > MOST_LINK {
        return false;
    }
    match &link.layout {
        AnyLayout::Tc(layout) => layout.most == 1_024,
        AnyLayout::Tm(layout) => layout.length >= LEAST_LENGTH && layout.length <= MOST_LENGTH,
        AnyLayout::Aos(layout) => {
            layout.insert <= MOST_INSERT
                && layout.length >= LEAST_LENGTH + u16::from(layout.insert)
                && layout.length <= MOST_LENGTH
        }
    }
}

/// Where a channel lies.
#[derive(Clone, Copy, Debug, PartialEq, Eq)]
pub struct ChannelPlace {
    /// The number of its link.
    pub link: u8,
    pub spacecraft: u16,
    pub channel: u8,
    /// The multiplexer access point, on a TC link with segment headers.
    pub map: Option<u8>,
}

/// The number of a channel, and its place. One that the link has no room for is noted, and read too.
#[tactic(auto, unfolding(crate::specs::ChannelLine::channel_said))]
pub(crate) fn channel(words: &mut Reader<'_>) -> Option<(u8, ChannelPlace)>
    ensures { result ≡ channel_said words.old }
{
    let number = octet(words, MOST_CHANNEL, Expected::Channel(ChannelWord::Number))?;
    let link = octet(words, MOST_LINK, Expected::Link(LinkWord::Number))?;
    let room = words.room_on(link);
    let expected = Expected::Channel(ChannelWord::Spacecraft(u64::from(room.spacecraft)));
    let spacecraft = short(words, 0, room.spacecraft, expected)?;
    let expected = Expected::Channel(ChannelWord::VirtualChannel(u64::from(room.channel)));
    let channel = octet(words, room.channel, expected)?;
    let map = optional(words, room.map)?;
    words.end()?;
    Some((
        number,
        ChannelPlace {
            link,
            spacecraft,
            channel,
            map,
        },
    ))
}

fn is_same_number(a: Option<u8>, b: Option<u8>) -> bool
    ensures { result ≡ is_same_number a b }
{
    match (a, b) {
        (None, None) => true,
        (Some(a), Some(b)) => a == b,
        _ => false,
    }
}

pub(crate) fn is_same_place(a: &ChannelPlace, b: &ChannelPlace) -> bool
    ensures { result ≡ is_same_place a.now b.now }
{
    a.link == b.link
        && a.spacecraft == b.spacecraft
        && a.channel == b.channel
        && is_same_number(a.map, b.map)
}

/// Whether an access point is there exactly where the link wants one, and in bounds.
fn is_map(wanted: bool, map: Option<u8>) -> bool
    ensures { result ≡ is_map wanted map }
{
    match map {
        Some(map) => wanted && map <= MOST_MAP,
        None => !wanted,
    }
}

/// Whether the place is one on the link.
pub(crate) fn is_place(link: &Link, place: &ChannelPlace) -> bool
    ensures { result ≡ is_place link.now.layout place.now }
{
    match &link.layout {
        AnyLayout::Tc(layout) => {
            place.spacecraft <= MOST_SPACECRAFT
                && place.channel <= MOST_TC_CHANNEL
                && is_map(layout.segment, place.map)
        }
        AnyLayout::Tm(_) => {
            place.spacecraft <= MOST_SPACECRAFT
                && place.channel <= MOST_TM_CHANNEL
                && is_map(false, place.map)
        }
        AnyLayout::Aos(_) => {
            place.spacecraft <= MOST_AOS_SPACECRAFT
                && place.channel <= MOST_AOS_CHANNEL
                && is_map(false, place.map)
        }
    }
}
