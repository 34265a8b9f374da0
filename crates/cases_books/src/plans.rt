// The text of a plan, with a place for a case, and what is read of it: a line for each of its lines, and its bare plan.
use case_lines::{Digits, Page, Words, octet, short};
use sdls_base::{AnyLayout, ChannelId, Link};
use std::alloc::Global;
use std::str;
use unit_plan::{Plan, PlanKey, PlanSa, write_bare_plan};

/// What stands before the place of a case, and what behind it.
#[derive(Drop)]
pub struct Text {
    before: Vec<u8>,
    behind: Vec<u8>,
}

/// Writes the octets of a line, in which `\` and two digits stand for one.
fn put(out: &mut Vec<u8>, line: &str, page: &mut Page) {
    let mut digits = 0;
    for part in line.split('\\') {
        let (octet, rest) = part.split_at_checked(digits).unwrap_or(("", part));
        let octet = page.octets_at(octet, 0);
        page.check(out.extend_from_slice(&octet));
        page.check(out.extend_from_slice(rest.as_bytes()));
        digits = 2;
    }
}

impl Text {
    /// The empty text.
    pub fn new(alloc: Global) -> Text {
        Text {
            before: Vec::new(alloc),
            behind: Vec::new(alloc),
        }
    }

    /// Changes the text: `: LINE` writes a line and its line feed before the place, `; LINE` a line feed and a line
    /// behind it, and `fill N` number signs before it, up to so many octets.
    pub fn change(&mut self, word: &str, rest: &str, page: &mut Page) {
        match word {
            ":" => {
                put(&mut self.before, rest, page);
                page.check(self.before.push(b'\n'));
            }
            ";" => {
                page.check(self.behind.push(b'\n'));
                put(&mut self.behind, rest, page);
            }
            _ => page.check(self.before.resize(rest.parse().unwrap_or(0), b'#')),
        }
    }

    /// The text with a case in its place.
    pub fn with(&self, case: &str, page: &mut Page) -> Vec<u8> {
        let mut octets = page.copy(&self.before);
        put(&mut octets, case, page);
        page.check(octets.extend_from_slice(&self.behind));
        octets
    }
}

/// Writes the words for a layout.
fn write_layout(layout: &AnyLayout, page: &mut Page) {
    match layout {
        AnyLayout::Tc(tc) => {
            write!(page, "tc segment {} fecf {}", tc.segment, tc.fecf);
            write!(page, " most {}", tc.most);
        }
        AnyLayout::Tm(tm) => write!(page, "tm length {} fecf {}", tm.length, tm.fecf),
        AnyLayout::Aos(aos) => {
            write!(page, "aos length {} insert {}", aos.length, aos.insert);
            write!(page, " ocf {} fecf {}", aos.ocf, aos.fecf);
        }
    }
}

fn write_link(number: u8, link: &Link, page: &mut Page) {
    write!(page, "\nlink {number} ");
    write_layout(&link.layout, page);
    let (octets, length) = (Digits(link.mask.octets.as_slice()), link.mask.length);
    write!(page, " mask {octets} of {length}");
}

fn write_key(key: &PlanKey, page: &mut Page) {
    let (line, id, state) = (key.line, key.item.id.get(), key.state);
    let octets = Digits(key.item.bytes.as_slice());
    write!(page, "\nline {line} key {id} {state:?} {octets}");
}

fn write_association(known: &PlanSa, page: &mut Page) {
    let (line, spi, sa) = (known.line, known.sa.spi.get(), &known.sa);
    let (direction, suite, channels) = (sa.direction, sa.suite, Digits(sa.channels.as_slice()));
    write!(page, "\nline {line} sa {spi} {direction:?} {suite:?}");
    write!(page, " key {} number {}", known.key.get(), known.number);
    write!(page, " window {} channels {channels}", sa.window);
}

/// Writes the links of a plan, and its channels.
fn write_links(plan: &Plan, page: &mut Page) {
    for number in 0..=u8::MAX {
        if let Some(link) = plan.link(number) {
            write_link(number, link, page);
        }
    }
    for channel in plan.channels() {
        write!(page, "\nchannel {}", channel.get());
    }
}

/// Writes all that is read of a plan, a line for each of its lines.
fn write_plan(plan: &Plan, page: &mut Page) {
    page.push_str("device ");
    page.push_digits(plan.device().as_slice());
    let (slots, block, accept) = (plan.slots(), plan.block(), plan.accept());
    write!(page, " slots {slots} block {block} accept {accept}");
    write_links(plan, page);
    for key in plan.keys() {
        write_key(key, page);
    }
    for known in plan.associations() {
        write_association(known, page);
    }
}

/// The channel of link, spacecraft, channel and MAP.
fn channel(plan: &Plan, words: &mut Words<'_>) -> Option<ChannelId> {
    let (link, spacecraft, channel) = (octet(words)?, short(words)?, octet(words)?);
    plan.channel_of(link, spacecraft, channel, octet(words))
}

/// Writes the channel of a place, which is given in words.
fn write_place(plan: &Plan, words: &str, page: &mut Page) {
    match channel(plan, &mut words.split_whitespace()) {
        Some(channel) => write!(page, "{words}: channel {}", channel.get()),
        None => write!(page, "{words}: none"),
    }
}

/// Writes what the reader answers.
pub fn write_reading(text: &[u8], page: &mut Page) {
    match Plan::read(page.alloc(), text) {
        Ok(_) => page.push_str("plan"),
        Err(error) => write!(page, "{error}"),
    }
}

/// Writes what is read of the text: all of it, or `place`, a channel.
pub fn write_part(text: &Text, word: &str, rest: &str, page: &mut Page) {
    match Plan::read(page.alloc(), &text.with("", page)) {
        Ok(plan) if word == "place" => write_place(&plan, rest, page),
        Ok(plan) => write_plan(&plan, page),
        Err(_) => page.spoil(),
    }
}

/// Writes how much the bare plan has, or why it is none.
fn write_counts(bare: &[u8], page: &mut Page) {
    match Plan::read(page.alloc(), bare) {
        Ok(plan) => {
            let (channels, keys) = (plan.channels().len(), plan.keys().len());
            write!(page, "{channels} channels {keys} keys ");
            write!(page, "{} associations", plan.associations().len());
        }
        Err(error) => write!(page, "{error}"),
    }
}

/// Writes the bare plan of a text: how much it has, and its octets with `/` for each line feed.
pub fn write_bare(text: &[u8], page: &mut Page) {
    let Ok(mut bare) = vec![in page.alloc(); 0; text.len() + 1] else {
        return page.spoil();
    };
    let end = write_bare_plan(text, bare.as_mut_slice());
    bare.truncate(end);
    write_counts(&bare, page);
    for octet in bare.iter_mut() {
        if *octet == b'\n' {
            *octet = b'/';
        }
    }
    write!(page, ": {}", str::from_utf8(&bare).unwrap_or("no text"));
}
