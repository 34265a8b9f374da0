//! What arrives over a link, and the fates of the frames of a chunk.
use case_lines::{Page, cut};
use link_world::{Fate, LinkEvent, fate, link_run};

/// The event that a word names.
fn event_of(word: &str) -> Option<LinkEvent> {
    let (kind, number) = word.split_once(':')?;
    let frame = number.parse().ok()?;
    match kind {
        "release" => Some(LinkEvent::Release(frame)),
        "deliver" => Some(LinkEvent::Deliver(frame)),
        _ => None,
    }
}

/// Writes the numbers, one behind the other.
fn write_frames(frames: &[u32], page: &mut Page) {
    if frames.is_empty() {
        page.push_str("none");
    }
    for frame in frames {
        let space = if page.is_empty() { "" } else { " " };
        write!(page, "{space}{frame}");
    }
}

/// Writes what arrives: `COUNT EVENTS`.
pub fn answer_link(line: &str, page: &mut Page) {
    let (count, words) = cut(line);
    let mut events = Vec::new(page.alloc());
    for word in words.split_whitespace() {
        match event_of(word) {
            Some(event) => page.check(events.push(event)),
            None => return page.push_str("no event"),
        }
    }
    match link_run(page.alloc(), count.parse().unwrap_or(0), &events) {
        Ok(frames) => write_frames(&frames, page),
        Err(_) => page.spoil(),
    }
}

/// How many of the first frames have this fate.
fn count_of(count: u32, wanted: Fate) -> usize {
    (0..count).filter(|k| fate(*k) == wanted).count()
}

/// Writes how many of the first frames of a chunk have each fate.
pub fn answer_fates(line: &str, page: &mut Page) {
    let count = line.parse().unwrap_or(0);
    let (lost, once) = (count_of(count, Fate::Lost), count_of(count, Fate::Once));
    let (twice, late) = (count_of(count, Fate::Twice), count_of(count, Fate::Late));
    write!(page, "lost {lost} once {once} twice {twice} late {late}");
}
