//! Steps on an association book. `known CHANNEL ..` says which channels the unit has, for the steps behind it. A call
//! is none where its words are not there, or its conditions do not hold. Calls of the book have functions of their own,
//! mostly without a clause: what the clauses of several say together takes long to prove.
ghost use Rattle.std.specs.Prelude.{◌≡◌, ◌≤◌, true, IfSome, All};
ghost use Rattle.sdls_base.specs.Bounds.{AreChannels};
ghost use Rattle.replay_window.specs.Window.{IsFresh};
ghost use Rattle.replay_window.specs.WindowField.{IsWindowField};
ghost use Rattle.std.specs.Option.{ForSome};
ghost use Rattle.sdls_base.specs.declared.states.Direction.TheVariants.{Receive};
ghost use Rattle.sa_book.specs.SaRow.{MayAccept};
ghost use Rattle.sa_book.specs.SaBook.{row_of};

use crate::{Changed, windows, write_change};
use case_lines::{Digits, Page, Words, channel, direction, key, key_state, number, spi};
use replay_window::{MOST_BACK, Verdict, Window};
use sa_book::{SaBook, SaRefusal, SaRow, rows_may_follow};
use sdls_base::{ChannelId, Direction, NewSa, NoMemory, Octets, SaState, Spi, Suite};
use std::alloc::Global;

/// An association book, and the channels of the unit.
#[derive(Drop)]
pub struct AssociationTable {
    book: SaBook,
    known: Vec<ChannelId>,
}

/// A CMAC association of two channels, the lower one first, with a window of 5: `DIRECTION LOW HIGH`.
fn new_association(alloc: Global, spi: Spi, words: &mut Words<'_>) -> Option<NewSa>
    ensures window { IfSome result (λ new. IsWindowField new.window) }
    ensures ascending { IfSome result (λ new. AreChannels new.channels) }
    ensures numbers { IfSome result (λ new. All (λ channel. channel ≤ 63) new.channels) }
{
    let direction = direction(words)?;
    let (low, high) = (channel(words)?.get(), channel(words)?.get());
    if low >= high {
        return None;
    }
    Some(NewSa {
        spi,
        direction,
        suite: Suite::Cmac,
        window: 5,
        channels: Octets::new(vec![in alloc; low, high].ok()?),
    })
}

/// Whether the number is fresh in the window, and its back window in its bounds.
fn is_fresh(window: &Window, number: u64, end: u64) -> bool
    ensures { result ≡ true → IsFresh window.now number end }
{
    window.back <= MOST_BACK && window.judge(number, end) == Verdict::Fresh
}

/// Whether the association is operational and receives, and the number is fresh on it.
fn may_accept(row: &SaRow, number: u64) -> bool
    ensures { result ≡ true → MayAccept row.now number }
{
    let Some(key) = row.key else {
        return false;
    };
    row.state == SaState::Operational
        && row.direction == Direction::Receive
        && is_fresh(&row.window, number, key.end())
}

/// Accepts a number where it is fresh on an operational receiving association: `SPI NUMBER`.
fn accept(book: &mut SaBook, words: &mut Words<'_>) -> Option<()> {
    let (spi, number) = (spi(words)?, number(words)?);
    if !may_accept(book.status(spi).ok()?, number) {
        return None;
    }
    book.accept(spi, number);
    Some(())
}

/// Whether there is no association of the index that sends.
fn sends_none(book: &SaBook, spi: Spi) -> bool
    ensures { result ≡ true → ForSome (row_of book.now spi) (λ row. row.direction ≡ Receive) }
{
    match book.status(spi) {
        Ok(row) => row.direction == Direction::Receive,
        Err(_) => true,
    }
}

/// Whether two rows say the same.
fn same_row(one: &SaRow, other: &SaRow) -> bool {
    (one.spi, one.direction, one.suite) == (other.spi, other.direction, other.suite)
        && (one.state, one.key, one.window) == (other.state, other.key, other.window)
        && one.channels.as_slice() == other.channels.as_slice()
}

/// Whether two books have the same rows.
fn same_rows(one: &SaBook, other: &SaBook) -> bool {
    let (ones, others) = (one.rows(), other.rows());
    ones.len() == others.len() && ones.iter().zip(others).all(|(a, b)| same_row(a, b))
}

/// The rows put into an empty book, in order.
fn made_again(alloc: Global, book: &SaBook) -> Result<SaBook, NoMemory> {
    let mut again = SaBook::new(alloc);
    rows_may_follow();
    for row in book.rows() {
        again.add_row(row.clone()?)?;
    }
    Ok(again)
}

fn write_row(row: &SaRow, page: &mut Page) {
    let (spi, direction, suite, state) = (row.spi.get(), row.direction, row.suite, row.state);
    let key = row.key.map_or(0, |key| key.get());
    let channels = Digits(row.channels.as_slice());
    write!(page, "{spi} {direction:?} {suite:?} {state:?} key {key}");
    write!(page, " channels {channels} high {}", row.window.high);
    write!(page, " width {}", row.window.width);
    if row.window.back > 0 {
        write!(page, " back {}", row.window.back);
    }
}

/// Writes the indices of the rows, in their order.
fn write_rows(rows: &[SaRow], page: &mut Page) {
    write!(page, "{} rows", rows.len());
    for row in rows {
        write!(page, ", {}", row.spi.get());
    }
}

impl AssociationTable {
    /// An empty book.
    pub fn new(alloc: Global) -> AssociationTable {
        AssociationTable {
            book: SaBook::new(alloc),
            known: Vec::new(alloc),
        }
    }

    /// Makes the change of a word. None also if the word names no change.
    fn changed(&mut self, alloc: Global, word: &str, words: &mut Words<'_>) -> Changed<SaRefusal> {
        let spi = spi(words)?;
        match word {
            "create" => {
                let new = new_association(alloc, spi, words)?;
                Some(self.book.create(&new, &self.known))
            }
            "rekey" => {
                let (key, state, next) = (key(words)?, key_state(words)?, number(words)?);
                let floor = number(words)?.max(1);
                Some(self.book.rekey(spi, key, state, next, floor))
            }
            "start" => Some(self.book.start(spi)),
            "stop" => Some(self.book.stop(spi)),
            "expire" => Some(self.book.expire(spi)),
            "delete" => Some(self.book.delete(spi)),
            "number" => {
                let next = number(words)?;
                Some(self.book.set_number(spi, next, number(words)?.max(1)))
            }
            "window" => Some(self.book.set_window(spi, windows::field(words))),
            _ => None,
        }
    }

    /// Makes the change of a word, which may be refused, and writes what the call answers.
    fn change(&mut self, word: &str, words: &mut Words<'_>, page: &mut Page) {
        let Ok(before) = self.book.copy() else {
            return page.spoil();
        };
        let changed = self.changed(page.alloc(), word, words);
        write_change(changed, same_rows(&self.book, &before), page);
    }

    fn know(&mut self, words: &mut Words<'_>, page: &mut Page) {
        self.known.clear();
        for word in words {
            if let Some(channel) = channel(&mut word.split_whitespace()) {
                page.check(self.known.push(channel));
            }
        }
        page.push_str("ok");
    }

    /// Writes the next number of an association that does not send: `SPI`.
    fn write_next(&self, words: &mut Words<'_>, page: &mut Page) {
        match spi(words) {
            Some(spi) if sends_none(&self.book, spi) => match self.book.read_number(spi) {
                Ok(number) => write!(page, "{number}"),
                Err(refusal) => write!(page, "{refusal}"),
            },
            _ => page.push_str("no condition"),
        }
    }

    /// Writes the operational sending association that covers a channel: `CHANNEL`.
    fn write_sender(&self, words: &mut Words<'_>, page: &mut Page) {
        match channel(words).and_then(|channel| self.book.sender_on(channel)) {
            Some(row) => write_row(row, page),
            None => page.push_str("none"),
        }
    }

    /// Writes the row of an association: `SPI`.
    fn write_status(&self, words: &mut Words<'_>, page: &mut Page) {
        match spi(words).map(|spi| self.book.status(spi)) {
            Some(Ok(row)) => write_row(row, page),
            Some(Err(refusal)) => write!(page, "{refusal}"),
            None => page.push_str("no index"),
        }
    }

    /// Writes the keys that associations hold.
    fn write_in_use(&self, page: &mut Page) {
        let Ok(pairs) = self.book.in_use() else {
            return page.spoil();
        };
        page.push_str("in use");
        for (key, spi) in pairs.iter() {
            write!(page, ", key {} by {}", key.get(), spi.get());
        }
    }

    /// Writes whether the rows make an equal book.
    fn make_again(&self, page: &mut Page) {
        match made_again(page.alloc(), &self.book) {
            Ok(again) => write!(page, "{}", same_rows(&again, &self.book)),
            Err(_) => page.spoil(),
        }
    }

    /// Does a step, and writes what it answers.
    pub fn step(&mut self, word: &str, words: &mut Words<'_>, page: &mut Page) {
        match word {
            "known" => self.know(words, page),
            "accept" => write!(page, "{}", accept(&mut self.book, words).is_some()),
            "next" => self.write_next(words, page),
            "sender" => self.write_sender(words, page),
            "status" => self.write_status(words, page),
            "in_use" => self.write_in_use(page),
            "rows" => write_rows(self.book.rows(), page),
            "rows_again" => self.make_again(page),
            _ => self.change(word, words, page),
        }
    }
}
