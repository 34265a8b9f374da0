//! The windows of the associations that receive with a key, begun anew at a number.
ghost use Rattle.std.specs.Prelude.{◌≡◌, ℕ, ◌+◌, ◌<◌, ◌≤◌, List, length, take, slice_index_or, slice_set, [], ◌∷◌};
ghost use Rattle.std.specs.Prelude.{◌++◌, All, Some, IfOk, IfErr, OnOk, OnErr, IsSomeAnd, MatchResult};
ghost use Rattle.std.specs.Option.{option_map, ForSome};
ghost use Rattle.std.specs.Result.{result_err};
ghost use Rattle.sdls_base.specs.Bounds.{AreChannels};
ghost use Rattle.sdls_base.specs.declared.states.Direction.TheVariants.{Receive};
ghost use Rattle.sdls_base.specs.declared.states.SaState.TheVariants.{Keyed, Operational};
ghost use Rattle.replay_window.specs.WindowField.{IsWindowField};
ghost use Rattle.replay_window.specs.Window.{accepted, with_field};
ghost use Rattle.sa_book.specs.declared.sa_book.SaRow.{SaRow};
ghost use Rattle.sa_book.specs.SaRow.{HasHigh, IsSaRow, MayAccept, new_row, with_key, without_key, following};
ghost use Rattle.sa_book.specs.SaBook.{IsSaBook, MayFollow, row_of, changed, without, with_row, sender_on, in_use};
ghost use Rattle.sa_book.specs.Numbers.{lowered, with_high};
ghost use Rattle.sa_book.specs.SaRefusal.{IsSaRefusal, create_refusal, rekey_refusal, start_refusal, stop_refusal};
ghost use Rattle.sa_book.specs.SaRefusal.{expire_refusal, delete_refusal, set_number_refusal, set_window_refusal};
ghost use Rattle.sa_book.specs.SaRefusal.{read_number_refusal};

use crate::judging;
use crate::judging::receives_with;
use crate::refusals::SaRefusal;
use replay_window::Window;
use sdls_base::{
    ChannelId, Direction, KeyId, KeyState, NewSa, NoMemory, Octets, SaState, Spi, Suite,
};
use std::alloc::Global;
use std::marker::Model;

/// The security associations of a unit, at most [`sdls_base::MOST_ASSOCIATIONS`] at one time. After a refusal of any
/// call the rows are as they were.
#[derive(Debug, Drop)]
pub struct SaBook {
    rows: Vec<SaRow>,
}

impl Model for SaBook {
    ghost use Rattle.std.specs.Prelude.{List};
    ghost use Rattle.sa_book.specs.declared.sa_book.SaRow.{SaRow};
    ghost use Rattle.sa_book.specs.SaBook.{IsSaBook};
    ghost use Rattle.std.specs.Coded.{codes, coded_ℕ};
    ghost use Rattle.std.specs.FinSet as set;
    ghost use Rattle.std.specs.Ordering.{nat_cmp};

    ghost Value = { List SaRow };

    ghost coded = { Prim.hlevel (codes, set.code {R = nat_cmp} coded_ℕ) };

    ghost view = { λ book. book.rows.items };

    ghost invariant = { λ book. IsSaBook book.rows.items };
}

impl SaBook {
    /// The empty book, which takes its memory from `alloc` later.
    pub fn new(alloc: Global) -> SaBook
        ensures { result ≡ [] }
    {
        SaBook {
            rows: Vec::new(alloc),
        }
    }

    /// Creates an association, unkeyed. `known` are the unit's channels.
    pub fn create(&mut self, new: &NewSa, known: &[ChannelId]) -> Result<(), SaRefusal>
        requires window { IsWindowField new.now.window }
        requires channels { AreChannels new.now.channels }
        requires numbers { All (λ channel. channel ≤ 63) new.now.channels }
        ensures created { OnOk result (self.new ≡ with_row self.old (new_row new.now)) }
        ensures accepted { OnOk result (create_refusal self.old new.now known.now ≡ None) }
        ensures refused { IfErr result (λ refusal. IsSaRefusal refusal (create_refusal self.old new.now known.now)) }
        ensures kept { OnErr result (self.new ≡ self.old) }
    {
        judging::judge_create(&self.rows, new, known)?;
        let row = SaRow::created(new)?;
        let place = judging::place_for(&self.rows, new.spi);
        self.rows.insert(place, row)?;
        Ok(())
    }

    /// Gives an unkeyed association a key in a state, with `number` as the next. `floor` is the least lawful number.
    /// Takes no memory.
    pub fn rekey(
        &mut self,
        spi: Spi,
        key: KeyId,
        state: KeyState,
        number: u64,
        floor: u64,
    ) -> Result<(), SaRefusal>
        requires { 1 ≤ floor }
        ensures keyed { OnOk result (self.new ≡ changed self.old spi (with_key key number)) }
        ensures refused { result_err result ≡ rekey_refusal self.old spi key state number floor }
        ensures kept { OnErr result (self.new ≡ self.old) }
    {
        let i = judging::place(&self.rows, spi)?;
        judging::judge_rekey(&self.rows, &self.rows[i], key, state, number, floor)?;
        let row = &mut self.rows[i];
        row.state = SaState::Keyed;
        row.key = Some(key);
        follow(row.direction, number, &mut row.window);
        Ok(())
    }

    /// Makes a keyed association operational. Takes no memory.
    pub fn start(&mut self, spi: Spi) -> Result<(), SaRefusal>
        ensures started { OnOk result
            (self.new ≡ changed self.old spi (λ row. record row { state = Operational })) }
        ensures refused { result_err result ≡ start_refusal self.old spi }
        ensures kept { OnErr result (self.new ≡ self.old) }
    {
        let i = judging::place(&self.rows, spi)?;
        judging::judge_start(&self.rows, &self.rows[i])?;
        let row = &mut self.rows[i];
        row.state = SaState::Operational;
        Ok(())
    }

    /// Makes an operational association keyed. Takes no memory.
    pub fn stop(&mut self, spi: Spi) -> Result<(), SaRefusal>
        ensures stopped { OnOk result
            (self.new ≡ changed self.old spi (λ row. record row { state = Keyed })) }
        ensures refused { result_err result ≡ stop_refusal self.old spi }
        ensures kept { OnErr result (self.new ≡ self.old) }
    {
        let i = judging::place(&self.rows, spi)?;
        judging::check_operational(self.rows[i].state)?;
        let row = &mut self.rows[i];
        row.state = SaState::Keyed;
        Ok(())
    }

    /// Takes the key of a keyed association away, and makes it unkeyed. Takes no memory.
    pub fn expire(&mut self, spi: Spi) -> Result<(), SaRefusal>
        ensures expired { OnOk result (self.new ≡ changed self.old spi without_key) }
        ensures refused { result_err result ≡ expire_refusal self.old spi }
        ensures kept { OnErr result (self.new ≡ self.old) }
    {
        let i = judging::place(&self.rows, spi)?;
        judging::check_keyed(self.rows[i].state)?;
        let row = &mut self.rows[i];
        row.state = SaState::Unkeyed;
        row.key = None;
        row.window.begin_at(0);
        Ok(())
    }

    /// Deletes an unkeyed association. Takes no memory.
    pub fn delete(&mut self, spi: Spi) -> Result<(), SaRefusal>
        ensures deleted { OnOk result (self.new ≡ without self.old spi) }
        ensures refused { result_err result ≡ delete_refusal self.old spi }
        ensures kept { OnErr result (self.new ≡ self.old) }
    {
        let i = judging::place(&self.rows, spi)?;
        judging::check_unkeyed(self.rows[i].state)?;
        self.rows.remove(i);
        Ok(())
    }

    /// Sets the next number of an association that has a key. `floor` is the least lawful number. Of a sending
    /// association no row changes. Takes no memory.
    pub fn set_number(&mut self, spi: Spi, number: u64, floor: u64) -> Result<(), SaRefusal>
        requires { 1 ≤ floor }
        ensures set { OnOk result (self.new ≡ changed self.old spi
            (λ row. record row { window = following row.direction number row.window })) }
        ensures refused { result_err result ≡ set_number_refusal self.old spi number floor }
        ensures kept { OnErr result (self.new ≡ self.old) }
    {
        let i = judging::place(&self.rows, spi)?;
        judging::judge_set_number(&self.rows[i], number, floor)?;
        let row = &mut self.rows[i];
        follow(row.direction, number, &mut row.window);
        Ok(())
    }

    /// Sets width and back window of an association. Takes no memory.
    pub fn set_window(&mut self, spi: Spi, window: u64) -> Result<(), SaRefusal>
        requires { IsWindowField window }
        ensures set { OnOk result (self.new ≡ changed self.old spi
            (λ row. record row { window = with_field window row.window })) }
        ensures refused { result_err result ≡ set_window_refusal self.old spi }
        ensures kept { OnErr result (self.new ≡ self.old) }
    {
        let i = judging::place(&self.rows, spi)?;
        let row = &mut self.rows[i];
        row.window.set_field(window);
        Ok(())
    }

    /// Accepts a fresh number for an operational receiving association. Takes no memory.
    pub fn accept(&mut self, spi: Spi, number: u64)
        requires { IsSomeAnd (row_of self.old spi) (λ row. MayAccept row number) }
        ensures { self.new ≡ changed self.old spi
            (λ row. record row { window = accepted number row.window }) }
    {
        let i = judging::known_place(&self.rows, spi);
        let row = &mut self.rows[i];
        row.window.accept(number);
    }

    /// Begins the windows of the associations that receive with a key anew at a floor, if the highest number is above
    /// it. Takes no memory.
    pub fn lower(&mut self, key: KeyId, floor: u64)
        ensures { self.new ≡ lowered self.old key floor }
    {
        lower(&mut self.rows, key, floor);
    }

    /// Begins the window of the association at a place anew at a number. Takes no memory.
    pub fn begin_window(&mut self, place: usize, high: u64)
        requires there { place < length self.old }
        requires high { (row : SaRow) → row ≡ slice_index_or self.old place row → HasHigh row.direction row.key high }
        ensures { (row : SaRow) → row ≡ slice_index_or self.old place row
            → self.new ≡ slice_set self.old place (with_high row high) }
    {
        let row = &mut self.rows[place];
        row.window.begin_at(high);
    }

    /// The next number of a receiving association that has a key: the one after the highest accepted.
    pub fn read_number(&self, spi: Spi) -> Result<u64, SaRefusal>
        requires { ForSome (row_of self.now spi) (λ row. row.direction ≡ Receive) }
        ensures number { IfOk result
            (λ n. IsSomeAnd (row_of self.now spi) (λ row. n ≡ row.window.high + 1)) }
        ensures refused { result_err result ≡ read_number_refusal self.now spi }
    {
        let i = judging::place(&self.rows, spi)?;
        judging::next_number(&self.rows[i])
    }

    /// The row of an association.
    pub fn status(&self, spi: Spi) -> Result<&SaRow, SaRefusal>
        ensures row { IfOk result (λ row. row_of self.now spi ≡ Some row.now) }
        ensures rules { IfOk result (λ row. IsSaRow row.now) }
        ensures unknown { IfErr result
            (λ refusal. (refusal ≡ SaRefusal.UnknownSpi) × (row_of self.now spi ≡ None)) }
    {
        let i = judging::place(&self.rows, spi)?;
        Ok(&self.rows[i])
    }

    /// The operational sending association that covers a channel.
    pub fn sender_on(&self, channel: ChannelId) -> Option<&SaRow>
        ensures { option_map (λ row. row.now) result ≡ sender_on self.now channel }
    {
        let channel = channel.get();
        self.rows
            .iter()
            .find(|row| judging::covers(row, Direction::Send, channel))
    }

    /// The keys that associations hold, each with its association's index, ascending by the index.
    pub fn in_use(&self) -> Result<Vec<(KeyId, Spi)>, NoMemory>
        ensures { IfOk result (λ pairs. pairs.items ≡ in_use self.now) }
    {
        let alloc = *self.rows.allocator();
        let pairs = self
            .rows
            .iter()
            .filter_map(|row| row.key.map(|key| (key, row.spi)))
            .collect(alloc)?;
        Ok(pairs)
    }

    /// The rows, ascending by index. They keep the rules of a book.
    pub fn rows(&self) -> &[SaRow]
        ensures rows { result.now ≡ self.now }
        ensures rules { IsSaBook self.now }
    {
        self.rows.as_slice()
    }

    /// Adds a row behind the others. Rows added so to an empty book, in order, make an equal book.
    pub fn add_row(&mut self, row: SaRow) -> Result<(), NoMemory>
        requires { MayFollow self.old row }
        ensures added { OnOk result (self.new ≡ self.old ++ row ∷ []) }
        ensures kept { OnErr result (self.new ≡ self.old) }
    {
        self.rows.push(row)?;
        Ok(())
    }

    /// An equal book.
    pub fn copy(&self) -> Result<SaBook, NoMemory>
        ensures { IfOk result (λ book. book ≡ self.now) }
    {
        let rows = self.rows.clone()?;
        Ok(SaBook { rows })
    }
}

/// Law: each row of a book may follow those before it, so a book can be made again row by row.
pub fn rows_may_follow()
    ensures { (rows : List SaRow) (i : ℕ) (d : SaRow) → IsSaBook rows → i < length rows
        → MayFollow (take i rows) (slice_index_or rows i d) }
{}

/// Begins those whose highest number is above a floor anew at it.
pub(crate) fn lower(rows: &mut Vec<SaRow>, key: KeyId, floor: u64)
    ensures { rows.new.items ≡ lowered rows.old.items key floor }
{
    for row in rows.iter_mut() {
        if receives_with(row, key) {
            row.window.lower(floor);
        }
    }
}

/// A security association.
#[derive(Clone, Debug, Drop)]
pub struct SaRow {
    pub spi: Spi,
    pub direction: Direction,
    pub suite: Suite,
    pub state: SaState,
    /// The key that it holds; none where it is unkeyed.
    pub key: Option<KeyId>,
    /// The numbers of the channels that it covers, one to [`sdls_base::MOST_CHANNELS`], strictly ascending.
    pub channels: Octets,
    /// The numbers that it accepts. It begins at 0 where it sends or has no key.
    pub window: Window,
}

impl SaRow {
    /// The row of an association that is created, unkeyed.
    pub(crate) fn created(new: &NewSa) -> Result<SaRow, SaRefusal>
        ensures { MatchResult result
            (λ row. row ≡ new_row new.now)
            (λ refusal. refusal ≡ SaRefusal.NoMemory) }
    {
        Ok(SaRow {
            spi: new.spi,
            direction: new.direction,
            suite: new.suite,
            state: SaState::Unkeyed,
            key: None,
            channels: new.channels.clone()?,
            window: Window::new(0, new.window),
        })
    }
}

/// Makes `number`, which is at least 1, the next to accept. A sending association keeps its window.
pub(crate) fn follow(direction: Direction, number: u64, window: &mut Window)
    ensures { window.new ≡ following direction number window.old }
{
    match direction {
        Direction::Send => {}
        Direction::Receive => window.begin_at(number.saturating_sub(1)),
    }
}
