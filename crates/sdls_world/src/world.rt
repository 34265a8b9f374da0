//! The world: words, actors, marks and the used pairs, and its steps.
ghost use Rattle.std.specs.Prelude.{◌≡◌, ◌≢◌, ◌<◌, ◌≤◌, ℕ, None, Some, OnOk, OnErr, IfOk, IfSome, MatchOption};
ghost use Rattle.std.specs.Prelude.{length, map, take, slice_get};
ghost use Rattle.sdls_base.specs.KeyId.{end_of};
ghost use Rattle.sdls_world.specs.declared.world.Step.TheVariants.{Arm, Draw, Peek, Spend, See, Take, Give, Write};
ghost use Rattle.sdls_world.specs.declared.world.Step.TheVariants.{Sync, Lift, RaiseNext, Turn, Crash};
ghost use Rattle.sdls_world.specs.Core.{key_of, doer_of, holds_turn, world_after, world_after_all, begun, beginning};
ghost use Rattle.sdls_world.specs.Core.{synced, restarted};
ghost use Rattle.sdls_world.specs.Kept.{IsWorldKept};

use crate::actor::Actor;
use sdls_base::{KeyId, NoMemory};
use std::alloc::{AllocError, Global};
use std::marker::Model;

/// The pure core. Contracts see it as plain data (`Core`).
#[derive(Drop)]
pub struct World {
    keys: Vec<Key>,
    actors: Vec<Actor>,
    holder: Option<u64>,
    epoch: u64,
    used: Vec<(usize, u64)>,
    alloc: Global,
}

impl Model for World {
    ghost use Rattle.sdls_world.specs.Core.{Core};

    ghost Value = { Core };

    ghost view = { λ w. record {
      keys = w.keys.items;
      actors = w.actors.items;
      holder = w.holder;
      epoch = w.epoch;
      used = w.used.items;
    } };
}

impl World {
    #[tactic(auto, using(crate::proofs::Moments::beginning_kept))]
    /// The world whose keys have these durable marks, with `next` and `limit` equal to them, the turn free and every
    /// actor idle.
    pub fn new(alloc: Global, keys: &[(KeyId, u64)]) -> Result<World, NoMemory>
        requires apart { (i j : ℕ) (a b : ℕ × ℕ) → slice_get keys.now i ≡ Some a → slice_get keys.now j ≡ Some b → i ≢ j
            → a.0 ≢ b.0 }
        requires marks { (i : ℕ) (a : ℕ × ℕ) → slice_get keys.now i ≡ Some a → (1 ≤ a.1) × (a.1 ≤ end_of a.0) }
        ensures world { IfOk result (λ w. w ≡ beginning keys.now) }
        ensures kept { IfOk result IsWorldKept }
    {
        let keys = first_keys(alloc, keys)?;
        Ok(World {
            keys,
            actors: Vec::new(alloc),
            holder: None,
            epoch: 0,
            used: Vec::new(alloc),
            alloc,
        })
    }

    /// The keys, by row.
    pub fn keys(&self) -> &[Key]
        ensures { result.now ≡ self.now.keys }
    {
        self.keys.as_slice()
    }

    /// The pairs of row and number that were used, in all lives.
    pub fn used(&self) -> &[(usize, u64)]
        ensures { result.now ≡ self.now.used }
    {
        self.used.as_slice()
    }

    /// Does one step. Lack of memory changes nothing, and comes also where a word would pass 2^64 - 1.
    pub fn step(&mut self, step: &Step) -> Result<(), NoMemory>
        ensures ok { OnOk result (self.new ≡ world_after self.old step.now) }
        ensures err { OnErr result (self.new ≡ self.old) }
        ensures kept { IsWorldKept self.old → IsWorldKept self.new }
    {
        self.change(step)
    }

    /// Does the steps, one after the other. After lack of memory it has done some first ones.
    pub fn run(&mut self, steps: &[Step]) -> Result<(), NoMemory>
        ensures ok { OnOk result (self.new ≡ world_after_all self.old steps.now) }
        ensures err { OnErr result ((count : ℕ) × (self.new ≡ world_after_all self.old (take count steps.now))) }
        ensures kept { IsWorldKept self.old → IsWorldKept self.new }
    {
        self.change_all(steps)
    }

    fn change(&mut self, step: &Step) -> Result<(), NoMemory>
        ensures ok { OnOk result (self.new ≡ world_after self.old step.now) }
        ensures err { OnErr result (self.new ≡ self.old) }
    {
        match *step {
            Step::Arm { actor, key } => self.arm(actor, key),
            Step::Draw { actor } => self.draw(actor),
            Step::Peek { actor } => self.peek(actor),
            Step::Spend { actor } => self.spend(actor),
            Step::See { actor: _ } => Ok(()),
            Step::Take { actor } => {
                self.take(actor);
                Ok(())
            }
            Step::Give { actor } => {
                self.give(actor);
                Ok(())
            }
            Step::Write { actor, key, mark } => {
                self.write(actor, key, mark);
                Ok(())
            }
            Step::Sync { actor } => {
                self.sync(actor);
                Ok(())
            }
            Step::Lift { actor, key } => {
                self.lift(actor, key);
                Ok(())
            }
            Step::RaiseNext { actor, key, number } => {
                self.raise_next(actor, key, number);
                Ok(())
            }
            Step::Turn { actor } => {
                self.turn(actor);
                Ok(())
            }
            Step::Crash => {
                self.crash();
                Ok(())
            }
        }
    }

    fn change_all(&mut self, steps: &[Step]) -> Result<(), NoMemory>
        ensures ok { OnOk result (self.new ≡ world_after_all self.old steps.now) }
        ensures err { OnErr result ((count : ℕ) × (self.new ≡ world_after_all self.old (take count steps.now))) }
    {
        for step in steps {
            self.change(step)?;
        }
        Ok(())
    }

    fn key(&self, id: KeyId) -> Option<(usize, Key)>
        ensures found { result ≡ key_of id self.now.keys }
        ensures there { IfSome result (λ found. (found.0 < length self.now.keys)
            × (slice_get self.now.keys found.0 ≡ Some found.1)) }
    {
        for (row, key) in self.keys.iter().enumerate() {
            if key.id == id {
                return Some((row, *key));
            }
        }
        None
    }

    fn actor(&self, id: u64) -> Option<(usize, &Actor)>
        ensures found { MatchOption result (doer_of id self.now.actors ≡ None)
            (λ found. doer_of id self.now.actors ≡ Some (found.0, found.1.now)) }
        ensures there { IfSome result (λ found. (found.0 < length self.now.actors)
            × (slice_get self.now.actors found.0 ≡ Some found.1.now)) }
    {
        for (place, actor) in self.actors.iter().enumerate() {
            if actor.id() == id {
                return Some((place, actor));
            }
        }
        None
    }

    fn is_holder(&self, actor: u64) -> bool
        ensures { result ≡ holds_turn actor self.now.holder }
    {
        match self.holder {
            Some(holder) => holder == actor,
            None => false,
        }
    }

    fn arm(&mut self, actor: u64, key: KeyId) -> Result<(), NoMemory>
        ensures ok { OnOk result (self.new ≡ world_after self.old (Arm actor key)) }
        ensures err { OnErr result (self.new ≡ self.old) }
    {
        let Some((row, key)) = self.key(key) else {
            return Ok(());
        };
        if key.next >= key.id.end() {
            return Ok(());
        }
        let Some((place, _)) = self.actor(actor) else {
            let mut idle = Actor::new(self.alloc, actor);
            idle.arm(row);
            self.actors.push(idle)?;
            return Ok(());
        };
        self.actors[place].arm(row);
        Ok(())
    }

    fn draw(&mut self, actor: u64) -> Result<(), NoMemory>
        ensures ok { OnOk result (self.new ≡ world_after self.old (Draw actor)) }
        ensures err { OnErr result (self.new ≡ self.old) }
    {
        let Some((place, found)) = self.actor(actor) else {
            return Ok(());
        };
        let Some(row) = found.armed() else {
            return Ok(());
        };
        if row >= self.keys.len() {
            return Ok(());
        }
        let key = self.keys[row];
        let Some(next) = key.next.checked_add(1) else {
            return Err(NoMemory);
        };
        self.actors[place].draw(row, key.next)?;
        self.keys[row] = Key { next, ..key };
        Ok(())
    }

    fn peek(&mut self, actor: u64) -> Result<(), NoMemory>
        ensures ok { OnOk result (self.new ≡ world_after self.old (Peek actor)) }
        ensures err { OnErr result (self.new ≡ self.old) }
    {
        let Some((place, found)) = self.actor(actor) else {
            return Ok(());
        };
        let Some((row, number)) = found.last() else {
            return Ok(());
        };
        if found.is_funded() || row >= self.keys.len() {
            return Ok(());
        }
        let key = self.keys[row];
        if number >= key.limit {
            return Ok(());
        }
        self.actors[place].fund((row, number))?;
        Ok(())
    }

    fn spend(&mut self, actor: u64) -> Result<(), NoMemory>
        ensures ok { OnOk result (self.new ≡ world_after self.old (Spend actor)) }
        ensures err { OnErr result (self.new ≡ self.old) }
    {
        let Some((place, found)) = self.actor(actor) else {
            return Ok(());
        };
        let Some(pair) = found.last() else {
            return Ok(());
        };
        if !found.is_funded() {
            return Ok(());
        }
        self.used.reserve(1)?;
        self.actors[place].spend(pair)?;
        self.used.push_reserved(pair);
        Ok(())
    }

    fn take(&mut self, actor: u64)
        ensures { self.new ≡ world_after self.old (Take actor) }
    {
        if self.holder.is_none() {
            self.holder = Some(actor);
        }
    }

    fn give(&mut self, actor: u64)
        ensures { self.new ≡ world_after self.old (Give actor) }
    {
        if self.is_holder(actor) {
            self.holder = None;
        }
    }

    fn write(&mut self, actor: u64, key: KeyId, mark: u64)
        ensures { self.new ≡ world_after self.old (Write actor key mark) }
    {
        if !self.is_holder(actor) {
            return;
        }
        if let Some((row, key)) = self.key(key) {
            if key.mark <= mark && mark <= key.id.end() {
                self.keys[row] = Key { mark, ..key };
            }
        }
    }

    fn sync(&mut self, actor: u64)
        ensures { self.new ≡ world_after self.old (Sync actor) }
    {
        if self.is_holder(actor) {
            sync_all(&mut self.keys);
        }
    }

    fn lift(&mut self, actor: u64, key: KeyId)
        ensures { self.new ≡ world_after self.old (Lift actor key) }
    {
        if !self.is_holder(actor) {
            return;
        }
        if let Some((row, key)) = self.key(key) {
            let limit = key.limit.max(key.durable);
            self.keys[row] = Key { limit, ..key };
        }
    }

    fn raise_next(&mut self, actor: u64, key: KeyId, number: u64)
        ensures { self.new ≡ world_after self.old (RaiseNext actor key number) }
    {
        if !self.is_holder(actor) {
            return;
        }
        if let Some((row, key)) = self.key(key) {
            if number <= key.id.end() {
                let next = key.next.max(number);
                self.keys[row] = Key { next, ..key };
            }
        }
    }

    fn turn(&mut self, actor: u64)
        ensures { self.new ≡ world_after self.old (Turn actor) }
    {
        if self.is_holder(actor) && self.epoch < u64::MAX {
            self.epoch += 1;
        }
    }

    fn crash(&mut self)
        ensures { self.new ≡ world_after self.old Crash }
    {
        restart_all(&mut self.keys);
        self.actors.clear();
        self.holder = None;
        self.epoch = 0;
    }
}

// The book's marks become durable.
fn sync_all(keys: &mut Vec<Key>)
    ensures { keys.new.items ≡ map synced keys.old.items }
{
    for row in 0..keys.len() {
        let key = &mut keys[row];
        key.durable = key.mark;
    }
}

// The words and marks begin at the durable marks.
fn restart_all(keys: &mut Vec<Key>)
    ensures { keys.new.items ≡ map restarted keys.old.items }
{
    for row in 0..keys.len() {
        let key = &mut keys[row];
        key.next = key.durable;
        key.limit = key.durable;
        key.mark = key.durable;
    }
}

fn first_key(id: KeyId, mark: u64) -> Key
    ensures { result ≡ begun (id, mark) }
{
    Key {
        id,
        next: mark,
        limit: mark,
        mark,
        durable: mark,
    }
}

fn first_keys(alloc: Global, keys: &[(KeyId, u64)]) -> Result<Vec<Key>, AllocError>
    ensures { IfOk result (λ rows. rows.items ≡ map begun keys.now) }
{
    keys.iter().map(|k| first_key(k.0, k.1)).collect(alloc)
}

/// One atomic step.
#[derive(Clone, Copy, Debug, PartialEq, Eq)]
pub enum Step {
    /// Open where the key's `next` is below its end. The actor is then armed for this key alone.
    Arm { actor: u64, key: KeyId },
    /// Open to an armed actor, which takes `next`.
    Draw { actor: u64 },
    /// Open where the number drawn last is neither funded nor used. It is funded where it is below `limit`.
    Peek { actor: u64 },
    /// Open where the number drawn last is funded and not used. It joins the used pairs.
    Spend { actor: u64 },
    /// The epoch is looked at.
    See { actor: u64 },
    /// Open where nobody holds the turn.
    Take { actor: u64 },
    /// The holder gives the turn back. The steps after this one, but `Crash`, are open to the holder alone too.
    Give { actor: u64 },
    /// The book's mark becomes this one, which is not below it and at most the key's end.
    Write { actor: u64, key: KeyId, mark: u64 },
    /// The book's marks become durable.
    Sync { actor: u64 },
    /// The key's `limit` becomes its durable mark, where that is above.
    Lift { actor: u64, key: KeyId },
    /// The key's `next` becomes the number, where that is above. The number is at most the key's end.
    RaiseNext { actor: u64, key: KeyId, number: u64 },
    /// The epoch goes on by one, and stays at 2^64 - 1.
    Turn { actor: u64 },
    /// All is lost but the durable marks and the used pairs.
    Crash,
}

/// What the core has of a key: its words `next` and `limit`, the book's mark, and the mark that was last synced.
#[derive(Clone, Copy, Debug, PartialEq, Eq)]
pub struct Key {
    pub id: KeyId,
    pub next: u64,
    pub limit: u64,
    pub mark: u64,
    pub durable: u64,
}
