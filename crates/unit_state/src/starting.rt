//! The state that a plan's lines make.
ghost use Rattle.std.specs.Prelude.{◌≡◌, nat_le, length, map, position, IfOk, All};
ghost use Rattle.std.specs.List.{position_or_len};
ghost use Rattle.sdls_base.specs.Bounds.{IsKeyLength};
ghost use Rattle.unit_plan.specs.declared.plan_error.PlanError.TheVariants as errors;
ghost use Rattle.unit_plan.specs.declared.plan_error.PlanCause.TheVariants as causes;
ghost use Rattle.unit_plan.specs.PlanError.{Gives};
ghost use Rattle.unit_plan.specs.PlanRules.{IsAssociation};
ghost use Rattle.unit_state.specs.State.{KeepsRules};
ghost use Rattle.unit_state.specs.Initial.{MakesLines, bare, loaded, activated, activated_if, key_made, created};
ghost use Rattle.unit_state.specs.Initial.{keyed, started, association_made, OfKey, in_order, lines_made, initial};

use crate::state::{State, least_with};
use key_book::{KeyBook, KeyRefusal};
use sa_book::{SaBook, SaRefusal};
use sdls_base::{ChannelList, KeyList, KeyState};
use std::alloc::{AllocError, Global};
use unit_plan::{Plan, PlanCause, PlanError, PlanFault, PlanKey, PlanSa};

fn refused(line: u32) -> PlanError
    ensures { result ≡ errors.Refused (record { line = line; cause = causes.Refused }) }
{
    PlanError::Refused(PlanFault {
        line,
        cause: PlanCause::Refused,
    })
}

fn first_behind(line: u32, keys: &[PlanKey]) -> Option<usize>
    ensures { result ≡ position (λ key. nat_le line key.line) keys.now }
{
    keys.iter().position(|key| line <= key.line)
}

/// How many of the keys have their line before another.
fn count_before(line: u32, keys: &[PlanKey]) -> usize
    ensures { result ≡ position_or_len (λ key. nat_le line key.line) keys.now }
{
    first_behind(line, keys).unwrap_or(keys.len())
}

impl State {
    fn bare(alloc: Global, plan: &Plan) -> Result<State, AllocError>
        ensures { IfOk result (λ state. state ≡ bare plan.now) }
    {
        Ok(State {
            keys: KeyBook::new(alloc),
            associations: SaBook::new(alloc),
            channels: ChannelList::new(Vec::from_slice(alloc, plan.channels())?),
            device: plan.device(),
        })
    }

    fn load_line(&mut self, alloc: Global, key: &PlanKey) -> Result<(), PlanError>
        requires { IsKeyLength (length key.now.item.bytes) }
        ensures { MakesLines result (loaded self.old key.now) self.new }
    {
        let items = vec![in alloc; key.item.clone()?]?;
        match self.keys.load(items.as_slice()) {
            Ok(()) => Ok(()),
            Err(KeyRefusal::NoMemory) => Err(PlanError::NoMemory),
            Err(_) => Err(refused(key.line)),
        }
    }

    fn activate_line(&mut self, alloc: Global, key: &PlanKey) -> Result<(), PlanError>
        ensures { MakesLines result (activated self.old key.now) self.new }
    {
        let ids = KeyList::new(vec![in alloc; key.item.id]?);
        match self.keys.set_state(&ids, KeyState::Active, &[]) {
            Ok(()) => Ok(()),
            Err(_) => Err(refused(key.line)),
        }
    }

    fn make_key(&mut self, alloc: Global, key: &PlanKey) -> Result<(), PlanError>
        requires { IsKeyLength (length key.now.item.bytes) }
        ensures { MakesLines result (key_made self.old key.now) self.new }
    {
        self.load_line(alloc, key)?;
        match key.state {
            KeyState::Active => self.activate_line(alloc, key),
            _ => Ok(()),
        }
    }

    fn create_line(&mut self, found: &PlanSa) -> Result<(), PlanError>
        requires { IsAssociation found.now }
        ensures { MakesLines result (created self.old found.now) self.new }
    {
        match self
            .associations
            .create(&found.sa, self.channels.as_slice())
        {
            Ok(()) => Ok(()),
            Err(SaRefusal::NoMemory) => Err(PlanError::NoMemory),
            Err(_) => Err(refused(found.line)),
        }
    }

    fn key_line(&mut self, found: &PlanSa) -> Result<(), PlanError>
        ensures { MakesLines result (keyed self.old found.now) self.new }
    {
        let spi = found.sa.spi;
        let Ok(row) = self.associations.status(spi) else {
            return Err(refused(found.line));
        };
        let direction = row.direction;
        let Some(held) = self.key(found.key) else {
            return Err(refused(found.line));
        };
        let least = least_with(held.mark, direction, held);
        let state = held.state;
        let taken = self
            .associations
            .rekey(spi, found.key, state, found.number, least);
        if taken.is_err() {
            return Err(refused(found.line));
        }
        self.raise(direction, found.key, found.number);
        Ok(())
    }

    fn start_line(&mut self, found: &PlanSa) -> Result<(), PlanError>
        ensures { MakesLines result (started self.old found.now) self.new }
    {
        match self.associations.start(found.sa.spi) {
            Ok(()) => Ok(()),
            Err(_) => Err(refused(found.line)),
        }
    }

    fn make_association(&mut self, found: &PlanSa) -> Result<(), PlanError>
        requires { IsAssociation found.now }
        ensures { MakesLines result (association_made self.old found.now) self.new }
    {
        self.create_line(found)?;
        self.key_line(found)?;
        self.start_line(found)
    }

    fn make_keys(&mut self, alloc: Global, keys: &[PlanKey]) -> Result<(), PlanError>
        requires { All (λ key. IsKeyLength (length key.item.bytes)) keys.now }
        ensures { MakesLines result (lines_made self.old (map OfKey keys.now)) self.new }
    {
        for key in keys {
            self.make_key(alloc, key)?;
        }
        Ok(())
    }

    fn make_lines(
        &mut self,
        alloc: Global,
        keys: &[PlanKey],
        associations: &[PlanSa],
    ) -> Result<(), PlanError>
        requires keys { All (λ key. IsKeyLength (length key.item.bytes)) keys.now }
        requires associations { All IsAssociation associations.now }
        ensures { MakesLines result (lines_made self.old (in_order keys.now associations.now)) self.new }
    {
        let mut rest = keys;
        for found in associations {
            let (before, behind) = rest.split_at(count_before(found.line, rest));
            self.make_keys(alloc, before)?;
            self.make_association(found)?;
            rest = behind;
        }
        self.make_keys(alloc, rest)
    }

    /// The state that the lines of a plan make, or the first line that the books refuse.
    pub fn initial(alloc: Global, plan: &Plan) -> Result<State, PlanError>
        ensures made { Gives result (initial plan.now) }
        ensures rules { IfOk result KeepsRules }
    {
        let mut state = State::bare(alloc, plan)?;
        state.make_lines(alloc, plan.keys(), plan.associations())?;
        Ok(state)
    }
}
