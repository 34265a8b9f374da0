ghost use Rattle.std.specs.Prelude.{◌≡◌, Some, OnOk, OnErr};
ghost use Rattle.sdls_world.specs.Core.{idle, drawing, funding, spending};

use std::alloc::{AllocError, Global};
use std::marker::Model;

// One who steps. A pair is a row with a number.
#[derive(Drop)]
pub(crate) struct Actor {
    id: u64,
    armed: Option<usize>,
    last: Option<(usize, u64)>,
    is_funded: bool,
    drawn: Vec<(usize, u64)>,
    funded: Vec<(usize, u64)>,
    spent: Vec<(usize, u64)>,
}

impl Model for Actor {
    ghost use Rattle.sdls_world.specs.Core.{Doer};

    ghost Value = { Doer };

    ghost view = { λ a. record {
      id = a.id;
      armed = a.armed;
      last = a.last;
      is_funded = a.is_funded;
      drawn =
          a.drawn.items;
      funded = a.funded.items;
      spent = a.spent.items;
    } };
}

impl Actor {
    pub(crate) fn new(alloc: Global, id: u64) -> Actor
        ensures { result ≡ idle id }
    {
        Actor {
            id,
            armed: None,
            last: None,
            is_funded: false,
            drawn: Vec::new(alloc),
            funded: Vec::new(alloc),
            spent: Vec::new(alloc),
        }
    }

    pub(crate) fn id(&self) -> u64
        ensures { result ≡ self.now.id }
    {
        self.id
    }

    pub(crate) fn armed(&self) -> Option<usize>
        ensures { result ≡ self.now.armed }
    {
        self.armed
    }

    // The number drawn last, until it is used.
    pub(crate) fn last(&self) -> Option<(usize, u64)>
        ensures { result ≡ self.now.last }
    {
        self.last
    }

    pub(crate) fn is_funded(&self) -> bool
        ensures { result ≡ self.now.is_funded }
    {
        self.is_funded
    }

    pub(crate) fn arm(&mut self, row: usize)
        ensures { self.new ≡ record self.old { armed = Some row } }
    {
        self.armed = Some(row);
    }

    pub(crate) fn draw(&mut self, row: usize, number: u64) -> Result<(), AllocError>
        ensures ok { OnOk result (self.new ≡ drawing row number self.old) }
        ensures err { OnErr result (self.new ≡ self.old) }
    {
        self.drawn.push((row, number))?;
        self.armed = None;
        self.last = Some((row, number));
        self.is_funded = false;
        Ok(())
    }

    pub(crate) fn fund(&mut self, pair: (usize, u64)) -> Result<(), AllocError>
        ensures ok { OnOk result (self.new ≡ funding pair self.old) }
        ensures err { OnErr result (self.new ≡ self.old) }
    {
        self.funded.push(pair)?;
        self.is_funded = true;
        Ok(())
    }

    pub(crate) fn spend(&mut self, pair: (usize, u64)) -> Result<(), AllocError>
        ensures ok { OnOk result (self.new ≡ spending pair self.old) }
        ensures err { OnErr result (self.new ≡ self.old) }
    {
        self.spent.push(pair)?;
        self.last = None;
        self.is_funded = false;
        Ok(())
    }
}
