//! Places, which workers draw from one word in single atomic steps.
ghost use Rattle.std.specs.Prelude.{◌≡◌, ◌+◌, ◌-◌, ◌<◌, ◌≤◌, ◌∷◌, ◌++◌, [], length, IfOk};
ghost use Rattle.pmcd_server.specs.Draws.{AreBelow, most, share};

use crate::draws::{Drawing, Draws, EachOnce, Sharing, Taking};
use atomic_table::{Seat, Table};
use pcp_base::NoMemory;
use std::alloc::Global;
use std::marker::Model;

/// The word from which places are drawn.
pub struct Places {
    table: Table<(), Draws, (), EachOnce, Global>,
}

impl Model for Places {
    ghost use Rattle.std.specs.Prelude.{◌≡◌};
    ghost use Rattle.atomic_table.specs.Seated.{TableId};

    ghost Value = { TableId };

    ghost view = { λ p. p.table.shared.table_id };

    ghost invariant = { λ p. (p.table.shared.table_id.words ≡ 1) × (p.table.shared.table_id.slots ≡ 0) };
}

/// A worker's token, with which it draws places. Contracts see the places that it drew.
#[derive(Drop)]
pub struct Drawer {
    seat: Seat<(), Draws>,
}

impl Model for Drawer {
    ghost use Rattle.std.specs.Prelude.{◌≡◌, []};
    ghost use Rattle.pmcd_server.specs.Places.{Drawer as Known};

    ghost Value = { Known };

    ghost view = { λ d. record { word = d.seat.table_id; left = d.seat.me.0.left; drawn = d.seat.me.0.drawn } };

    ghost invariant = { λ d. d.seat.me.1 ≡ [] };
}

impl Places {
    /// A word from which nothing was drawn.
    pub fn new(alloc: Global) -> Result<(Places, Drawer), NoMemory>
        ensures { IfOk result (λ made. made.1 ≡ record { word = made.0; left = most; drawn = [] }) }
    {
        let (table, seat) = Table::of_words(alloc, &[0], &())?;
        Ok((Places { table }, Drawer { seat }))
    }

    /// Draws the next number.
    pub fn draw(&self, drawer: &mut Drawer) -> u64
        requires here { drawer.old.word ≡ self.now }
        requires left { 0 < drawer.old.left }
        ensures { drawer.new ≡ record { word = drawer.old.word; left = drawer.old.left - 1; drawn = drawer.old.drawn ++ result ∷ [] } }
    {
        self.table
            .shared
            .fetch_add::<Drawing>(&mut drawer.seat, 0, 1)
    }

    /// A token of a further worker.
    pub fn hand_out(&self, drawer: &mut Drawer) -> Drawer
        requires here { drawer.old.word ≡ self.now }
        requires left { share ≤ drawer.old.left }
        ensures kept { drawer.new ≡ record { word = drawer.old.word; left = drawer.old.left - share; drawn = drawer.old.drawn } }
        ensures given { result ≡ record { word = drawer.old.word; left = share; drawn = [] } }
    {
        Drawer {
            seat: self.table.shared.split_seat::<Sharing>(&mut drawer.seat),
        }
    }

    /// Puts what another worker drew to what this one drew.
    pub fn take_back(&self, drawer: &mut Drawer, other: Drawer)
        requires here { drawer.old.word ≡ self.now }
        requires there { other.word ≡ self.now }
        ensures { drawer.new ≡ record { word = drawer.old.word; left = drawer.old.left + other.left; drawn = drawer.old.drawn ++ other.drawn } }
    {
        let Drawer { seat } = other;
        self.table
            .shared
            .join_seat::<Taking>(&mut drawer.seat, seat);
    }

    /// Ends the drawing. Of who has every share: the numbers drawn are those from 0 upwards, each once.
    pub fn close(self, drawer: Drawer)
        requires here { drawer.word ≡ self }
        requires all { drawer.left + length drawer.drawn ≡ most }
        ensures { AreBelow drawer.drawn (length drawer.drawn) }
    {
        let Places { table } = self;
        let Drawer { seat } = drawer;
        table.close_with(seat).free();
    }
}
