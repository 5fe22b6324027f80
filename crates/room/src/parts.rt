// The desk, and just as much of the lent memory as is in use: what the desk's calls get.
use crate::Room;
use desk::{Catalogue, Changed, Desk, Left, Ran, Turned};
use lines::commands::Change;
use numbers::Refusal;
use seat::Seat;
use shown::{Asked, Lengths};

#[derive(Drop)]
pub struct Parts<'a> {
    pub desk: Desk,
    pub board: &'a mut [u8],
    pub catalogue: Catalogue<'a>,
}

impl Parts<'_> {
    pub fn change(&mut self, change: Change, asked: Asked) -> Changed {
        let desk = self.desk;
        let c = asked.seat as usize;
        let i = asked.feature as usize;
        let a = asked.option as usize;
        match change {
            Change::Open => desk::open(self.board, &self.catalogue),
            Change::Enter => desk::enter(desk, self.board, &self.catalogue, c),
            Change::Leave => desk::leave(desk, self.board, &self.catalogue, c),
            Change::Choose => desk::choose(desk, self.board, &self.catalogue, c, i, a),
            Change::Relax => desk::relax(desk, self.board, &self.catalogue, c, i),
        }
    }

    // The desk goes on from where the turns leave it.
    pub fn turn(&mut self, w: u16) -> Turned {
        let turned = desk::turns(self.desk, self.board, &self.catalogue, w);
        self.desk = turned.desk;
        turned
    }

    pub fn left(&self, seat: u32, feature: u32) -> Left {
        let i = feature as usize;
        desk::options(self.desk, self.board, &self.catalogue, seat as usize, i)
    }

    // Why a seat's options can't be read now, if they can't. The desk answers 0 where they can, which is no refusal's number.
    pub fn unreadable(&self, seat: u32) -> Option<Refusal> {
        Refusal::try_from(self.left(seat, 0).number).ok()
    }

    pub fn alternatives(&self, asked: Asked) -> Left {
        let c = asked.seat as usize;
        let i = asked.feature as usize;
        desk::alternatives(self.desk, self.board, &self.catalogue, c, i)
    }

    // Why there is no example, if there is none; by the desk's second call for it.
    pub fn no_example(&self, asked: Asked) -> Option<Refusal> {
        let c = asked.seat as usize;
        let i = asked.feature as usize;
        let a = asked.option as usize;
        let number = desk::example_number(self.desk, self.board, &self.catalogue, c, i, a);
        Refusal::try_from(number).ok()
    }

    pub fn example(&self, asked: Asked) -> &[u8] {
        let c = asked.seat as usize;
        let i = asked.feature as usize;
        let a = asked.option as usize;
        desk::example(self.desk, self.board, &self.catalogue, c, i, a)
    }

    pub fn ran_into(&self, seat: u32) -> Ran {
        desk::ran_into(self.desk, self.board, &self.catalogue, seat as usize)
    }

    pub fn lengths(&self) -> Lengths {
        Lengths {
            board: self.board.len(),
            sizes: self.catalogue.sizes.len(),
            rules: self.catalogue.rules.len(),
        }
    }

    // Of a seat that a call has found to be there.
    pub fn record(&self, seat: u32) -> Seat {
        self.desk.seats[(seat % 8) as usize]
    }
}

impl Room {
    // As much of the two lists as is in use.
    pub(crate) fn catalogue<'a>(&self, sizes: &'a [u8], rules: &'a [u16]) -> Catalogue<'a> {
        Catalogue {
            sizes: in_use(sizes, self.sizes_count),
            rules: in_use(rules, self.rules_count),
        }
    }
}

// As much of a list as is in use.
pub fn in_use<T>(all: &[T], count: usize) -> &[T] {
    &all[..count.min(all.len())]
}
