//! An object whose condition speaks of a seat's own calls: a baton, which only the seat that took it may put back.
use crate::object::Object;

/// What a seat may ask for.
#[derive(Drop)]
pub enum BatonOp {
    /// To have the baton, where it is there. The reply says whether it was.
    Take,
    /// To put back the baton that this seat took.
    Put,
}

/// A baton that one seat at most holds.
#[derive(Drop)]
pub struct Baton {
    /// Whether a seat holds it.
    pub out: bool,
}

impl Object for Baton {
    ghost use Rattle.seat_booth.specs.Baton.{BatonGives, BatonCan, BatonMay, follows_for_baton};

    type Op = BatonOp;

    type Reply = bool;

    type Meaning = bool;

    ghost meaning = { λ b. b.out };

    ghost gives = { BatonGives };

    ghost can = { BatonCan };

    ghost may = { BatonMay };

    fn step(&mut self, op: BatonOp) -> bool {
        match op {
            BatonOp::Take => {
                let there = !self.out;
                self.out = true;
                there
            }
            BatonOp::Put => {
                self.out = false;
                false
            }
        }
    }

    ghost follows = { follows_for_baton };
}
