use crate::question::Question;
use crate::relation::Relation;
use crate::round::Round;
use crate::session::Session;
use crate::sides::{Ordered, Sides};
use crate::sketch::Sketch;
use crate::tally::{Fault, Kind};
use crate::trial::Trial;
use order::delivered::Delivered;
use order::interface::Order;
use order::same::Same;
use std::alloc::AllocError;

/// A question about two plans, and what the checker says of it whatever the order.
#[derive(Clone, Copy)]
pub(crate) struct Subject<'a> {
    pub round: &'a Round,
    pub question: Question,
    /// What permits the runs that are asked about.
    pub asked: &'a Sketch,
    /// The programme that the laws of an order speak of, beside the rule, which must permit all those runs.
    pub sides: Sides<'a>,
    /// The length of a shortest run that the rule does not permit.
    pub missed: Option<usize>,
    /// From how many usable slots on the answer may not be full, whatever the order.
    pub enough: usize,
}

impl<'a> Subject<'a> {
    /// From how many usable slots on the answer under an order may not be full: from none on where a comparison stores
    /// nothing, since each start of the programme is below one of the rule.
    fn enough_under(&self, ordered: &Ordered<'_>) -> usize {
        match self.question {
            Question::Compare if ordered.are_starts_below() => 0,
            _ => self.enough,
        }
    }

    /// Holds the question under one order.
    fn hold_under<O: Order>(
        &self,
        kind: Kind,
        order: &O,
        session: &mut Session,
    ) -> Result<(), AllocError> {
        let ordered = self.sides.under(Relation::of(order));
        let laws = ordered.check();
        let trial = Trial {
            subject: *self,
            kind,
            order,
            laws,
            enough: self.enough_under(&ordered),
        };
        session.tally.count_order(kind, laws);
        if laws.is_err() && kind.is_lawful() {
            trial.note(0, Fault::Law, session)?;
        }
        trial.hold(session)
    }

    /// Holds the question under a delivered order.
    fn hold_delivered(
        &self,
        kind: Kind,
        bytes: &[u8],
        session: &mut Session,
    ) -> Result<(), AllocError> {
        match Delivered::new(bytes) {
            Ok(order) => self.hold_under(kind, &order, session),
            Err(_) => session.tally.note_plans(self.round.seed, Fault::Law),
        }
    }

    /// Holds the question under every kind of order.
    pub(crate) fn hold(&self, session: &mut Session) -> Result<(), AllocError> {
        let orders = &self.round.orders;
        self.hold_under(Kind::Same, &Same, session)?;
        self.hold_under(Kind::Greatest, &orders.greatest, session)?;
        self.hold_delivered(Kind::Mended, orders.mended.as_slice(), session)?;
        self.hold_delivered(Kind::Drawn, orders.drawn.as_slice(), session)
    }
}
