use crate::guarded::Guarded;
use crate::orders::rows_by;
use crate::outcomes::{word_outcome, word_written};
use crate::plans::Plans;
use crate::searches::{Stored, make, word_stored};
use guard::call::{Call, SearchTerms};
use order::delivered::Delivered;
use order::greatest::rank;
use order::laws::test;
use order::rows::rows_of;
use plan::file::FilePlan;
use plan::table::Table;
use script::hex::decode;
use script::order_name::OrderName;
use script::pairs::pair_bytes;
use script::search_statement::{SearchStatement, parse_search};
use script::statement::{Statement, is_passed_over, parse};
use script::terms::Terms;
use search::compare::compare;
use search::open::open;
use std::alloc::{AllocError, Global};
use wording::answer::{Answer, word_answer};
use wording::draw::draw;
use wording::echo::echo;
use wording::pairs::word_pairs;
use wording::show::show;

/// What a script has come to so far.
#[derive(Drop)]
pub(crate) struct Session {
    heap: Global,
    /// The guard, with the programme and the rule that were drawn.
    guarded: Guarded,
    /// The plans by name.
    plans: Plans,
    /// The order that was delivered last, as rows.
    delivered: [u64; 64],
    /// What the last search stored, if there was one.
    stored: Option<Stored>,
}

impl Session {
    /// A blank guard, no plans, an order without pairs, and no search.
    pub(crate) fn new(heap: Global) -> Session {
        Session {
            heap,
            guarded: Guarded::new(heap),
            plans: Plans::new(heap),
            delivered: [0; 64],
            stored: None,
        }
    }

    /// Works one line through and appends its answer line to `out`, if one is due.
    pub(crate) fn work(&mut self, line: &[u8], out: &mut Vec<u8>) -> Result<(), AllocError> {
        if is_passed_over(line) {
            return Ok(());
        }
        echo(out, line)?;
        out.push(b':')?;
        if let Some(statement) = parse(line) {
            self.perform(statement, out)?;
        } else {
            out.push(b' ')?;
            match parse_search(line) {
                Some(statement) => self.perform_search(statement, out)?,
                None => word_answer(out, Answer::Malformed)?,
            }
        }
        out.push(b'\n')?;
        Ok(())
    }

    /// Whether the calls on the guard, worked through once more, are answered as they were.
    pub(crate) fn is_confirmed(&self) -> Result<bool, AllocError> {
        self.guarded.is_confirmed()
    }

    /// Performs a statement about plans, sides or orders. The pairs of an order bring the space in front of them.
    fn perform(&mut self, statement: Statement, out: &mut Vec<u8>) -> Result<(), AllocError> {
        match statement {
            Statement::Rank => word_pairs(out, &self.guarded.guard().rank()),
            Statement::RankPlans { programme, rule } => self.rank_plans(programme, rule, out),
            _ => {
                out.push(b' ')?;
                match drawing(statement) {
                    Some(call) => self.guarded.work(call, &mut self.stored, out),
                    None => self.perform_other(statement, out),
                }
            }
        }
    }

    /// Performs a statement that neither draws nor ranks.
    fn perform_other(&mut self, statement: Statement, out: &mut Vec<u8>) -> Result<(), AllocError> {
        let heap = self.heap;
        match statement {
            Statement::Plan { name, hex } => self.plans.bind(name, hex, out),
            Statement::Rewrite { name } => self.plans.rewrite(name, out),
            Statement::Write { side, buffer } => {
                on(
                    self.side(side),
                    out,
                    |table, out| word_written(heap, table, buffer, out),
                )
            }
            Statement::ShowSide { side } => on(self.side(side), out, |table, out| show(out, table)),
            Statement::ShowPlan { name } => on(self.plan(name), out, |plan, out| show(out, &plan)),
            Statement::Pairs { text } => self.deliver(&pair_bytes(text), out),
            Statement::Deliver { hex } => {
                let bytes = decode(heap, hex)?;
                self.deliver(bytes.as_slice(), out)
            }
            Statement::Test { order } => self.test_sides(order, out),
            Statement::TestPlans {
                programme,
                rule,
                order,
            } => self.test_plans(programme, rule, order, out),
            // The statements that draw and that rank are performed before.
            _ => word_answer(out, Answer::Malformed),
        }
    }

    /// Performs a statement about searches, release or pictures.
    fn perform_search(
        &mut self,
        statement: SearchStatement,
        out: &mut Vec<u8>,
    ) -> Result<(), AllocError> {
        match statement {
            SearchStatement::Compare { terms } => {
                let terms = self.terms_of_sides(terms);
                self.guarded
                    .work(Call::Compare { terms }, &mut self.stored, out)
            }
            SearchStatement::Open { commands, terms } => {
                let terms = self.terms_of_rule(terms);
                self.guarded
                    .work(Call::Open { commands, terms }, &mut self.stored, out)
            }
            SearchStatement::ComparePlans {
                programme,
                rule,
                terms,
            } => self.compare_plans(programme, rule, terms, out),
            SearchStatement::OpenPlan {
                name,
                commands,
                terms,
            } => self.open_plan(name, commands, terms, out),
            SearchStatement::Slots => word_stored(out, &self.stored),
            SearchStatement::Release => self.guarded.work(Call::Release, &mut self.stored, out),
            SearchStatement::DrawSide { side } => {
                on(self.side(side), out, |table, out| draw(out, table))
            }
            SearchStatement::DrawPlan { name } => {
                on(self.plan(name), out, |plan, out| draw(out, &plan))
            }
        }
    }

    /// Takes the order that the bytes hold, if they are 512; others leave the former one.
    fn deliver(&mut self, bytes: &[u8], out: &mut Vec<u8>) -> Result<(), AllocError> {
        match Delivered::new(bytes) {
            Ok(order) => {
                self.delivered = rows_of(&order);
                word_answer(out, Answer::Done)
            }
            Err(refusal) => word_answer(out, Answer::Refused(refusal)),
        }
    }

    /// The terms of a comparison of the two sides.
    fn terms_of_sides(&self, terms: Terms) -> SearchTerms {
        let guard = self.guarded.guard();
        listed(
            terms,
            rows_by(
                terms.order,
                guard.programme(),
                guard.rule(),
                &self.delivered,
            ),
        )
    }

    /// The terms of the question whether the rule is open. The greatest order is that beside no programme.
    fn terms_of_rule(&self, terms: Terms) -> SearchTerms {
        let rule = self.guarded.guard().rule();
        listed(
            terms,
            rows_by(terms.order, &Table::new(), rule, &self.delivered),
        )
    }

    /// The plan of a side, or the answer that there is no such side.
    fn side(&self, side: u8) -> Result<&Table, Answer> {
        self.guarded.side(side).map_err(Answer::Refused)
    }

    /// The plan of a name, or the answer that there is none.
    fn plan(&self, name: &[u8]) -> Result<FilePlan<'_>, Answer> {
        self.plans.find(name).ok_or(Answer::UnknownPlan)
    }

    /// The two plans of these names, or the answer that one is unknown.
    fn both(&self, programme: &[u8], rule: &[u8]) -> Result<(FilePlan<'_>, FilePlan<'_>), Answer> {
        Ok((self.plan(programme)?, self.plan(rule)?))
    }

    /// Answers the greatest order of two named plans.
    fn rank_plans(
        &self,
        programme: &[u8],
        rule: &[u8],
        out: &mut Vec<u8>,
    ) -> Result<(), AllocError> {
        match self.both(programme, rule) {
            Ok((programme, rule)) => word_pairs(out, &rank(&programme, &rule)),
            Err(answer) => {
                out.push(b' ')?;
                word_answer(out, answer)
            }
        }
    }

    /// Answers the test of an order for the two sides.
    fn test_sides(&self, order: OrderName, out: &mut Vec<u8>) -> Result<(), AllocError> {
        let programme = self.guarded.guard().programme();
        let rule = self.guarded.guard().rule();
        let rows = rows_by(order, programme, rule, &self.delivered);
        word_outcome(out, test(programme, rule, &rows))
    }

    /// Answers the test of an order for two named plans.
    fn test_plans(
        &self,
        programme: &[u8],
        rule: &[u8],
        order: OrderName,
        out: &mut Vec<u8>,
    ) -> Result<(), AllocError> {
        on(self.both(programme, rule), out, |(programme, rule), out| {
            let rows = rows_by(order, &programme, &rule, &self.delivered);
            word_outcome(out, test(&programme, &rule, &rows))
        })
    }

    /// Answers the comparison of two named plans, and keeps what was stored.
    fn compare_plans(
        &mut self,
        programme: &[u8],
        rule: &[u8],
        terms: Terms,
        out: &mut Vec<u8>,
    ) -> Result<(), AllocError> {
        let (programme, rule) = match self.both(programme, rule) {
            Ok(plans) => plans,
            Err(answer) => return word_answer(out, answer),
        };
        let rows = rows_by(terms.order, &programme, &rule, &self.delivered);
        let made = make(self.heap, terms.slots, terms.bytes, |slots, run| {
            compare(&programme, &rule, &rows, slots, run)
        })?;
        if let Some(slots) = made.word(out)? {
            self.stored = Some(Stored::Pairs(slots));
        }
        Ok(())
    }

    /// Answers whether the named plan is open, and keeps what was stored.
    fn open_plan(
        &mut self,
        name: &[u8],
        commands: u8,
        terms: Terms,
        out: &mut Vec<u8>,
    ) -> Result<(), AllocError> {
        let Some(plan) = self.plans.find(name) else {
            return word_answer(out, Answer::UnknownPlan);
        };
        let rows = rows_by(terms.order, &Table::new(), &plan, &self.delivered);
        let made = make(self.heap, terms.slots, terms.bytes, |slots, run| {
            open(&plan, commands, &rows, slots, run)
        })?;
        if let Some(slots) = made.word(out)? {
            self.stored = Some(Stored::Sets(slots));
        }
        Ok(())
    }
}

/// Says something of a plan that was asked for, or the answer that stands in its place.
fn on<P, F: FnOnce(P, &mut Vec<u8>) -> Result<(), AllocError> + Drop>(
    plan: Result<P, Answer>,
    out: &mut Vec<u8>,
    say: F,
) -> Result<(), AllocError>
    requires { F.IsAlwaysCallable say }
{
    match plan {
        Ok(plan) => say(plan, out),
        Err(answer) => word_answer(out, answer),
    }
}

/// What a statement says of a search, with its order as rows.
fn listed(terms: Terms, order: [u64; 64]) -> SearchTerms {
    SearchTerms {
        order,
        slots: terms.slots,
        bytes: terms.bytes,
    }
}

// Stays: neither type is this crate's, so this cannot be a `TryFrom`; each names its cases for its own readers.
/// The call on the guard that a statement is, where it draws.
fn drawing(statement: Statement) -> Option<Call> {
    match statement {
        Statement::State { side } => Some(Call::State { side }),
        Statement::Start { side, state } => Some(Call::Start { side, state }),
        Statement::End { side, state } => Some(Call::End { side, state }),
        Statement::Arrow {
            side,
            from,
            command,
            to,
        } => Some(Call::Arrow {
            side,
            from,
            command,
            to,
        }),
        Statement::Lift {
            side,
            from,
            command,
            to,
        } => Some(Call::Lift {
            side,
            from,
            command,
            to,
        }),
        _ => None,
    }
}
