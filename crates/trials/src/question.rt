ghost use Rattle.trials.specs.Plans.{meant};

use crate::both::Both;
use plan::file::FilePlan;
use plan::interface::Plan;
use plan::refusal::Refusal;
use plan::table::Table;
use std::fmt;

/// One of the two searches.
#[derive(Clone, Copy)]
pub(crate) enum Question {
    /// Whether the rule permits every run of the programme.
    Compare,
    /// Whether the rule permits every run of the first commands.
    Open { commands: u8 },
}

impl fmt::Display for Question {
    fn fmt<W: fmt::Write>(&self, f: &mut fmt::Formatter<W>) -> fmt::Result {
        match self {
            Question::Compare => write!(f, "compare"),
            Question::Open { commands } => write!(f, "open {commands}"),
        }
    }
}

/// In which form a plan is handed to a call.
#[derive(Clone, Copy)]
pub(crate) enum Form {
    /// As it is drawn on a table.
    Drawn,
    /// As it is read from its file.
    Read,
}

impl From<u64> for Both<Form> {
    /// The four mixes of forms, one after the other as the number goes up.
    fn from(number: u64) -> Both<Form> {
        let (programme, rule) = match number % 4 {
            0 => (Form::Drawn, Form::Drawn),
            1 => (Form::Read, Form::Drawn),
            2 => (Form::Drawn, Form::Read),
            _ => (Form::Read, Form::Read),
        };
        Both { programme, rule }
    }
}

/// A plan, drawn on a table and written to a file.
#[derive(Drop)]
pub(crate) struct Written {
    pub table: Table,
    pub file: Vec<u8>,
}

impl Written {
    /// The plan in one of its forms. It is refused where the file is none.
    pub(crate) fn plan(&self, form: Form) -> Result<AnyPlan<'_>, Refusal> {
        match form {
            Form::Drawn => Ok(AnyPlan::Drawn(&self.table)),
            Form::Read => Ok(AnyPlan::Read(FilePlan::read(self.file.as_slice())?)),
        }
    }
}

/// A plan in either form.
#[derive(Drop)]
pub(crate) enum AnyPlan<'a> {
    /// It is drawn on a table.
    Drawn(&'a Table),
    /// It is read from a file.
    Read(FilePlan<'a>),
}

impl<'a> Plan for AnyPlan<'a> {
    ghost meaning = { meant };

    fn count(&self) -> u8 {
        match self {
            AnyPlan::Drawn(table) => table.count(),
            AnyPlan::Read(file) => file.count(),
        }
    }

    fn starts(&self) -> u32 {
        match self {
            AnyPlan::Drawn(table) => table.starts(),
            AnyPlan::Read(file) => file.starts(),
        }
    }

    fn ends(&self) -> u32 {
        match self {
            AnyPlan::Drawn(table) => table.ends(),
            AnyPlan::Read(file) => file.ends(),
        }
    }

    fn targets(&self, state: u8, command: u8) -> u32 {
        match self {
            AnyPlan::Drawn(table) => table.targets(state, command),
            AnyPlan::Read(file) => file.targets(state, command),
        }
    }
}
