use calls::standing::Standing;
use plan::table::Table;

/// A guard: the programme and the rule as they are drawn, and where it stands.
#[derive(Drop)]
pub struct Guard {
    pub(crate) programme: Table,
    pub(crate) rule: Table,
    pub(crate) standing: Standing,
}
