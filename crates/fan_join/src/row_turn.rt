use row_delta::Row;

/// What a step does with left rows that are shared: those that were there and went, and those that are to come and were not there.
#[derive(Drop)]
pub(crate) struct RowTurn {
    pub(crate) went: Vec<Row>,
    pub(crate) came: Vec<Row>,
}
