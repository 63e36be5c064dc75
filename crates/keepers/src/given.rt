// What a keeper gives out.

// A line as it was at the point, and whether a commit named it between the point before and that one. Both are always there, so that no Option would say more.
#[derive(Clone, Copy)]
pub struct Given<L> {
    pub line: L,
    pub named: bool,
}
