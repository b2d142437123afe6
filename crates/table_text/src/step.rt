/// What was read: a record, from its first byte up to right after its last, without its line end; or nothing
/// more.
#[derive(Clone, Copy, Debug, PartialEq, Eq)]
pub enum Step {
    Record { at: usize, end: usize, row: u32 },
    End,
}
