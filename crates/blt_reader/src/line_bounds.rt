use input_text::FaultKind;

/// What ballot lines may be: of ballots among so many candidates, and together of at most so many. A count
/// that goes past them is refused for `refusal`.
#[derive(Clone, Copy)]
pub struct LineBounds {
    pub candidates: u32,
    pub most: u32,
    pub refusal: FaultKind,
}
