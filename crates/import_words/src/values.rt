// The values of each option.

/// The values of each option, still as text.
#[derive(Drop)]
pub(crate) struct Values<'a> {
    pub(crate) layout: Option<&'a str>,
    pub(crate) seats: Option<&'a str>,
    pub(crate) title: Option<&'a str>,
    pub(crate) withdrawn: Option<&'a str>,
    pub(crate) output: Option<&'a str>,
    pub(crate) equal: Option<&'a str>,
    pub(crate) skipped: Option<&'a str>,
    pub(crate) empty: Option<&'a str>,
    pub(crate) separator: Option<&'a str>,
    pub(crate) weight: Option<&'a str>,
    pub(crate) ignored: Vec<&'a str>,
    /// Of the two before, in the order of the words.
    pub(crate) columns: Vec<&'a str>,
    pub(crate) chosen: Option<&'a str>,
    pub(crate) blanks: Vec<&'a str>,
    pub(crate) names: Option<&'a str>,
    pub(crate) ranks: Option<&'a str>,
    pub(crate) candidates: Vec<&'a str>,
    pub(crate) overs: Vec<&'a str>,
    pub(crate) repeated: Option<&'a str>,
    pub(crate) head: Option<&'a str>,
}
