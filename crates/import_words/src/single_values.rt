// The values of the options that have one at most.

/// The values of the options that have one at most, still as text.
#[derive(Clone, Copy)]
pub(crate) struct SingleValues<'a> {
    pub(crate) layout: Option<&'a str>,
    pub(crate) seats: Option<&'a str>,
    pub(crate) title: Option<&'a str>,
    pub(crate) withdrawn: Option<&'a str>,
    pub(crate) output: Option<&'a str>,
    pub(crate) equal: Option<&'a str>,
    pub(crate) skipped: Option<&'a str>,
    pub(crate) empty: Option<&'a str>,
    pub(crate) separator: Option<&'a str>,
    pub(crate) weight: Option<&'a str>,
    pub(crate) names: Option<&'a str>,
    pub(crate) ranks: Option<&'a str>,
    pub(crate) repeated: Option<&'a str>,
    pub(crate) head: Option<&'a str>,
    pub(crate) chosen: Option<&'a str>,
}
