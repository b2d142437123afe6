/// The value of each option that stands, and the plain word, all still as text.
#[derive(Clone, Copy)]
pub(crate) struct Values<'a> {
    pub(crate) lots: Option<&'a str>,
    pub(crate) shards: Option<&'a str>,
    pub(crate) workers: Option<&'a str>,
    pub(crate) plain: Option<&'a str>,
}
