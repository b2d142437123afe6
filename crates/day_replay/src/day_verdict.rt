/// What is said of a text that is held to be the text of a day.
#[derive(Clone, Copy, Debug, PartialEq, Eq)]
pub enum DayVerdict {
    /// It is the text of a history of the day.
    True,
    /// This line, from 1, is the first that no history of the day has there, given the lines before it.
    False(u64),
}
