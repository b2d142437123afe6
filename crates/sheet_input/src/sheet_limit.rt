/// The greatest length of an input that is a sheet or begins with one, in bytes: of a sheet, alone or with its ballot
/// file, and of a day's text with its day file. A sheet of a ballot file that can be counted may be longer than any
/// such file; a ballot file that is to be counted has a limit of its own, `FILE_LIMIT` of tool_edge, and one that is
/// only looked at has this one.
pub const SHEET_LIMIT: usize = 1_073_741_824;
