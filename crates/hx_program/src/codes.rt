//! The codes with which a configuration or a record is refused, each with its name and its reason.

use crate::tables::Row;

/// The codes of a configuration that is refused.
pub const CONFIG_CODES: [Row; 23] = [
    (b"1", b"OpenQuote", b"the line ends inside a quote"),
    (
        b"2",
        b"BadEscape",
        b"\\x needs two hexadecimal digits after it",
    ),
    (
        b"3",
        b"BadVariable",
        b"$ in double quotes needs NAME or {NAME} after it",
    ),
    (b"4", b"TooManyWords", b"the line has more than 256 words"),
    (
        b"5",
        b"ArgUnclosed",
        b"a call has no closing ), or %[ has no closing ]",
    ),
    (
        b"6",
        b"ArgAfterClose",
        b"after the ) of a call stands something else than a comma",
    ),
    (
        b"7",
        b"ArgEscape",
        b"\\x in an argument needs two hexadecimal digits after it",
    ),
    (b"8", b"ArgQuote", b"an argument ends inside a quote"),
    (
        b"9",
        b"Unsupported",
        b"unknown or unsupported statement, option, action, flag, fetch or converter",
    ),
    (
        b"10",
        b"BadArgument",
        b"a statement, a flag or a call has a wrong number of arguments, or one that it can't take",
    ),
    (
        b"11",
        b"BadType",
        b"a converter or a match method can't take the type of what stands before it",
    ),
    (
        b"12",
        b"BadName",
        b"the name of an ACL, a variable, a header, a frontend or a backend isn't of its form",
    ),
    (
        b"13",
        b"UnknownAcl",
        b"a condition names an ACL that is neither declared above nor predefined",
    ),
    (
        b"14",
        b"BadCondition",
        b"the condition is empty, isn't closed, or has no ACL where one must stand",
    ),
    (
        b"15",
        b"BadFormat",
        b"a % in a format is followed by neither % nor [",
    ),
    (
        b"16",
        b"BadPattern",
        b"a pattern, or a regular expression, is malformed, isn't UTF-8, or is nested too deep",
    ),
    (
        b"17",
        b"FileKind",
        b"this file is used as a list of patterns on one line and as a map on another",
    ),
    (
        b"18",
        b"BadValue",
        b"a value of a map of this line isn't of the type that is looked up in it",
    ),
    (
        b"19",
        b"Misplaced",
        b"frontend isn't the first statement, or default_backend stands here a second time",
    ),
    (
        b"20",
        b"FileTooLong",
        b"a file of this line has more than 1000000 entries",
    ),
    (
        b"21",
        b"UnknownTable",
        b"a rule changes this file, and no -f and no map names it",
    ),
    (
        b"22",
        b"IdTaken",
        b"-u gives a number that another reference has",
    ),
    (
        b"23",
        b"TooManyRefs",
        b"the configuration has more than 65536 files and lists of patterns",
    ),
];

/// The codes of a record that is refused. The last line doesn't say what is wrong of a bad line, so
/// its reason lists what may be.
pub const RECORD_CODES: [Row; 7] = [
    (
        b"1",
        b"BadLine",
        b"unknown event, words missing or too many, a word that is no address, \
          or another byte than a line feed after a request",
    ),
    (
        b"2",
        b"BadNumber",
        b"a number of this line isn't digits, or is above its limit",
    ),
    (
        b"3",
        b"CutRequest",
        b"the record ends inside the request that begins here",
    ),
    (
        b"4",
        b"TooLong",
        b"the record goes on after 4294967296 bytes",
    ),
    (b"5", b"LineTooLong", b"this line has more than 65536 bytes"),
    (
        b"6",
        b"UnknownConn",
        b"the connection of this line isn't open",
    ),
    (
        b"7",
        b"ConnOpen",
        b"the connection of this line is open already",
    ),
];

/// The codes of a configuration of which more is told than their rows say, or whose place is found
/// in a way of its own.
pub const UNSUPPORTED: u32 = 9;

pub const BAD_TYPE: u32 = 11;

pub const BAD_CONDITION: u32 = 14;

pub const BAD_PATTERN: u32 = 16;

pub const BAD_VALUE: u32 = 18;

pub const MISPLACED: u32 = 19;

pub const FILE_TOO_LONG: u32 = 20;

/// The same of a record: a line that is no event, and a request that is cut short.
pub const BAD_LINE: u32 = 1;

pub const CUT_REQUEST: u32 = 3;
