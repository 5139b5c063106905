/// Texts that tell how many of a line's first words are right, where the line is refused.
///
/// Words are judged from the left. So where some text behind the first words makes the code with
/// which the line is refused go away or be another one, the fault isn't in these words. For each
/// place where the language wants more, at least one of these texts is taken there, or is refused
/// otherwise than the lack of it would be; so where the code stays the same for all of them, the
/// fault is in these words.
///
/// Each begins with the blank that ends the word before it, but for the empty one. Those that are
/// refused come first, since a speller that has taken words has to be made anew.
pub const PROBES: [&[u8]; 18] = [
    b" -u x",
    b" if ?",
    b"",
    b" %",
    b" a %",
    b" location %",
    b" ?",
    b" http",
    b" a",
    b" 301",
    b" on",
    b" 1 1",
    b" -m found",
    b" TRUE",
    b" }",
    b" a }",
    b" path }",
    b" path a }",
];
