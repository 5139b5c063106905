ghost use Rattle.std.specs.Prelude.{◌≡◌, ◌++◌, true, OnOk};
ghost use Rattle.hx_diff.specs.Tally.{counted_if, differing, no_tally, some_differ, tally_after, totals};

use hx_record::Event;
use hx_text::NoMemory;
use itoa::Buffer;

/// How many requests and lines of the management socket came, and how many were answered
/// differently. Each number stays at the greatest one of 64 bits.
#[derive(Clone, Copy, PartialEq, Eq)]
pub struct Tally {
    pub requests: u64,
    pub requests_differ: u64,
    /// lines of the management socket that either side answered
    pub commands: u64,
    pub commands_differ: u64,
}

impl Tally {
    /// Nothing is counted yet.
    pub fn new() -> Tally
        ensures { result ≡ no_tally }
    {
        Tally {
            requests: 0,
            requests_differ: 0,
            commands: 0,
            commands_differ: 0,
        }
    }

    /// Whether any answers differed.
    pub fn some_differ(self) -> bool
        ensures { result ≡ some_differ self }
    {
        self.requests_differ > 0 || self.commands_differ > 0
    }

    /// The same after an event with these two answers.
    pub fn after(self, event: &Event, old: &[u8], new: &[u8]) -> Tally
        ensures { result ≡ tally_after self event.now old.now new.now }
    {
        match event {
            Event::Conn { .. } => self,
            Event::Req { .. } => self.after_request(old != new),
            Event::Close { .. } => self,
            Event::Cli { .. } => {
                self.after_command(!old.is_empty() || !new.is_empty(), old != new)
            }
        }
    }

    /// The same after a request whose answers differ or don't.
    fn after_request(self, differ: bool) -> Tally
        ensures { result ≡ record self {
          requests = counted_if true self.requests;
          requests_differ = counted_if differ self.requests_differ;
        } }
    {
        Tally {
            requests: counted_if(true, self.requests),
            requests_differ: counted_if(differ, self.requests_differ),
            commands: self.commands,
            commands_differ: self.commands_differ,
        }
    }

    /// The same after a line of the management socket, by whether either side answers it, and
    /// whether the replies differ.
    fn after_command(self, answered: bool, differ: bool) -> Tally
        ensures { result ≡ record self {
          commands = counted_if answered self.commands;
          commands_differ = counted_if differ self.commands_differ;
        } }
    {
        Tally {
            requests: self.requests,
            requests_differ: self.requests_differ,
            commands: counted_if(answered, self.commands),
            commands_differ: counted_if(differ, self.commands_differ),
        }
    }

    /// Appends the two lines that tell it.
    pub fn append_totals(&self, text: &mut Vec<u8>) -> Result<(), NoMemory>
        ensures { OnOk result (text.new.items ≡ text.old.items ++ totals self.now) }
    {
        text.extend_from_slice(b"requests ")?;
        append_differing(text, self.requests, self.requests_differ)?;
        text.extend_from_slice(b"commands ")?;
        append_differing(text, self.commands, self.commands_differ)
    }
}

/// A count, or the next one.
fn counted_if(counts: bool, count: u64) -> u64
    ensures { result ≡ counted_if counts count }
{
    if counts {
        count.saturating_add(1)
    } else {
        count
    }
}

/// Appends a count, and how many of it differ.
fn append_differing(text: &mut Vec<u8>, count: u64, differ: u64) -> Result<(), NoMemory>
    ensures { OnOk result (text.new.items ≡ text.old.items ++ differing count differ) }
{
    let mut digits = Buffer::new();
    text.extend_from_slice(digits.format(count).as_bytes())?;
    text.extend_from_slice(b", ")?;
    text.extend_from_slice(digits.format(differ).as_bytes())?;
    text.extend_from_slice(b" differ\n")?;
    Ok(())
}
