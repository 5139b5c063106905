ghost use Rattle.std.specs.Prelude.{◌≡◌, ℕ, ◌+◌, ◌*◌, ◌/◌, ◌%◌, ◌^◌, ◌<◌, ◌≤◌, [], ◌∷◌, ◌++◌, length, take, drop, bytes_eq, codes, decimal, flat_map};
ghost use Rattle.std.specs.Char.{digit_char};
ghost use Rattle.std.specs.Int.{w32, to_be_bytes};
ghost use Rattle.std.specs.Net.Text as Text;
ghost use Rattle.hx_text.specs.Address.{ip_text};
ghost use Rattle.hx_text.specs.Printing.{groups_of, is_mapped};

use crate::address::Ip;
use arrayvec::ArrayVec;
use itoa::Buffer;

/// A text that is being written. The longest text of an address has 39 bytes: eight groups of
/// four digits, and seven colons.
type Line = ArrayVec<u8, 39>;

pub(crate) fn push_all<const N: usize>(line: &mut ArrayVec<u8, N>, bytes: &[u8])
    requires { length line.old.items + length bytes.now ≤ N }
    ensures { line.new.items ≡ line.old.items ++ bytes.now }
{
    let _ = line.try_extend_from_slice(bytes);
}

fn push_octet(line: &mut Line, octet: u8)
    requires { length line.old.items + 3 ≤ 39 }
    ensures text { line.new.items ≡ line.old.items ++ decimal octet }
    ensures short { length line.new.items ≤ length line.old.items + 3 }
{
    let mut buffer = Buffer::new();
    push_all(line, buffer.format(octet).as_bytes());
}

fn push_dotted(line: &mut Line, a: u8, b: u8, c: u8, d: u8)
    requires { length line.old.items + 15 ≤ 39 }
    ensures { line.new.items ≡ line.old.items ++ Text.dotted_text a b c d }
{
    push_octet(line, a);
    line.push(b'.');
    push_octet(line, b);
    line.push(b'.');
    push_octet(line, c);
    line.push(b'.');
    push_octet(line, d);
}

fn hex_digit(digit: u16) -> u8
    requires { digit < 16 }
    ensures { result ≡ digit_char digit }
{
    if digit < 10 {
        b'0' + digit as u8
    } else {
        b'a' - 10 + digit as u8
    }
}

#[tactic(auto, using(crate::proofs::PrintLemmas::hex_cases))]
fn push_hex(line: &mut Line, group: u16)
    requires { length line.old.items + 4 ≤ 39 }
    ensures text { line.new.items ≡ line.old.items ++ Text.hex group }
    ensures short { length line.new.items ≤ length line.old.items + 4 }
{
    let a = hex_digit(group / 0x1000);
    let b = hex_digit(group / 0x100 % 0x10);
    let c = hex_digit(group / 0x10 % 0x10);
    let d = hex_digit(group % 0x10);
    match group {
        0x1000.. => push_all(line, &[a, b, c, d]),
        0x100.. => push_all(line, &[b, c, d]),
        0x10.. => push_all(line, &[c, d]),
        _ => push_all(line, &[d]),
    }
}

fn push_more_groups(line: &mut Line, groups: &[u16])
    requires { length line.old.items + 5 * length groups.now ≤ 39 }
    ensures text { line.new.items
        ≡ line.old.items ++ flat_map (λ g. codes ":" ++ Text.hex g) groups.now }
    ensures short { length line.new.items ≤ length line.old.items + 5 * length groups.now }
{
    for group in groups {
        line.push(b':');
        push_hex(line, *group);
    }
}

fn push_groups(line: &mut Line, groups: &[u16])
    requires { length line.old.items + 5 * length groups.now ≤ 40 }
    ensures text { line.new.items ≡ line.old.items ++ Text.groups_text groups.now }
    ensures short { length line.new.items ≤ length line.old.items + 5 * length groups.now }
{
    if let [first, rest @ ..] = groups {
        push_hex(line, *first);
        push_more_groups(line, rest);
    }
}

/// Where the longest run of zero groups begins, the first of that length, and how many it has.
fn longest_zero_run(groups: &[u16]) -> (usize, usize)
    ensures value { result ≡ Text.longest_zero_run groups.now }
    ensures within { result.0 + result.1 ≤ length groups.now }
{
    let mut start = groups.len();
    let mut len = 0;
    let mut run = 0;
    let mut at = groups.len();
    while at > 0 {
        at -= 1;
        run = if groups[at] == 0 { run + 1 } else { 0 };
        if run >= len {
            start = at;
            len = run;
        }
    }
    (start, len)
}

#[tactic(auto, using(crate::proofs::PrintLemmas::plain_text))]
fn push_compressed(line: &mut Line, groups: &[u16])
    requires { length line.old.items + 5 * length groups.now ≤ 40 }
    ensures { line.new.items ≡ line.old.items ++ Text.hex_groups_text groups.now }
{
    let (start, len) = longest_zero_run(groups);
    if len < 2 {
        push_groups(line, groups);
    } else {
        let (before, _) = groups.split_at(start);
        let (_, after) = groups.split_at(start + len);
        push_groups(line, before);
        push_all(line, b"::");
        push_groups(line, after);
    }
}

fn group_at(address: u128, shift: u32) -> u16
    requires { shift < 128 }
    ensures { result ≡ address / 2 ^ shift % 2 ^ 16 }
{
    ((address >> shift) % 0x1_0000) as u16
}

fn groups(address: u128) -> [u16; 8]
    ensures { result ≡ groups_of address }
{
    [
        group_at(address, 112),
        group_at(address, 96),
        group_at(address, 80),
        group_at(address, 64),
        group_at(address, 48),
        group_at(address, 32),
        group_at(address, 16),
        group_at(address, 0),
    ]
}

/// Whether the address is in `::ffff:0:0/96`.
fn is_mapped(groups: &[u16; 8]) -> bool
    ensures { result ≡ is_mapped groups.now }
{
    let (prefix, _) = groups.split_at(6);
    prefix == [0, 0, 0, 0, 0, 0xffff].as_slice()
}

fn push_ipv6(line: &mut Line, address: u128)
    requires { line.old.items ≡ [] }
    ensures { line.new.items ≡ Text.ipv6_text (groups_of address) }
{
    let groups = groups(address);
    if is_mapped(&groups) {
        let g = groups[6];
        let h = groups[7];
        push_all(line, b"::ffff:");
        push_dotted(line, high(g), low(g), high(h), low(h));
    } else {
        push_compressed(line, &groups);
    }
}

fn high(group: u16) -> u8
    ensures { result ≡ group / 256 }
{
    (group / 256) as u8
}

fn low(group: u16) -> u8
    ensures { result ≡ group % 256 }
{
    (group % 256) as u8
}

#[tactic(auto, unfolding(crate::specs::Address::ip_text))]
fn text_of(ip: Ip) -> Line
    ensures { result.items ≡ ip_text ip }
{
    let mut line = ArrayVec::new();
    match ip {
        Ip::V4(address) => {
            let [a, b, c, d] = address.to_be_bytes();
            push_dotted(&mut line, a, b, c, d);
        }
        Ip::V6(address) => push_ipv6(&mut line, address),
    }
    line
}

/// Writes the text of `ip` at the start of `out`, and answers its length in bytes. The rest of
/// `out` stays as it was. An IPv4 address is written in dotted decimal, and an IPv6 address as
/// RFC 5952 section 4 has it, with the last 32 bits in dotted decimal for `::ffff:0:0/96` alone.
pub fn print_ip(ip: Ip, out: &mut [u8; 39]) -> usize
    ensures text { out.new ≡ ip_text ip ++ drop result out.old }
    ensures len { result ≡ length (ip_text ip) }
{
    let line = text_of(ip);
    let text = line.as_slice();
    let len = text.len();
    out[..len].copy_from_slice(text);
    len
}
