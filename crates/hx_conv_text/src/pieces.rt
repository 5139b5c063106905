ghost use Rattle.std.specs.Prelude.{◌≡◌, ℕ, ◌+◌, ◌-◌, ◌≤◌, ◌<◌, [], ◌∷◌, length, drop, take, false, IfSome, IfNone, option_map};
ghost use Rattle.std.specs.List.{filter, position_or_len, prefix_len};
ghost use Rattle.hx_conv_text.specs.Pieces.{field_spans, is_in, first_items, items_at, last_items, piece_count, text_across, word_spans};
ghost use Rattle.hx_conv_text.specs.Scanning.{bytes_at, fields_after, is_filled, last_end, pieces_left, LiesWithin};

use memchr::{memchr, memchr2};

/// Where the text across the fields that `index` and `count` name begins and ends, with the
/// delimiters between them. Where `index` is positive these are so many from the one of that number
/// on, and where it is negative so many up to the one that is counted from the last, -1: one
/// without a count, and all for 0. None where there is no field at the index.
pub(crate) fn field(
    index: i64,
    delims: &[u8],
    count: Option<i64>,
    text: &[u8],
) -> Option<(usize, usize)>
    ensures value { option_map (bytes_at text.now) result
        ≡ text_across text.now (items_at index count (field_spans delims.now text.now)) }
    ensures within { IfSome result (LiesWithin text.now) }
{
    if index == 1 && piece_count(count) == 1 {
        return next_field(delims, text, 0);
    }
    let pieces = Pieces {
        words: false,
        delims,
        text,
    };
    pieces.part(index, count)
}

/// The same of words, the longest runs of bytes that aren't delimiters.
pub(crate) fn word(
    index: i64,
    delims: &[u8],
    count: Option<i64>,
    text: &[u8],
) -> Option<(usize, usize)>
    ensures value { option_map (bytes_at text.now) result
        ≡ text_across text.now (items_at index count (word_spans delims.now text.now)) }
    ensures within { IfSome result (LiesWithin text.now) }
{
    if index == 1 && piece_count(count) == 1 {
        return next_word(delims, text, 0);
    }
    let pieces = Pieces {
        words: true,
        delims,
        text,
    };
    pieces.part(index, count)
}

/// Whether the byte is one of these.
pub(crate) fn is_in(bytes: &[u8], b: u8) -> bool
    ensures { result ≡ is_in bytes.now b }
{
    match bytes {
        [byte] => *byte == b,
        _ => bytes.contains(&b),
    }
}

/// How many bytes the text begins with that aren't this one.
fn leading_other(byte: u8, text: &[u8]) -> usize
    ensures value { result ≡ position_or_len (is_in (byte ∷ [])) text.now }
    ensures within { result ≤ length text.now }
{
    match memchr(byte, text) {
        Some(at) => at,
        None => text.len(),
    }
}

/// How many bytes the text begins with that are neither of these two.
fn leading_neither(first: u8, second: u8, text: &[u8]) -> usize
    ensures value { result ≡ position_or_len (is_in (first ∷ second ∷ [])) text.now }
    ensures within { result ≤ length text.now }
{
    match memchr2(first, second, text) {
        Some(at) => at,
        None => text.len(),
    }
}

/// How many bytes the text begins with that aren't in `bytes`. One byte or two are searched for,
/// which costs less than a test of each byte of the text against a list.
pub(crate) fn leading_outside(bytes: &[u8], text: &[u8]) -> usize
    ensures value { result ≡ position_or_len (is_in bytes.now) text.now }
    ensures within { result ≤ length text.now }
{
    match bytes {
        [byte] => leading_other(*byte, text),
        [first, second] => leading_neither(*first, *second, text),
        _ => text.iter().take_while(|b| !is_in(bytes, **b)).count(),
    }
}

/// How many bytes the text begins with that are in `bytes`.
pub(crate) fn leading_in(bytes: &[u8], text: &[u8]) -> usize
    ensures value { result ≡ prefix_len (is_in bytes.now) text.now }
    ensures within { result ≤ length text.now }
{
    text.iter().take_while(|b| is_in(bytes, **b)).count()
}

/// The first field from the position `at` on, where a field begins.
fn next_field(delims: &[u8], text: &[u8], at: usize) -> Option<(usize, usize)>
    ensures some { IfSome result (λ s.
        fields_after delims.now text.now at ≡ s ∷ fields_after delims.now text.now (s.1 + 1)) }
    ensures none { IfNone result (fields_after delims.now text.now at ≡ []) }
    ensures within { IfSome result (λ s. (at ≤ s.1) × (s.0 ≤ s.1) × (s.1 ≤ length text.now)) }
{
    if at > text.len() {
        return None;
    }
    Some((at, at + leading_outside(delims, &text[at..])))
}

/// The first word from the position `at` on.
fn next_word(delims: &[u8], text: &[u8], at: usize) -> Option<(usize, usize)>
    ensures some { IfSome result (λ s. filter is_filled (fields_after delims.now text.now at)
        ≡ s ∷ filter is_filled (fields_after delims.now text.now (s.1 + 1))) }
    ensures none { IfNone result (filter is_filled (fields_after delims.now text.now at) ≡ []) }
    ensures within { IfSome result (λ s. (at ≤ s.1) × (s.0 ≤ s.1) × (s.1 ≤ length text.now)) }
{
    if at > text.len() {
        return None;
    }
    let begin = at + leading_in(delims, &text[at..]);
    let end = begin + leading_outside(delims, &text[begin..]);
    if begin == end {
        None
    } else {
        Some((begin, end))
    }
}

/// A text that is cut at delimiters into fields, or into words.
#[derive(Clone, Copy)]
pub(crate) struct Pieces<'a, 'd> {
    pub words: bool,
    pub delims: &'d [u8],
    pub text: &'a [u8],
}

impl Pieces<'_, '_> {
    /// The first piece from the position `at` on.
    fn next(&self, at: usize) -> Option<(usize, usize)>
        ensures some { IfSome result (λ s.
            pieces_left self.now at ≡ s ∷ pieces_left self.now (s.1 + 1)) }
        ensures none { IfNone result (pieces_left self.now at ≡ []) }
        ensures within { IfSome result (λ s.
            (at ≤ s.1) × (s.0 ≤ s.1) × (s.1 ≤ length self.now.text.now)) }
    {
        if self.words {
            next_word(self.delims, self.text, at)
        } else {
            next_field(self.delims, self.text, at)
        }
    }

    /// How many pieces there are.
    fn count(&self) -> usize
        ensures value { result ≡ length (pieces_left self.now 0) }
        ensures within { result ≤ length self.now.text.now + 1 }
    {
        let mut count = 0;
        let mut at = 0;
        while let Some(span) = self.next(at) {
            count += 1;
            at = span.1 + 1;
        }
        count
    }

    /// The position after so many pieces. None where there are fewer.
    fn after(&self, skipped: usize) -> Option<usize>
        ensures some { IfSome result (λ at.
            pieces_left self.now at ≡ drop skipped (pieces_left self.now 0)) }
        ensures none { IfNone result (drop skipped (pieces_left self.now 0) ≡ []) }
    {
        let mut at = 0;
        for _i in 0..skipped {
            let span = self.next(at)?;
            at = span.1 + 1;
        }
        Some(at)
    }

    /// Where the last of so many pieces ends that follow one which ends at `end`.
    fn end_after(&self, end: usize, more: usize) -> usize
        requires { end ≤ length self.now.text.now }
        ensures value { result ≡ last_end end (take more (pieces_left self.now (end + 1))) }
        ensures within { (end ≤ result) × (result ≤ length self.now.text.now) }
    {
        let mut last = end;
        for _i in 0..more {
            match self.next(last + 1) {
                Some(span) => last = span.1,
                None => return last,
            }
        }
        last
    }

    /// The span across at most so many pieces after those that are skipped.
    fn across(&self, skipped: usize, most: usize) -> Option<(usize, usize)>
        requires { 0 < most }
        ensures value { option_map (bytes_at self.now.text.now) result
            ≡ text_across self.now.text.now (take most (drop skipped (pieces_left self.now 0))) }
        ensures within { IfSome result (LiesWithin self.now.text.now) }
    {
        let at = self.after(skipped)?;
        let span = self.next(at)?;
        let end = self.end_after(span.1, most - 1);
        Some((span.0, end))
    }

    /// The span across so many pieces after those that are skipped, or all for 0.
    fn from_first(&self, skipped: usize, most: usize) -> Option<(usize, usize)>
        ensures value { option_map (bytes_at self.now.text.now) result
            ≡ text_across self.now.text.now
            (first_items most (drop skipped (pieces_left self.now 0))) }
        ensures within { IfSome result (LiesWithin self.now.text.now) }
    {
        let most = if most == 0 { self.text.len() + 1 } else { most };
        self.across(skipped, most)
    }

    /// The span across so many pieces, or all for 0, up to the one that so many others follow.
    fn to_last(&self, others: usize, most: usize) -> Option<(usize, usize)>
        ensures value { option_map (bytes_at self.now.text.now) result
            ≡ text_across self.now.text.now (let pieces = pieces_left self.now 0 in
            last_items most (take (length pieces - others) pieces)) }
        ensures within { IfSome result (LiesWithin self.now.text.now) }
    {
        let pieces = self.count().saturating_sub(others);
        if pieces == 0 {
            return None;
        }
        let skipped = if most == 0 {
            0
        } else {
            pieces.saturating_sub(most)
        };
        self.across(skipped, pieces - skipped)
    }

    /// The last piece, found in one walk over all.
    fn last(&self) -> Option<(usize, usize)>
        ensures value { option_map (bytes_at self.now.text.now) result
            ≡ text_across self.now.text.now (last_items 1 (pieces_left self.now 0)) }
        ensures within { IfSome result (LiesWithin self.now.text.now) }
    {
        let mut last = self.next(0)?;
        while let Some(span) = self.next(last.1 + 1) {
            last = span;
        }
        Some(last)
    }

    /// The span across the pieces that an index and a count name.
    fn part(&self, index: i64, count: Option<i64>) -> Option<(usize, usize)>
        ensures value { option_map (bytes_at self.now.text.now) result
            ≡ text_across self.now.text.now (items_at index count (pieces_left self.now 0)) }
        ensures within { IfSome result (LiesWithin self.now.text.now) }
    {
        if index == -1 && piece_count(count) == 1 {
            return self.last();
        }
        let number = index.unsigned_abs() as usize;
        if index >= 0 {
            self.from_first(number.saturating_sub(1), piece_count(count))
        } else {
            self.to_last(number - 1, piece_count(count))
        }
    }
}

/// How many pieces are taken, 0 for all.
fn piece_count(count: Option<i64>) -> usize
    ensures { result ≡ piece_count count }
{
    match count {
        Some(count) if count > 0 => count as usize,
        Some(_) => 0,
        None => 1,
    }
}
