ghost use Rattle.std.specs.Prelude.{◌≡◌, IfOk};
ghost use Rattle.hx_trace.specs.Why.{head_numbers, reference_number};

use hx_refs::Refs;
use hx_text::NoMemory;
use std::alloc::Global;

/// The number of the reference at the position `r`, or 0 where there are no more than `r`.
fn reference_number(refs: &Refs, r: u32) -> u32
    ensures { result ≡ reference_number refs.now.content r }
{
    if r < refs.len() { refs.info(r).id } else { 0 }
}

/// For each head of references, in their order, the number of the reference that it searches.
/// `NoMemory` where memory runs out. That is also the answer where there are heads whose numbers
/// have no room in 32 bits, for which no memory has room.
pub(crate) fn head_numbers(alloc: Global, refs: &Refs) -> Result<Vec<u32>, NoMemory>
    ensures { IfOk result (λ numbers. numbers.items ≡ head_numbers refs.now.content) }
{
    let mut numbers = Vec::new(alloc);
    let mut head = 0u32;
    'heads: while let Some(r) = refs.reference_of(head) {
        numbers.push(reference_number(refs, r))?;
        let Some(next) = head.checked_add(1) else {
            return Err(NoMemory);
        };
        head = next;
    }
    Ok(numbers)
}
