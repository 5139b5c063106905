ghost use Rattle.std.specs.Prelude.{◌≡◌};
ghost use Rattle.hx_replay.specs.Counting.{requests_after};

use hx_record::Event;

/// Counts an event that is a request. The count saturates.
#[inline(always)]
pub fn count_request(event: &Event, requests: &mut u64)
    ensures { requests.new ≡ requests_after event.now requests.old }
{
    if let Event::Req { .. } = event {
        *requests = requests.saturating_add(1);
    }
}
