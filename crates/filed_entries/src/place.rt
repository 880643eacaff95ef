// Where a call lies among those that are filed.
ghost use Rattle.sheet_records.specs.Found.{Next};
ghost use Rattle.filed_entries.specs.Places.{Passed, Behind, Located};

// From `at` up to `next`.
#[derive(Clone, Copy)]
pub struct Place {
    pub at: usize,
    pub next: usize,
}

// The place behind the record that stands at a place.
fn next_at(calls: &[u8], at: usize) -> usize
    requires { Next calls.now at }
    ensures { Passed calls.now at result }
{
    match sheet_records::read_at(calls, at) {
        Some(entry) => entry.next,
        // A record stands there, so that this is not met.
        None => at,
    }
}

// The place of the call behind the first i.
pub fn place_of(calls: &[u8], i: usize) -> Place
    requires { Behind calls.now i }
    ensures { Located calls.now i result.at result.next }
{
    let mut at: usize = 0;
    for _ in 0..i {
        at = next_at(calls, at);
    }
    let next = next_at(calls, at);
    Place { at, next }
}
