// Stamps, places in a stream that are counted modulo 2^32: how one advances, and the order of two.
ghost use Rattle.std.specs.Prelude.{◌≡◌, ◌+◌};
ghost use Rattle.stream_rules.specs.Streams.{wrap};
ghost use Rattle.stream_rules.specs.Lister.{order};

use stream_rules::Order;

// A count, so many bytes further on: it wraps.
pub fn advanced(count: u32, by: usize) -> u32
    ensures { result ≡ wrap (count + by) }
{
    count.wrapping_add((by % 0x1_0000_0000) as u32)
}

// Half of the numbers that a stamp has: from a stamp to one so far on it can't be said which is the earlier.
const HALF: u32 = 0x8000_0000;

// How stamp a stands to stamp b, by the bytes from a to b.
#[tactic(auto, unfolding(stream_rules::specs::Lister::order))]
pub fn stamp_order(a: u32, b: u32) -> Order
    ensures { result ≡ order a b }
{
    match b.wrapping_sub(a) {
        0 => Order::Equal,
        1..HALF => Order::Earlier,
        HALF => Order::CannotSay,
        _ => Order::Later,
    }
}
