// The held places of a stream reader, which are lent and altered where they stand: bytes laid behind those held,
// and a part of them kept, with zeros behind it. The modules have what a call does with them and with the bytes offered.
#![tactic(auto)]

mod feeding;
mod moves;
mod parts;
mod pieces;

ghost use Rattle.std.specs.Prelude.{◌≡◌, true, [], length, take};
ghost use Rattle.rules.specs.Bytes.{part};
ghost use Rattle.stream_rules.specs.Streams.{filled};
ghost use Rattle.pens.specs.Pens.{laid};

pub use feeding::{close, feed, served};
pub use parts::{Moved, feed_places};
use pens::put_bytes;
use stream_rules::PLACES;
use texts::text;

// So many bytes are laid together.
const BLOCK: usize = 16;

// How many places there are, for a caller that has them as a slice. (Of an array the type says it, and nothing here asks.)
pub fn places_in(places: &[u8]) -> usize
    ensures { result ≡ length places.now }
{
    places.len()
}

// Zeros from one of the places on.
fn clear_from(places: &mut [u8; PLACES], from: usize)
    ensures { places.new ≡ filled (take from places.old) }
{
    if from < PLACES {
        places[from..].fill(0);
    }
}

// Sixteen bytes as a block. (By the library's `try_from` the archive would not have the form that docs/TARGETS.md asks for.)
fn block_of(few: &[u8]) -> [u8; BLOCK]
    requires { length few.now ≡ BLOCK }
    ensures { result ≡ few.now }
{
    let mut block = [0u8; BLOCK];
    for (i, byte) in few.iter().enumerate() {
        block[i] = *byte;
    }
    block
}

// Bytes laid at a place, where there is room for them, sixteen of them as a block, of which all are read before one is
// written. The other places stay as they are.
pub fn lay(places: &mut [u8; PLACES], at: usize, few: &[u8])
    ensures { places.new ≡ laid at few.now places.old }
{
    if few.len() == BLOCK {
        put_bytes(places, at, &block_of(few));
    } else {
        put_bytes(places, at, few);
    }
}

// Keeps so many places from one of them on, with zeros behind them.
pub fn keep_part(places: &mut [u8; PLACES], a: usize, n: usize)
    ensures { places.new ≡ filled (part a n places.old) }
{
    if a == 0 {
        clear_from(places, n);
        return;
    }
    if n == 0 {
        *places = [0u8; PLACES];
        return;
    }
    let mut kept = [0u8; PLACES];
    put_bytes(&mut kept, 0, text(places, a, n));
    *places = kept;
}

// Whether zeros stand in all places. All are looked at, so that the compiler makes vector code of it.
fn is_clear(places: &[u8; PLACES]) -> bool
    ensures { result ≡ true → places.now ≡ filled [] }
{
    let mut seen = 0;
    for place in places {
        seen |= *place;
    }
    seen == 0
}

// Zeros in all places. Where they are there already nothing is written.
pub fn clear(places: &mut [u8; PLACES])
    ensures { places.new ≡ filled [] }
{
    if !is_clear(places) {
        *places = [0u8; PLACES];
    }
}
