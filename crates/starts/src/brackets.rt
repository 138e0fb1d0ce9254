// What a start of a sentence or a message is known by: the brackets of its family, and the bytes between them.
ghost use Rattle.std.specs.Prelude.{◌≡◌, ◌+◌, ◌-◌, ◌^◌, min, length};
ghost use Rattle.rules.specs.Bytes.{every};
ghost use Rattle.stream_rules.specs.Heads.{brackets_of, is_inner, inner_run};

use rules::{LONGEST_BODY, LONGEST_PAYLOAD, MESSAGES};
use stream_rules::Brackets;
use texts::{text, text_byte};

// The brackets of a family.
pub fn brackets_of(family: u8) -> Brackets
    ensures { result ≡ brackets_of family }
{
    if family == MESSAGES {
        return Brackets {
            opening: b'^',
            closing: b';',
            most: LONGEST_BODY,
            tail: 0,
        };
    }
    Brackets {
        opening: b'$',
        closing: b'*',
        most: LONGEST_PAYLOAD,
        tail: 4,
    }
}

// How many bytes are looked at as one block.
const BLOCK: usize = 16;

// Whether a block is all inner bytes: as many of them are.
fn all_inner(k: Brackets, block: &[u8]) -> bool
    requires { length block.now ≡ BLOCK }
    ensures { result ≡ every (is_inner k) block.now }
{
    let inner: u8 = block
        .iter()
        .map(|b| u8::from(text_byte(k.opening, k.closing, *b)))
        .sum();
    inner == 16
}

// How many inner bytes the bytes begin with, byte by byte.
fn run_by_bytes(k: Brackets, p: &[u8]) -> usize
    ensures { result ≡ length (inner_run k p.now) }
{
    p.iter()
        .position(|b| !text_byte(k.opening, k.closing, *b))
        .unwrap_or(p.len())
}

// The same by blocks, as long as there is one that is all inner bytes. (By the library's `as_chunks` the archive would not
// have the form that docs/TARGETS.md asks for, here and below.)
fn run_by_blocks(k: Brackets, p: &[u8]) -> usize
    ensures { result ≡ length (inner_run k p.now) }
{
    let mut n = 0;
    while 16 <= p.len() - n {
        if !all_inner(k, &p[n..n + 16]) {
            break;
        }
        n += 16;
    }
    n + run_by_bytes(k, &p[n..])
}

// How many inner bytes the bytes begin with, counted to one more than may stand between the brackets.
pub fn inner_bytes(k: Brackets, p: &[u8]) -> usize
    ensures { result ≡ min (length (inner_run k p.now)) (k.most + 1) }
{
    run_by_blocks(k, text(p, 0, k.most.saturating_add(1)))
}

// Whether all of the bytes are inner bytes. The last 16 are seen as a block, which may overlap the one before it.
pub fn are_inner(k: Brackets, p: &[u8]) -> bool
    ensures { result ≡ every (is_inner k) p.now }
{
    let n = p.len();
    if n < 16 {
        return run_by_bytes(k, p) == n;
    }
    let mut at = 0;
    while 16 < n - at {
        if !all_inner(k, &p[at..at + 16]) {
            return false;
        }
        at += 16;
    }
    all_inner(k, &p[n - 16..])
}
