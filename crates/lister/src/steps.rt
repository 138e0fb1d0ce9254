// The steps of a walk along the starts of a capture: how long the good frame at a place is, with nothing more
// to come, or where the next start is that may be good. Nothing of a frame is kept.
ghost use Rattle.std.specs.Prelude.{◌≡◌, false, ◌+◌, ◌≤◌, ◌<◌, length, take, drop, None};
ghost use Rattle.rules.specs.Answers.{replies, sentences, commands, messages, is_good, read_one};
ghost use Rattle.rules.specs.Codes.{packet_length};
ghost use Rattle.stream_rules.specs.Heads.{brackets_of, around};
ghost use Rattle.lister.specs.GoodLengths.{good_length, Passes, IsBracketed, Counts, Enclosed, StepsTo};

use alpha::is_sentence;
use kpa::{is_good_body, is_letter};
use rules::{
    CODE_COUNT, COMMAND_MARK, MESSAGES, PACKET_LENGTH, REPLY_MARK, REPORT_COUNT, SHORTEST_MESSAGE,
    SHORTEST_SENTENCE,
};
use spe::{ends_report, is_ack, is_command, is_status, report_length};
use starts::{brackets_of, inner_bytes};
use stream_rules::Brackets;
use texts::text;

// What a step along the starts comes to.
#[derive(Clone, Copy)]
pub(crate) enum Step {
    // a good frame of so many bytes starts here
    Frame(usize),
    // none does, nor at the starts before this one
    Over(usize),
}

// How long the good command at the head is.
fn command_length(s: &[u8]) -> Option<usize>
    requires { packet_length ≤ length s.now }
    ensures { result ≡ good_length commands s.now }
{
    is_command(&s[..PACKET_LENGTH]).then_some(PACKET_LENGTH)
}

// How long the good acknowledgement or report at the head is. The count tells which it can be.
fn reply_length(s: &[u8]) -> Option<usize>
    requires { packet_length ≤ length s.now }
    ensures { result ≡ good_length replies s.now }
{
    match s[3] {
        CODE_COUNT => is_ack(&s[..PACKET_LENGTH]).then_some(PACKET_LENGTH),
        REPORT_COUNT => {
            // nearly all that only begin as a report are turned away by its end
            if !ends_report(s) {
                return None;
            }
            let n = report_length(s);
            is_status(&s[..n]).then_some(n)
        }
        _ => None,
    }
}

// False only where no good sentence starts: too few bytes, or by what stands in its name's place, that begins with an
// A, and no digit is below 0.
fn may_be_sentence(s: &[u8]) -> bool
    ensures { result ≡ false → None ≡ good_length sentences s.now }
{
    if s.len() < SHORTEST_SENTENCE {
        return false;
    }
    if s[1] != b'A' {
        return false;
    }
    b'0' <= s[5]
}

// False only where no good message starts: too few bytes, or no letter behind the caret.
fn may_be_message(s: &[u8]) -> bool
    ensures { result ≡ false → None ≡ good_length messages s.now }
{
    if s.len() < SHORTEST_MESSAGE {
        return false;
    }
    is_letter(s[1])
}

// False only where no good frame of the family starts.
fn may_begin(family: u8, s: &[u8]) -> bool
    requires { IsBracketed family }
    ensures { result ≡ false → None ≡ good_length family s.now }
{
    if family == MESSAGES {
        return may_be_message(s);
    }
    may_be_sentence(s)
}

// Whether the n bytes behind the opening one say something good, with their closing byte and what is behind it.
fn says_good(family: u8, s: &[u8], n: usize) -> bool
    requires { IsBracketed family × Enclosed family n s.now }
    ensures { result ≡ is_good (read_one family (take (around (brackets_of family) n) s.now)) }
{
    if family == MESSAGES {
        return is_good_body(text(s, 1, n));
    }
    is_sentence(text(s, 0, n + 6))
}

// How long the good frame at the head is, with n inner bytes behind its first byte.
#[inline(always)]
fn bracketed_length(family: u8, k: Brackets, s: &[u8], n: usize) -> Option<usize>
    requires { IsBracketed family × (k ≡ brackets_of family) × Counts family n s.now }
    ensures { result ≡ good_length family s.now }
{
    if k.most < n {
        return None;
    }
    let whole = n + 2 + k.tail;
    if s.len() < whole {
        return None;
    }
    if s[n + 1] != k.closing {
        return None;
    }
    says_good(family, s, n).then_some(whole)
}

// The first start from a place on that has no mark in its count's place, or that fewer bytes are left for than a
// packet has: no count is a mark.
fn past_marks(s: &[u8], from: usize) -> usize
    requires { from ≤ length s.now }
    ensures { Passes commands s.now from result }
{
    let end = s.len().saturating_sub(PACKET_LENGTH - 1).max(from);
    for at in from..end {
        if s[at + 3] != COMMAND_MARK {
            return at;
        }
    }
    end
}

// Behind a start with no command, the next at which one may stand. Where no mark stands in a count's place, none
// starts in the three places behind the start.
fn next_command(s: &[u8], from: usize) -> usize
    requires { (from + packet_length ≤ length s.now) × (None ≡ good_length commands (drop from s.now)) }
    ensures { (from < result) × Passes commands s.now from result }
{
    if s[from + 3] != COMMAND_MARK {
        return past_marks(s, from + 4);
    }
    past_marks(s, from + 1)
}

// Behind a start with no reply, the next at which one may stand, or that fewer bytes are left for than a packet has: where
// neither a mark nor a count stands in a count's place, none starts there, nor in the three places behind.
fn past_uncounted(s: &[u8], from: usize) -> usize
    requires { from ≤ length s.now }
    ensures { Passes replies s.now from result }
{
    let mut at = from;
    // four places are passed at once, so that no iterator counts them
    while PACKET_LENGTH <= s.len() - at {
        let count = s[at + 3];
        if count == REPLY_MARK || count == CODE_COUNT || count == REPORT_COUNT {
            return at;
        }
        at += 4;
    }
    at
}

// The next place at which a sentence or a message may stand: none starts at another byte than an opening one.
#[inline(always)]
fn past_unopened(family: u8, s: &[u8], from: usize) -> usize
    requires { IsBracketed family × (from ≤ length s.now) }
    ensures { Passes family s.now from result }
{
    let opening = brackets_of(family).opening;
    let end = s.len();
    for at in from..end {
        if s[at] == opening {
            return at;
        }
    }
    end
}

// A step along commands.
pub(crate) fn command_step(s: &[u8], at: usize) -> Step
    requires { at + packet_length ≤ length s.now }
    ensures { StepsTo commands s.now at result }
{
    match command_length(&s[at..]) {
        Some(length) => Step::Frame(length),
        None => Step::Over(next_command(s, at)),
    }
}

// A step along acknowledgements and reports. No count is a mark; and where none stands in a count's place, no frame starts in
// the three places behind the start.
pub(crate) fn reply_step(s: &[u8], at: usize) -> Step
    requires { at + packet_length ≤ length s.now }
    ensures { StepsTo replies s.now at result }
{
    if s[at + 3] == REPLY_MARK {
        return Step::Over(at + 1);
    }
    match reply_length(&s[at..]) {
        Some(length) => Step::Frame(length),
        None => {
            if s[at + 3] == CODE_COUNT || s[at + 3] == REPORT_COUNT {
                return Step::Over(at + 4);
            }
            Step::Over(past_uncounted(s, at + 4))
        }
    }
}

// A step along sentences or messages. None starts at an inner byte.
#[inline(always)]
pub(crate) fn bracketed_step(family: u8, s: &[u8], at: usize) -> Step
    requires { IsBracketed family × (at < length s.now) }
    ensures { StepsTo family s.now at result }
{
    let k = brackets_of(family);
    if s[at] != k.opening {
        return Step::Over(past_unopened(family, s, at + 1));
    }
    if !may_begin(family, &s[at..]) {
        return Step::Over(at + 1);
    }
    let run = inner_bytes(k, &s[at + 1..]);
    match bracketed_length(family, k, &s[at..], run) {
        Some(length) => Step::Frame(length),
        None => Step::Over(at + (run + 1)),
    }
}
