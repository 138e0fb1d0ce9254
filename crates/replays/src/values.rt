// The values of a frame as text, each in the form of its field. Each function lays text into a lent line, at the place
// reached.
ghost use Rattle.std.specs.Prelude.{◌≡◌};
ghost use Rattle.lines.specs.Lines.{LineTypes};
ghost use Rattle.replays.specs.Texts.{signed_texts, letter_of, field_texts, forms_of, asked_texts, shown_texts};

use Form::{Joined, Letter, Model, Number, Silent};
use lines::Line;
use records::VALUE_PLACES;
use rules::Kind;

// How a field is shown: a number, that of a model, a letter, a letter joined to what stands before it, or not at all,
// since the kind has said it.
#[derive(Clone, Copy, PartialEq, Eq)]
pub enum Form {
    Number,
    Model,
    Letter,
    Joined,
    Silent,
}

// The forms of a status report's values.
const STATUS_FORMS: [Form; VALUE_PLACES] = [
    Model, Letter, Letter, Letter, Number, Number, Number, Joined, Number, Letter, Number, Number,
    Number, Number, Number, Number, Number, Number, Letter, Letter, Number,
];

// The forms of the values of a kind of frame.
#[tactic(auto, unfolding(crate::specs::Texts::forms_of))]
pub(crate) fn forms_of(kind: Kind) -> [Form; VALUE_PLACES]
    ensures { result ≡ forms_of kind }
{
    match kind {
        Kind::OfStatus => STATUS_FORMS,
        Kind::OfLetters(_) => [Silent; VALUE_PLACES],
        Kind::OfAck(_)
        | Kind::OfCommand(_)
        | Kind::OfSentence(_)
        | Kind::OfQuestion(_)
        | Kind::OfResponse(_) => [Number; VALUE_PLACES],
    }
}

// A question mark behind a space, where it is a question.
#[tactic(auto, using(crate::proofs::Onward::nothing_more), unfolding(crate::specs::Texts::asked_texts))]
pub(crate) fn asked(line: &mut Line<'_>, kind: Kind)
    ensures { LineTypes (asked_texts kind) line.old line.new }
{
    match kind {
        Kind::OfQuestion(_) => line.text(b" ?"),
        Kind::OfAck(_)
        | Kind::OfStatus
        | Kind::OfCommand(_)
        | Kind::OfSentence(_)
        | Kind::OfResponse(_)
        | Kind::OfLetters(_) => {}
    }
}

// A number behind a space, with a minus where it is below zero.
fn signed(line: &mut Line<'_>, z: i64)
    ensures { LineTypes (signed_texts z) line.old line.new }
{
    line.text(if z < 0 {
        b" -".as_slice()
    } else {
        b" ".as_slice()
    });
    line.number(z.unsigned_abs());
}

// The letter that a value is.
fn letter_of(v: i64) -> u8
    ensures { result ≡ letter_of v }
{
    (v.unsigned_abs() % 256) as u8
}

// A value in the form of its field.
#[tactic(auto, using(crate::proofs::Onward::nothing_more), unfolding(crate::specs::Texts::field_texts))]
fn field(line: &mut Line<'_>, form: Form, v: i64)
    ensures { LineTypes (field_texts form v) line.old line.new }
{
    match form {
        Number => signed(line, v),
        Model => {
            signed(line, v);
            line.text(b"K");
        }
        Letter => line.text(&[b' ', letter_of(v)]),
        Joined => line.text(&[letter_of(v)]),
        Silent => {}
    }
}

// The values one behind the other, each in its form.
pub(crate) fn shown(line: &mut Line<'_>, forms: &[Form], values: &[i64])
    ensures { LineTypes (shown_texts forms.now values.now) line.old line.new }
{
    for (form, v) in forms.iter().zip(values) {
        field(line, *form, *v);
    }
}
