// What is printed for an answer.
ghost use Rattle.std.specs.Prelude.{◌≡◌, Some};
ghost use Rattle.questions.specs.Answers.{printed};

use crate::ask::Answer;
use points::point::Point;
use std::fmt;
use text::hex::Bits;

// A number by its bits, and a point by those of its two coordinates.
impl fmt::Display for Answer {
    ghost output = { λ answer. Some (printed answer) };

    fn fmt<W: fmt::Write>(&self, f: &mut fmt::Formatter<W>) -> fmt::Result {
        match *self {
            Answer::Number(x) => {
                let x = Bits::from(x);
                write!(f, "{x}")
            }
            Answer::Point(Point { x, y }) => {
                let x = Bits::from(x);
                let y = Bits::from(y);
                write!(f, "{x} {y}")
            }
            Answer::NoAnswer => write!(f, "none"),
            Answer::Refused(cause) => {
                let number = cause.number();
                write!(f, "refused {number}")
            }
        }
    }
}
