//! What is told of what was measured.
use crate::measure::Measured;
use crate::plan::{Change, Kind, Question, Shape};
use std::fmt;

/// What was done to a cord of a shape, and what was measured.
#[derive(Clone, Copy)]
pub struct Line<T> {
    pub what: T,
    pub shape: Shape,
    pub measured: Measured,
}

/// The same, without what differs from run to run.
#[derive(Clone, Copy)]
pub struct Tried<T>(pub Line<T>);

impl fmt::Display for Kind {
    fn fmt<W: fmt::Write>(&self, f: &mut fmt::Formatter<W>) -> fmt::Result {
        f.write_str(match self {
            Kind::Full => "flats of 4083",
            Kind::Small => "flats of 100",
            Kind::Parts => "parts of 600",
        })
    }
}

impl fmt::Display for Question {
    fn fmt<W: fmt::Write>(&self, f: &mut fmt::Formatter<W>) -> fmt::Result {
        f.write_str(match self {
            Question::FindNone => "find yz where there is none",
            Question::FindRun => "find aaab in all a",
            Question::FindLong => "find 300 a and a b in all a",
            Question::Compare => "compare with an equal cord",
            Question::CompareCopy => "compare with its copy",
            Question::Starts => "starts with its own bytes",
            Question::Ends => "ends with its own bytes",
            Question::Write => "write to memory",
            Question::At => "1000 drawn bytes",
            Question::SeekDrawn => "1000 drawn places, 100 bytes each",
            Question::SeekOn => "1000 places in a row, 100 bytes each",
        })
    }
}

impl fmt::Display for Change {
    fn fmt<W: fmt::Write>(&self, f: &mut fmt::Formatter<W>) -> fmt::Result {
        f.write_str(match self {
            Change::Half => "half of it",
            Change::Front => "cut down by 100 bytes from the front",
            Change::Back => "cut down by 100 bytes from the back",
        })
    }
}

impl<T: fmt::Display> fmt::Display for Tried<T> {
    fn fmt<W: fmt::Write>(&self, f: &mut fmt::Formatter<W>) -> fmt::Result {
        let Line {
            what,
            shape,
            measured,
        } = &self.0;
        let Measured { size, agree, .. } = measured;
        write!(f, "{size} bytes in {}: {what}: agrees {agree}", shape.kind)
    }
}

impl<T: fmt::Display> fmt::Display for Line<T> {
    fn fmt<W: fmt::Write>(&self, f: &mut fmt::Formatter<W>) -> fmt::Result {
        let Measured {
            cord,
            text,
            size,
            ..
        } = self.measured;
        let ratio = cord.saturating_mul(100) / text.max(1);
        write!(
            f,
            "{} bytes in {}: {}: cord {} ns, one piece {} ns, time ratio {}.{:02}, agrees {}",
            size,
            self.shape.kind,
            self.what,
            cord / 1000,
            text / 1000,
            ratio / 100,
            ratio % 100,
            self.measured.agree
        )
    }
}
