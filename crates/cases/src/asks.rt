// What each line asks: the call is made, and its answer printed.
use crate::answer::Answer;
use crate::given::Line;
use crate::kept::Kept;
use crate::plans::Slot;
use crate::words::Word;
use crate::{hashes, layouts, plans, texts, upgrades, verdicts};
use arrayvec::ArrayString;
use caseline::put::Hex;
use std::fmt::Write;
use std::{fmt, io};

// Where an answer is put together: more than the longest.
pub type Out = ArrayString<16384>;

pub fn asked(word: Word, line: Line, kept: &mut Kept) -> Answer {
    match word {
        Word::Scalar => kept.built.scalar(line, &kept.last),
        Word::String => kept.built.string(line, &kept.last),
        Word::Like => kept.built.like(line, &kept.last),
        Word::Nested => kept.built.nested(line, &kept.last),
        Word::NestedArray => kept.built.nested_array(line, &kept.last),
        Word::At => kept.built.at(line, &kept.last),
        Word::FinishBase => kept.built.finish_base(&kept.last),
        Word::Finish => kept.built.finish(line, &kept.last),
        Word::Plan => plans::plan(line, &kept.last, &mut kept.plans),
        Word::Put => plans::put(line, &mut kept.plans),
        Word::Apply => upgrades::apply(line, &kept.plans, &mut kept.target),
        Word::Upgrade => upgrades::upgrade(line, &kept.plans, &mut kept.target),
        Word::Catalogue => kept.last.keep_catalogue(line),
        Word::Layout => kept.last.keep_layout(line),
        Word::Size => layouts::size(line, &kept.last),
        Word::Window => layouts::window(line),
        Word::Field => layouts::field(line),
        Word::Sum => hashes::sum(line),
        Word::Slots => hashes::slots(line, &kept.plans),
        Word::Hash => hashes::hash(line, &kept.last),
        Word::Visits => hashes::visits(line, &kept.last),
        Word::Boot => hashes::boot(line, &kept.last),
        Word::Verdict => verdicts::verdict(line, &kept.last),
        Word::VerdictOf => verdicts::verdict_of(line, &kept.last),
        Word::ById => verdicts::by_id(line, &kept.last),
        Word::ByName => verdicts::by_name(line, &kept.last),
        Word::Select => verdicts::select(line, &kept.last),
        Word::Begin => kept.built.begin(line),
        Word::Built => kept.built.state(),
        Word::WritePlan => texts::write_plan(line),
        Word::ReadPlan => texts::read_plan(line),
    }
}

// What a line is answered: the answer, and behind it or in its place the bytes that a call has made.
#[derive(Clone, Copy)]
pub struct Said<'a> {
    pub word: Word,
    pub line: Line<'a>,
    pub kept: &'a Kept,
    pub answer: Answer,
}

impl Said<'_> {
    // The target, in the length that word k gives it.
    fn target(&self, k: usize) -> Hex<'_> {
        Hex(lent::part(&self.kept.target, 0, self.line.word(k).len() / 2))
    }

    fn write_answer<W: fmt::Write>(&self, f: &mut fmt::Formatter<W>) -> fmt::Result {
        match self.answer {
            Ok(_) if self.word == Word::Plan => {
                let line = self.line;
                let slot = Slot(lent::part(&self.kept.plans, line.number(6), line.number(7)));
                write!(f, "{slot}")
            }
            Ok(value) => write!(f, "{value}"),
            Err(unanswered) => write!(f, "{unanswered}"),
        }
    }
}

impl fmt::Display for Said<'_> {
    fn fmt<W: fmt::Write>(&self, f: &mut fmt::Formatter<W>) -> fmt::Result {
        self.write_answer(f)?;
        match self.word {
            Word::Built => {
                let fields = self.line.number(1);
                let rows = self.kept.built.rows(fields);
                let names = self.kept.built.names(fields);
                write!(f, " {rows} {names}")
            }
            Word::Apply => write!(f, " {}", self.target(5)),
            Word::Upgrade => write!(f, " {}", self.target(8)),
            _ => Ok(()),
        }
    }
}

// Writes a line by one call, but for one longer than any answer.
pub fn say(rt: &impl Print, said: Said, out: &mut Out) -> io::Result<()> {
    out.clear();
    match writeln!(out, "{said}") {
        Ok(()) => rt.write_all(out.as_str().as_bytes()),
        Err(_) => println!(rt; "{said}"),
    }
}
