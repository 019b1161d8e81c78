ghost use Rattle.std.specs.Prelude.{◌≡◌, ◌<◌, ◌+◌, ◌^◌, [], length, OnOk};
ghost use Rattle.pa_asmline.specs.Lines.{Label, Row as IsRow};
ghost use Rattle.pa_asmline.specs.Shapes.{shown, shown_operands};
ghost use Rattle.pa_asm.specs.Answers.{parts_of};
ghost use Rattle.pa_asm.specs.Parts.{nothing};
ghost use Rattle.pa_asm.specs.Reading.{parts_so_far, IsAdded};

use crate::labels::Labels;
use crate::rule::AsmRule;
use crate::settling::{all_settled, refer_all, rule_of};
use pa_a64::{encode, in_range};
use pa_asmline::{Line, Row, instruction};
use pa_num::{Fault, Name, Words};
use pa_object::{Globals, Mark, Marks, Object, Refs};
use std::alloc::Global;

/// An object under way, and the number of the line that comes next, from 1.
#[derive(Drop)]
pub struct Assembly {
    number: u64,
    code: Words,
    marks: Marks,
    refs: Refs,
}

impl Assembly {
    pub fn new(alloc: Global) -> Assembly
        ensures number { result.number ≡ 1 }
        ensures parts { parts_so_far result ≡ nothing }
    {
        Assembly {
            number: 1,
            code: Words::new(alloc),
            marks: Marks::new(alloc),
            refs: Refs::new(alloc),
        }
    }

    /// How many words there are.
    fn at(&self) -> u32
        requires { length self.now.code < 2 ^ 32 }
        ensures { result ≡ length self.now.code }
    {
        self.code.len() as u32
    }

    fn refused(&self, rule: AsmRule) -> Fault<AsmRule>
        ensures { result ≡ Fault.Refused rule self.now.number }
    {
        Fault::Refused {
            rule,
            place: self.number,
        }
    }

    fn add_label(
        &mut self,
        alloc: Global,
        labels: &Labels,
        public: bool,
        name: &[u8],
    ) -> Result<(), Fault<AsmRule>>
        requires { length self.old.code < 2 ^ 32 }
        ensures added { IsAdded labels.now (Label public name.now) self.old result self.new }
        ensures number { OnOk result (self.new.number ≡ self.old.number) }
    {
        match labels.find(name) {
            Some(place) if place.line == self.number => {}
            _ => return Err(self.refused(AsmRule::A4)),
        }
        if public {
            let name = Name::from_slice(alloc, name)?;
            let at = self.at();
            self.marks.push(Mark { name, at, public })?;
        }
        Ok(())
    }

    fn add_row(&mut self, alloc: Global, labels: &Labels, row: &Row) -> Result<(), Fault<AsmRule>>
        requires { length self.old.code < 2 ^ 32 }
        ensures added { IsAdded labels.now (IsRow row.now.form (shown_operands row.now.operands.items)) self.old result self.new }
        ensures number { OnOk result (self.new.number ≡ self.old.number) }
    {
        let at = self.at();
        let operands = row.operands.as_slice();
        let values = all_settled(labels, at, operands);
        if let Some(rule) = rule_of(values.as_slice()) {
            return Err(self.refused(rule));
        }
        let instr = instruction(row.form, values.as_slice());
        if !in_range(instr) {
            return Err(self.refused(AsmRule::A2));
        }
        refer_all(alloc, labels, at, operands, &mut self.refs)?;
        self.code.push(encode(instr))?;
        Ok(())
    }

    fn add_line(
        &mut self,
        alloc: Global,
        labels: &Labels,
        line: &Line,
    ) -> Result<(), Fault<AsmRule>>
        requires { length self.old.code < 2 ^ 32 }
        ensures added { IsAdded labels.now (shown line.now) self.old result self.new }
        ensures number { OnOk result (self.new.number ≡ self.old.number) }
    {
        match line {
            Line::Blank => Ok(()),
            Line::Label { public, name } => self.add_label(alloc, labels, *public, name),
            Line::Row(row) => self.add_row(alloc, labels, row),
            Line::Unknown => Err(self.refused(AsmRule::A1)),
        }
    }

    /// Adds what the next line gives.
    pub fn add(&mut self, alloc: Global, labels: &Labels, line: &Line) -> Result<(), Fault<AsmRule>>
        requires words { length self.old.code < 2 ^ 32 }
        requires lines { self.old.number < 2 ^ 63 }
        ensures added { IsAdded labels.now (shown line.now) self.old result self.new }
        ensures number { OnOk result (self.new.number ≡ self.old.number + 1) }
    {
        self.add_line(alloc, labels, line)?;
        self.number += 1;
        Ok(())
    }

    /// The object of the lines that were added.
    pub fn into_object(self, alloc: Global) -> Object
        ensures parts { parts_of result ≡ parts_so_far self }
        ensures globals { result.globals ≡ [] }
    {
        Object {
            code: self.code,
            marks: self.marks,
            refs: self.refs,
            globals: Globals::new(alloc),
        }
    }
}
