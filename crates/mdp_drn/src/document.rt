ghost use Rattle.std.specs.Prelude.{◌≡◌, ◌+◌, [], false, map, option_map, OnOk, IfOk, IfErr};
ghost use Rattle.mdp_drn.specs.{Header.{names_or_one, or_else}, BodyView.{IsOneLine}, Ending.{ended, with_last}, Lines.{is_comment}};
ghost use Rattle.mdp_drn.specs.Labels.{begins_blank};
ghost use Rattle.mdp_drn.specs.Reading.{InModel, named, at_line, at_end, begun, nothing_read, kept_line};
ghost use Rattle.mdp_drn.specs.{DocumentView.{document_in, part_in, header_part, part_behind, IsPart, IsHeader, IsBehind}, Feeding.{Answers, Gives}};
ghost use Rattle.mdp_drn.specs.Header as header_spec;
ghost use Rattle.mdp_drn.specs.HeaderView as header_view;
ghost use Rattle.mdp_drn.specs.BodyView as body_view;

use crate::body::Body;
use crate::error::{DrnError, DrnKind};
use crate::header::{Header, NextLine};
use crate::kept_values::KeptValues;
use crate::line::{content_of, is_comment};
use mdp_num::Memory;
use mdp_rows::{Builder, Model, RowRule};
use std::alloc::{AllocError, Global};

/// The longest line that is read.
pub(crate) const LONGEST_LINE: usize = 65_536;

/// What the lines so far have spelled: entries of the header and what may come next, or the number of choices that was announced and the model so
/// far.
#[derive(Drop)]
pub(crate) enum Part {
    Header { header: Header, next: NextLine },
    Model { choices: Option<u32>, body: Body },
}

/// The lines so far.
#[derive(Drop)]
pub(crate) struct Document {
    pub(crate) rule: RowRule,
    lines: u64,
    part: Part,
    values: KeptValues,
}

/// The names of the reward models: one, called `-`, where none is given.
fn names_or_one(alloc: Global, names: Option<Vec<Vec<u8>>>) -> Result<Vec<Vec<u8>>, AllocError>
    ensures { IfOk result (λ given. map (λ n. n.items) given.items ≡ names_or_one
        (or_else [] (option_map (λ ns. map (λ n. n.items) ns.items) names))) }
{
    match names {
        Some(names) if !names.is_empty() => Ok(names),
        _ => {
            let mut names = Vec::new(alloc);
            names.push(Vec::from_slice(alloc, b"-")?)?;
            Ok(names)
        }
    }
}

/// The model behind the header, without states.
fn begin_body(alloc: Global, rule: RowRule, header: &mut Header) -> Result<Body, Memory>
    requires { IsHeader (header_view.view header.old) header_spec.Model }
    ensures body { IfOk result (λ body. InModel header.old.choices (body_view.view body)
        ≡ begun rule (header_view.view header.old) header_spec.Model) }
    ensures keeps { IfOk result body_view.IsBody }
{
    let announced = header.states.unwrap_or(0);
    let is_chain = header.is_chain();
    let names = names_or_one(alloc, header.names.take())?;
    let models = names.len();
    let builder = Builder::new(alloc, announced, rule, names)?;
    Ok(Body {
        builder,
        announced,
        models,
        is_chain,
        has_action: false,
        state_line: 0,
        action_line: 0,
    })
}

/// The part with the model, where it begins behind this header.
fn begin(
    alloc: Global,
    rule: RowRule,
    header: &mut Header,
    next: NextLine,
) -> Result<Option<Part>, DrnError>
    requires { IsHeader (header_view.view header.old) (header_view.view_next next) }
    ensures begun { IfOk result (λ part. part_behind header.new next part ≡ begun rule (header_view.view header.old) (header_view.view_next next)) }
    ensures part { IfOk result (λ part. IsBehind header.new next part) }
    ensures memory { IfErr result (λ e. e ≡ DrnError.Memory) }
{
    if !next.is_model() {
        return Ok(None);
    }
    let choices = header.choices;
    match begin_body(alloc, rule, header) {
        Ok(body) => Ok(Some(Part::Model { choices, body })),
        Err(Memory) => Err(DrnError::Memory),
    }
}

/// Takes a line of the header that is no comment, and gives the part with the model, where it begins behind this line.
fn take_header_line(
    alloc: Global,
    rule: RowRule,
    header: &mut Header,
    next: &mut NextLine,
    line: u64,
    text: &[u8],
) -> Result<Option<Part>, DrnError>
    requires header { IsHeader (header_view.view header.old) (header_view.view_next next.old) }
    requires plain { IsOneLine text.now }
    requires comment { is_comment text.now ≡ false }
    requires trimmed { begins_blank text.now ≡ false }
    ensures taken { Gives (λ part now. part_behind header.new next.new part
        ≡ now) result (kept_line rule line text.now (header_part header.old next.old)) }
    ensures part { IfOk result (λ part. IsBehind header.new next.new part) }
{
    match header.take_line(alloc, *next, text) {
        Ok(after) => {
            *next = after;
            begin(alloc, rule, header, after)
        }
        Err(error) => Err(error.at(line)),
    }
}

impl Part {
    /// Takes a line that is no comment.
    fn take_line(
        &mut self,
        alloc: Global,
        values: &mut KeptValues,
        rule: RowRule,
        line: u64,
        text: &[u8],
    ) -> Result<(), DrnError>
        requires part { IsPart self.old }
        requires plain { IsOneLine text.now }
        requires comment { is_comment text.now ≡ false }
        requires trimmed { begins_blank text.now ≡ false }
        ensures taken { Answers result (part_in self.new) (kept_line rule line text.now (part_in self.old)) }
        ensures part { OnOk result (IsPart self.new) }
    {
        match self {
            Part::Header { header, next } => {
                match take_header_line(alloc, rule, header, next, line, text) {
                    Ok(None) => Ok(()),
                    Ok(Some(model)) => {
                        *self = model;
                        Ok(())
                    }
                    Err(refused) => Err(refused),
                }
            }
            Part::Model { .. } if text.is_empty() => Ok(()),
            Part::Model { choices: _, body } => body.take_line(alloc, values, line, text),
        }
    }
}

impl Document {
    /// A document without lines.
    pub(crate) fn new(alloc: Global, rule: RowRule) -> Document
        ensures nothing { document_in result ≡ nothing_read }
        ensures rule { result.rule ≡ rule }
        ensures part { IsPart result.part }
    {
        Document {
            rule,
            lines: 0,
            part: Part::Header {
                header: Header::new(),
                next: NextLine::AnyEntry,
            },
            values: KeptValues::new(alloc),
        }
    }

    /// The number of the next line.
    pub(crate) fn next_line(&self) -> u64
        ensures { result ≡ named (self.now.lines + 1) }
    {
        self.lines.saturating_add(1)
    }

    /// Takes the next line.
    #[tactic(auto, unfolding(crate::specs::Reading::at_line))]
    pub(crate) fn take_line(&mut self, alloc: Global, line: &[u8]) -> Result<(), DrnError>
        requires part { IsPart self.old.part }
        requires plain { IsOneLine line.now }
        ensures taken { Answers result (document_in self.new) (at_line self.old.rule (document_in self.old) line.now) }
        ensures rule { self.new.rule ≡ self.old.rule }
        ensures part { OnOk result (IsPart self.new.part) }
    {
        let number = self.next_line();
        if line.len() > LONGEST_LINE {
            return Err(DrnError::At {
                line: number,
                kind: DrnKind::LongLine,
            });
        }
        let text = content_of(line);
        if !is_comment(text) {
            self.part
                .take_line(alloc, &mut self.values, self.rule, number, text)?;
        }
        self.lines = number;
        Ok(())
    }

    /// Takes a last line without a line feed, unless it is empty.
    fn take_last(&mut self, alloc: Global, tail: &[u8]) -> Result<(), DrnError>
        requires part { IsPart self.old.part }
        requires plain { IsOneLine tail.now }
        ensures taken { Answers result (document_in self.new) (with_last self.old.rule (document_in self.old) tail.now) }
        ensures part { OnOk result (IsPart self.new.part) }
    {
        if tail.is_empty() {
            return Ok(());
        }
        self.take_line(alloc, tail)
    }

    /// Judges a last line without a line feed, unless it is empty, and then the end.
    pub(crate) fn end(self, alloc: Global, tail: &[u8]) -> Result<Model, DrnError>
        requires part { IsPart self.part }
        requires plain { IsOneLine tail.now }
        ensures { Gives (λ model said. model ≡ said) result (ended self.rule (document_in self) tail.now) }
    {
        let mut document = self;
        match document.take_last(alloc, tail) {
            Ok(()) => document.finish(),
            Err(refused) => Err(refused),
        }
    }

    /// Judges the end.
    #[tactic(auto, unfolding(crate::specs::Reading::at_end))]
    fn finish(self) -> Result<Model, DrnError>
        requires { IsPart self.part }
        ensures { Gives (λ model said. model ≡ said) result (at_end (document_in self)) }
    {
        let line = self.next_line();
        let Document {
            rule: _,
            lines: _,
            part,
            values: _,
        } = self;
        match part {
            Part::Header { header: _, next: _ } => Err(DrnError::At {
                line,
                kind: DrnKind::End,
            }),
            Part::Model { choices, body } => body.finish(line, choices),
        }
    }
}
