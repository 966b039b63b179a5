ghost use Rattle.std.specs.Prelude.{◌≡◌, ℕ, List, [], ◌∷◌, ◌++◌, IfOk, IsOk};
ghost use Rattle.mdp_drn.specs.{BodyView.{IsOneLine}, Reading.{outcome}, Feeding.{HasRead, Stays, Repeats, answer, Gives}};

use crate::document::{Document, LONGEST_LINE};
use crate::error::{DrnError, DrnKind};
use mdp_num::Memory;
use mdp_rows::{Model, RowRule};
use std::alloc::Global;

/// A reader that is given a text in pieces. It holds what the lines so far have spelled, the open line, and at most 16 texts of values, of at most 32
/// bytes each, and no other text.
#[derive(Drop)]
pub struct Feed {
    alloc: Global,
    document: Document,
    tail: Vec<u8>,
    refused: Option<DrnError>,
}

impl std::marker::Model for Feed {
    ghost use Rattle.mdp_drn.specs.{Feeding.{Held, stand_with}, HeldCode.{held_code}};

    ghost Value = { Held };

    ghost coded = { held_code };

    ghost use Rattle.mdp_drn.specs.{DocumentView.{document_in}, FeedView.{IsFeed}};

    ghost view = { λ f. record { rule = f.document.rule; stand = stand_with f.refused (document_in f.document) f.tail.items } };

    ghost invariant = { IsFeed };
}

impl Feed {
    /// A feed that has been given nothing. It asks for no memory yet, and is always given.
    pub fn new(alloc: Global, rule: RowRule) -> Result<Feed, Memory>
        ensures rule { IfOk result (λ feed. feed.rule ≡ rule) }
        ensures fed { IfOk result (λ feed. HasRead feed []) }
        ensures given { IsOk result }
    {
        Ok(Feed::fresh(alloc, rule))
    }

    /// A feed that has been given nothing.
    pub(crate) fn fresh(alloc: Global, rule: RowRule) -> Feed
        ensures rule { result.rule ≡ rule }
        ensures fed { HasRead result [] }
    {
        Feed {
            alloc,
            document: Document::new(alloc, rule),
            tail: Vec::new(alloc),
            refused: None,
        }
    }

    /// Takes bytes of the open line.
    fn extend(&mut self, bytes: &[u8])
        requires { IsOneLine bytes.now }
        ensures rule { self.new.rule ≡ self.old.rule }
        ensures stays { Stays self.old.stand self.new.stand }
        ensures fed { (before : List ℕ) → HasRead self.old before → HasRead self.new (before ++ bytes.now) }
    {
        if self.refused.is_some() {
            return;
        }
        if bytes.len() > LONGEST_LINE - self.tail.len() {
            let line = self.document.next_line();
            self.refused = Some(DrnError::At {
                line,
                kind: DrnKind::LongLine,
            });
            return;
        }
        if self.tail.extend_from_slice(bytes).is_err() {
            self.refused = Some(DrnError::Memory);
        }
    }

    /// Takes a line feed.
    fn close_line(&mut self)
        ensures rule { self.new.rule ≡ self.old.rule }
        ensures stays { Stays self.old.stand self.new.stand }
        ensures fed { (before : List ℕ) → HasRead self.old before → HasRead self.new (before ++ 10 ∷ []) }
    {
        if self.refused.is_some() {
            return;
        }
        match self.document.take_line(self.alloc, &self.tail) {
            Ok(()) => self.tail.clear(),
            Err(refused) => self.refused = Some(refused),
        }
    }

    /// Takes the bytes up to a line feed, and the line feed. Bytes that are the whole line aren't copied.
    fn take_line(&mut self, bytes: &[u8])
        requires { IsOneLine bytes.now }
        ensures rule { self.new.rule ≡ self.old.rule }
        ensures stays { Stays self.old.stand self.new.stand }
        ensures fed { (before : List ℕ) → HasRead self.old before → HasRead self.new (before ++ (bytes.now ++ 10 ∷ [])) }
    {
        if !self.tail.is_empty() {
            self.extend(bytes);
            self.close_line();
            return;
        }
        if self.refused.is_some() {
            return;
        }
        match self.document.take_line(self.alloc, bytes) {
            Ok(()) => {}
            Err(refused) => self.refused = Some(refused),
        }
    }

    /// Takes the next piece of the text. A feed that refused, or ran out of memory, answers the same again from then on.
    pub fn push(&mut self, piece: &[u8]) -> Result<(), DrnError>
        ensures rule { self.new.rule ≡ self.old.rule }
        ensures stays { Stays self.old.stand self.new.stand }
        ensures fed { (before : List ℕ) → HasRead self.old before → HasRead self.new (before ++ piece.now) }
        ensures answer { result ≡ answer self.new.stand }
        ensures repeats { Repeats self.old.stand result }
    {
        let mut rest = piece;
        'lines: while let Some(at) = rest.iter().position(|b| *b == b'\n') {
            self.take_line(&rest[..at]);
            rest = &rest[at + 1..];
        }
        self.extend(rest);
        match self.refused {
            None => Ok(()),
            Some(refused) => Err(refused),
        }
    }

    /// Judges a last line without a line feed, and then the end: the model that all the bytes read as, or the first broken rule and its line.
    /// A feed that refused answers that refusal, and not want of memory.
    pub fn finish(self) -> Result<Model, DrnError>
        ensures repeats { Repeats self.stand result }
        ensures read { (bytes : List ℕ) → HasRead self bytes → Gives (λ model said. model ≡ said) result (outcome self.rule bytes) }
    {
        let Feed {
            alloc,
            document,
            tail,
            refused,
        } = self;
        match refused {
            Some(refused) => Err(refused),
            None => document.end(alloc, &tail),
        }
    }
}
