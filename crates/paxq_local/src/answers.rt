//! The answers of a group's members to one question.

ghost use Rattle.std.specs.Prelude.{◌≡◌, ◌<◌, None, MatchBool, false, length, IfOk, MatchOption, replicate};
ghost use Rattle.std.specs.List.{list_all};
ghost use Rattle.paxq_local.specs.Answering.{AreNoted, AreSame, AreTold, Differs, IsAdded, IsAnother, has_answered};

use std::alloc::{AllocError, Global};

/// What came of a command.
#[derive(Drop)]
pub(super) enum Told {
    /// What is printed.
    Said(String),
    /// The members' answers differ.
    Differ,
    /// No answer came.
    NoAnswer,
}

/// Which members have answered, and what is printed of their answers, which is the same for all. Of each member the first answer counts.
#[derive(Drop)]
pub(super) struct Answers {
    has: Vec<bool>,
    text: Option<String>,
}

impl Answers {
    /// None of so many members has answered. It fails where memory is refused.
    pub(super) fn new(alloc: Global, members: u8) -> Result<Answers, AllocError>
        ensures members { IfOk result (λ a. a.has.items ≡ replicate members false) }
        ensures none { IfOk result (λ a. a.text ≡ None) }
    {
        Ok(Answers {
            has: vec![in alloc; false; usize::from(members)]?,
            text: None,
        })
    }

    /// Whether a member, counted from 0, has answered.
    pub(super) fn has(&self, member: usize) -> bool
        ensures { result ≡ has_answered self.now member }
    {
        match self.has.get(member) {
            Some(has) => *has,
            None => false,
        }
    }

    /// Notes what is printed of the answer of a member, counted from 0, unless it has answered, and says what came of the question: the text that all
    /// have answered, once they have, or that two differ.
    pub(super) fn told_with(&mut self, member: usize, text: String) -> Option<Told>
        ensures told { MatchOption result (AreNoted self.old member text self.new) (AreTold self.old member text) }
    {
        if !self.add(member, text) {
            return Some(Told::Differ);
        }
        if self.are_all() {
            return match self.take_text() {
                Some(text) => Some(Told::Said(text)),
                None => Some(Told::NoAnswer),
            };
        }
        None
    }

    /// Whether all have.
    pub(super) fn are_all(&self) -> bool
        ensures { result ≡ list_all (λ has. has) self.now.has.items }
    {
        self.has.iter().all(|has| *has)
    }

    /// Notes what is printed of the answer of a member, counted from 0, unless it has answered. It says whether that is the same as of the others.
    pub(super) fn add(&mut self, member: usize, text: String) -> bool
        ensures noted { MatchBool result (AreNoted self.old member text self.new) (Differs self.old member text) }
    {
        if member >= self.has.len() || self.has(member) {
            return true;
        }
        self.note(member, text)
    }

    /// The same, of a member that has not answered.
    fn note(&mut self, member: usize, text: String) -> bool
        requires member_in { member < length self.old.has.items }
        requires is_new { has_answered self.old member ≡ false }
        ensures noted { MatchBool result (IsAdded self.old member text self.new) (Differs self.old member text) }
    {
        let agrees = self.agrees(text);
        if agrees {
            self.has[member] = true;
        }
        agrees
    }

    /// Whether a text is the same as that which is held; where none is, it is held from now on.
    fn agrees(&mut self, text: String) -> bool
        ensures text { MatchBool result (AreSame self.old.text text self.new.text) (IsAnother self.old.text text) }
        ensures has { self.new.has ≡ self.old.has }
    {
        if let Some(first) = &self.text {
            return *first == text;
        }
        self.text = Some(text);
        true
    }

    /// What is printed of them, if any has answered. It is no longer held.
    pub(super) fn take_text(&mut self) -> Option<String>
        ensures text { result ≡ self.old.text }
        ensures has { self.new.has ≡ self.old.has }
    {
        self.text.take()
    }
}
