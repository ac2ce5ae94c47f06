//! A client beside a group, which asks what a script's lines ask.

ghost use Rattle.std.specs.Prelude.{◌≡◌, ℕ, max, List, [], ◌∷◌, ◌++◌, length, IfOk, IfSome, MatchOption, string_bytes};
ghost use Rattle.paxq_files.specs.Commands.{command_term};
ghost use Rattle.paxq_local.specs.Asking.{Gives, GivesNothing, form_of, id_of};
ghost use Rattle.paxq_local.specs.Members.{HoldsSaid, IsSaidBy, IsToldAs, IsToldByAll, IsToldByFirst, number_after, question_after};
ghost use Rattle.paxq_local.specs.Sent.{AreTried, AreTriedFirst, AreTriedFor, IsRound, sent_to};
ghost use Rattle.paxq_local.specs.Told.{Brings, told_at};
ghost use Rattle.wires.specs.Wires.{Carried};

use super::answers::{Answers, Told};
use super::asked::{Asked, Form, Said, asked_of};
use super::group::{GROUP, Group};
use super::heard::{listen_to_all, listen_to_first};
use applications::Application;
use ballots::RequestId;
use paxq_files::Command;
use std::alloc::{AllocError, Global};
use wires::Wire;

/// How often something is sent before it gets no answer.
const TRIES: u32 = 200;

/// Who asks the members.
#[derive(Drop)]
pub(super) struct Client<A: Application + Drop, D: Copy + Eq + Drop> {
    pub(super) group: Group<A, D>,
    /// Where the members are.
    pub(super) peers: Vec<D>,
    /// Where what comes is put.
    pub(super) buffer: Vec<u8>,
    /// The highest position that was replied.
    pub(super) floor: u32,
    /// How many commands it has asked.
    pub(super) asked: u64,
}

impl<A: Application + Drop, D: Copy + Eq + Drop> Client<A, D> {
    /// What comes of a command that a group of so many members is asked. It fails where memory is refused.
    pub(super) fn tell<W: Wire<Address = D>>(
        &mut self,
        alloc: Global,
        wire: &mut W,
        members: u8,
        command: Command,
    ) -> Result<Told, AllocError>
        ensures told { Brings W.has_brought wire.old wire.new (λ brought. IfOk result (IsToldAs D.eq self.old.peers.items brought members (form_of (command_term command)) (id_of (question_after self.old.asked) (command_term command)) self.old.floor self.new.floor)) }
        ensures sent { Gives W.was_given wire.old wire.new (AreTriedFor self.old.peers.items self.old.asked self.old.floor (command_term command) result) }
        ensures peers { self.new.peers.items ≡ self.old.peers.items }
        ensures count { self.new.asked ≡ number_after self.old.asked }
    {
        let id = self.next_id();
        let Some(asked) = asked_of(alloc, GROUP, command, id, self.floor)? else {
            return Ok(Told::NoAnswer);
        };
        self.ask(alloc, wire, members, &asked)
    }

    /// Asks the first member, or where it is a question without a floor all of them.
    fn ask<W: Wire<Address = D>>(
        &mut self,
        alloc: Global,
        wire: &mut W,
        members: u8,
        asked: &Asked,
    ) -> Result<Told, AllocError>
        ensures told { Brings W.has_brought wire.old wire.new (λ brought. IfOk result (IsToldAs D.eq self.old.peers.items brought members asked.now.form asked.now.id self.old.floor self.new.floor)) }
        ensures sent { Gives W.was_given wire.old wire.new (AreTried self.old.peers.items asked.now.form asked.now.bytes.items result) }
        ensures peers { self.new.peers.items ≡ self.old.peers.items }
        ensures count { self.new.asked ≡ self.old.asked }
    {
        match asked.form {
            Form::Submit | Form::AskAt => self.ask_one(alloc, wire, asked),
            Form::Ask => self.ask_all(alloc, wire, members, asked),
        }
    }

    /// What the next question goes by.
    fn next_id(&mut self) -> RequestId
        ensures id { result ≡ question_after self.old.asked }
        ensures peers { self.new.peers.items ≡ self.old.peers.items }
        ensures floor { self.new.floor ≡ self.old.floor }
        ensures count { self.new.asked ≡ number_after self.old.asked }
    {
        self.asked = self.asked.saturating_add(1);
        RequestId {
            client: 0,
            number: self.asked,
        }
    }

    /// Asks the first member, again and again, until it answers.
    fn ask_one<W: Wire<Address = D>>(
        &mut self,
        alloc: Global,
        wire: &mut W,
        asked: &Asked,
    ) -> Result<Told, AllocError>
        ensures told { Brings W.has_brought wire.old wire.new (λ brought. IfOk result (IsToldByFirst D.eq self.old.peers.items brought asked.now.form asked.now.id self.old.floor self.new.floor)) }
        ensures sent { Gives W.was_given wire.old wire.new (AreTriedFirst self.old.peers.items asked.now.bytes.items result) }
        ensures peers { self.new.peers.items ≡ self.old.peers.items }
        ensures count { self.new.asked ≡ self.old.asked }
    {
        for turn in 0..TRIES {
            self.try_again(alloc, wire, turn);
            self.send(wire, 0, &asked.bytes);
            if let Some(said) = self.listen(alloc, wire, asked)? {
                self.note(said.position);
                return Ok(Told::Said(said.text));
            }
        }
        self.check_memory()?;
        Ok(Told::NoAnswer)
    }

    /// A try begins; before each further one what was lost is sent again.
    fn try_again<W: Wire<Address = D>>(&mut self, alloc: Global, wire: &mut W, turn: u32)
        ensures given { GivesNothing W.was_given wire.old wire.new }
        ensures brought { (ds : List (Carried D)) → W.has_brought wire.old ds → W.has_brought wire.new ds }
        ensures peers { self.new.peers.items ≡ self.old.peers.items }
        ensures count { self.new.asked ≡ self.old.asked }
        ensures floor { self.new.floor ≡ self.old.floor }
    {
        self.group.start_try();
        if turn > 0 {
            self.group.tick(alloc, wire);
        }
    }

    /// Notes the position of a reply, or 0.
    fn note(&mut self, position: u32)
        ensures peers { self.new.peers.items ≡ self.old.peers.items }
        ensures count { self.new.asked ≡ self.old.asked }
        ensures floor { self.new.floor ≡ max self.old.floor position }
    {
        self.floor = self.floor.max(position);
    }

    /// Where no answer came: whether memory was refused to a member, which may be why.
    fn check_memory(&self) -> Result<(), AllocError> {
        if self.group.has_lost() {
            Err(AllocError)
        } else {
            Ok(())
        }
    }

    /// Sends a datagram to a member, counted from 0. Where the wire does not take it, it is lost.
    fn send<W: Wire<Address = D>>(&self, wire: &mut W, member: usize, bytes: &[u8])
        ensures given { Gives W.was_given wire.old wire.new (λ went. went ≡ sent_to self.now.peers.items bytes.now (member ∷ [])) }
        ensures brought { (ds : List (Carried D)) → W.has_brought wire.old ds → W.has_brought wire.new ds }
    {
        if let Some(peer) = self.peers.get(member) {
            let _ = wire.send(0, *peer, bytes);
        }
    }

    /// Listens until the first member answers, or this try is over.
    fn listen<W: Wire<Address = D>>(
        &mut self,
        alloc: Global,
        wire: &mut W,
        asked: &Asked,
    ) -> Result<Option<Said>, AllocError>
        ensures given { GivesNothing W.was_given wire.old wire.new }
        ensures said { Brings W.has_brought wire.old wire.new (λ brought. IfOk result (λ said. IfSome said (λ s. IsSaidBy D.eq self.old.peers.items brought 0 (told_at asked.now.form) asked.now.id (string_bytes s.text, s.position)))) }
        ensures peers { self.new.peers.items ≡ self.old.peers.items }
        ensures count { self.new.asked ≡ self.old.asked }
        ensures floor { self.new.floor ≡ self.old.floor }
    {
        let peers = self.peers.as_slice();
        listen_to_first(alloc, &mut self.group, wire, peers, asked, &mut self.buffer)
    }

    /// Asks all members, and those again that have not answered, until all have, or two differ.
    fn ask_all<W: Wire<Address = D>>(
        &mut self,
        alloc: Global,
        wire: &mut W,
        members: u8,
        asked: &Asked,
    ) -> Result<Told, AllocError>
        ensures told { Brings W.has_brought wire.old wire.new (λ brought. IfOk result (IsToldByAll D.eq self.old.peers.items brought members asked.now.id)) }
        ensures sent { Gives W.was_given wire.old wire.new (AreTried self.old.peers.items (Form.Ask) asked.now.bytes.items result) }
        ensures peers { self.new.peers.items ≡ self.old.peers.items }
        ensures count { self.new.asked ≡ self.old.asked }
        ensures floor { self.new.floor ≡ self.old.floor }
    {
        let mut answers = Answers::new(alloc, members)?;
        for turn in 0..TRIES {
            self.try_again(alloc, wire, turn);
            self.send_to_others(wire, &answers, &asked.bytes);
            let heard = self.listen_to_others(alloc, wire, asked.id, &mut answers)?;
            if let Some(told) = heard {
                return Ok(told);
            }
        }
        self.check_memory()?;
        Ok(Told::NoAnswer)
    }

    /// Sends a datagram to the members that have not answered.
    fn send_to_others<W: Wire<Address = D>>(&self, wire: &mut W, answers: &Answers, bytes: &[u8])
        ensures given { Gives W.was_given wire.old wire.new (λ went. (to : List ℕ) × IsRound self.now.peers.items bytes.now answers.now (length self.now.peers.items) to went) }
        ensures brought { (ds : List (Carried D)) → W.has_brought wire.old ds → W.has_brought wire.new ds }
    {
        for member in 0..self.peers.len() {
            if !answers.has(member) {
                self.send(wire, member, bytes);
            }
        }
    }

    /// Listens until all members have answered, or two answers differ, or this try is over.
    fn listen_to_others<W: Wire<Address = D>>(
        &mut self,
        alloc: Global,
        wire: &mut W,
        id: RequestId,
        answers: &mut Answers,
    ) -> Result<Option<Told>, AllocError>
        ensures told { Brings W.has_brought wire.old wire.new (λ brought. (members : ℕ) (before : List (Carried D)) → HoldsSaid D.eq self.old.peers.items before members id answers.old
            → IfOk result (λ told. MatchOption told (HoldsSaid D.eq self.old.peers.items (before ++ brought) members id answers.new) (IsToldByAll D.eq self.old.peers.items (before ++ brought) members id))) }
        ensures given { GivesNothing W.was_given wire.old wire.new }
        ensures peers { self.new.peers.items ≡ self.old.peers.items }
        ensures count { self.new.asked ≡ self.old.asked }
        ensures floor { self.new.floor ≡ self.old.floor }
    {
        let peers = self.peers.as_slice();
        listen_to_all(
            alloc,
            &mut self.group,
            wire,
            peers,
            id,
            answers,
            &mut self.buffer,
        )
    }
}
