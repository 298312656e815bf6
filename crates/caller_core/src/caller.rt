//! The caller and its calls.

ghost use Rattle.std.specs.Prelude.{◌≡◌, ◌≤◌, Some, true, false};
ghost use Rattle.call_rules.specs.Packet.{call_of, fields_of, is_same_call};
ghost use Rattle.call_rules.specs.Caller as rules;

mod headers;

use crate::action::Action;
use crate::state::State;
use call_rules::{QUIET_TICKS, TRIES};
use fragments::{LONG, count};
use rpc_header::{Activity, CallId, CallNumber, Export, Header, Kind};
use std::marker::Model;

/// The export that a caller without a binding names.
const NO_EXPORT: Export = Export {
    identifier: 0,
    index: 0,
};

/// One process of a machine that makes calls, one at a time.
#[derive(Drop)]
pub struct Caller {
    activity: Activity,
    hint: u16,
    number: CallNumber,
    export: Export,
    procedure: u16,
    last_piece: u16,
    state: State,
    tries: u8,
    ticks: u8,
}

impl Model for Caller {
    ghost use Rattle.call_rules.specs.Caller.{Caller};
    ghost use Rattle.caller_core.specs.State.{state_of};

    ghost Value = { Caller };

    ghost view = { λ c. record {
      activity = c.activity;
      hint = c.hint;
      number = c.number.value;
      export = c.export;
      procedure = c.procedure;
      final = c.last_piece;
      state = state_of c.state;
      tries = c.tries;
      ticks = c.ticks;
    } };
}

impl Caller {
    ghost use Rattle.caller_core.specs.Action.{act_of};
    ghost use Rattle.caller_core.specs.State.{state_of};

    /// A caller that has made no call yet. `hint` is the number of its cell, which each of its packets names.
    pub fn idle(activity: Activity, hint: u16) -> Self
        ensures { result ≡ rules.idle activity hint }
    {
        Caller {
            activity,
            hint,
            number: CallNumber { value: 0 },
            export: NO_EXPORT,
            procedure: 0,
            last_piece: 0,
            state: State::Idle,
            tries: 0,
            ticks: 0,
        }
    }

    /// The call that it made last, or the bind. Before the first, the call of number 0.
    pub fn call(&self) -> CallId
        ensures { call_of result ≡ rules.current_call self.now }
    {
        CallId {
            activity: self.activity,
            number: self.number,
        }
    }

    /// Whether a bind is open.
    pub fn is_binding(&self) -> bool
        ensures { result ≡ rules.is_binding self.now.state }
    {
        matches!(self.state, State::Binding)
    }

    /// Whether no call and no bind is open.
    pub fn is_idle(&self) -> bool
        ensures { result ≡ rules.is_idle self.now.state }
    {
        matches!(self.state, State::Idle)
    }

    /// Starts a call whose arguments have `len` bytes: its first piece is to be sent.
    pub fn start_call(
        &mut self,
        number: CallNumber,
        export: Export,
        procedure: u16,
        len: usize,
    ) -> Action
        requires idle { self.old.state ≡ rules.Idle }
        requires fits { len ≤ LONG }
        ensures caller { self.new ≡ (rules.on_start_call self.old number.value export procedure len).caller }
        ensures act { act_of result ≡ (rules.on_start_call self.old number.value export procedure len).act }
    {
        self.number = number;
        self.export = export;
        self.procedure = procedure;
        self.last_piece = count(len) - 1;
        self.send(0)
    }

    /// Starts a bind: the name, as the only piece, is to be sent.
    pub fn start_bind(&mut self, number: CallNumber) -> Action
        requires idle { self.old.state ≡ rules.Idle }
        ensures caller { self.new ≡ (rules.on_start_bind self.old number.value).caller }
        ensures act { act_of result ≡ (rules.on_start_bind self.old number.value).act }
    {
        self.number = number;
        self.enter(State::Binding, 1);
        Action::Send {
            header: self.bind(),
            piece: Some(0),
        }
    }

    /// Takes a packet. One that the caller's table has no row for is unused, and changes nothing.
    #[tactic(auto, using(crate::proofs::Rows::same_call, crate::proofs::Rows::unused_keeps))]
    pub fn on_packet(&mut self, header: &Header) -> Action
        ensures caller { self.new ≡ (rules.on_packet self.old (fields_of header.now)).caller }
        ensures act { act_of result ≡ (rules.on_packet self.old (fields_of header.now)).act }
        ensures same_call { rules.current_call self.new ≡ rules.current_call self.old }
        ensures unused { act_of result ≡ rules.Unused → self.new ≡ self.old }
    {
        if !self.is_current(header.call) {
            return Action::Unused;
        }
        match header.kind {
            Kind::Ack => self.on_ack(header),
            Kind::Result => self.on_result(header),
            Kind::Signal => self.on_signal(header),
            Kind::Reject => self.on_reject(header),
            Kind::Bound => self.on_bound(header),
            Kind::Call | Kind::Probe | Kind::Bind => Action::Unused,
        }
    }

    /// Takes a tick. At an idle caller it has no row, and is unused.
    pub fn on_tick(&mut self) -> Action
        ensures caller { self.new ≡ (rules.on_tick self.old).caller }
        ensures act { act_of result ≡ (rules.on_tick self.old).act }
    {
        if self.is_idle() {
            return Action::Unused;
        }
        if self.ticks < QUIET_TICKS {
            self.ticks += 1;
            return Action::Quiet;
        }
        if self.tries < TRIES {
            self.tries += 1;
            self.ticks = 0;
            return self.sent_again();
        }
        self.abandon();
        Action::Failed
    }

    /// Gives the call or the bind up.
    pub fn abandon(&mut self)
        ensures { self.new ≡ rules.abandoned self.old }
    {
        self.enter(State::Idle, 0);
    }

    /// Whether [`Caller::on_packet`] would begin a reply of many pieces by this packet.
    pub fn begins_long(&self, header: &Header) -> bool
        ensures { result ≡ rules.begins_long self.now (fields_of header.now) }
    {
        self.is_current(header.call)
            && header.kind == Kind::Result
            && self.awaits_reply()
            && header.fragment == 0
            && !header.last
    }
}

/// The steps that a packet of the caller's call makes, a kind each.
impl Caller {
    ghost use Rattle.caller_core.specs.Action.{act_of};
    ghost use Rattle.caller_core.specs.State.{is_due, state_of};

    fn on_ack(&mut self, header: &Header) -> Action
        ensures caller { self.new ≡ (rules.on_ack self.old self.old.state (fields_of header.now)).caller }
        ensures act { act_of result ≡ (rules.on_ack self.old self.old.state (fields_of header.now)).act }
    {
        match self.state {
            State::Sending(piece) if piece < self.last_piece => {
                if header.fragment == piece {
                    self.send(piece + 1)
                } else {
                    Action::Unused
                }
            }
            State::Sending(piece) if piece == self.last_piece => self.on_last_ack(header),
            State::Waiting => self.on_last_ack(header),
            State::Idle | State::Sending(_) | State::Receiving { .. } | State::Binding => {
                Action::Unused
            }
        }
    }

    /// The server has the last piece.
    fn on_last_ack(&mut self, header: &Header) -> Action
        ensures caller { self.new ≡ (rules.on_ack self.old rules.Waiting (fields_of header.now)).caller }
        ensures act { act_of result ≡ (rules.on_ack self.old rules.Waiting (fields_of header.now)).act }
    {
        if header.fragment != self.last_piece {
            return Action::Unused;
        }
        self.enter(State::Waiting, 0);
        Action::Waiting
    }

    fn on_result(&mut self, header: &Header) -> Action
        ensures caller { self.new ≡ (rules.on_result self.old self.old.state (fields_of header.now)).caller }
        ensures act { act_of result ≡ (rules.on_result self.old self.old.state (fields_of header.now)).act }
    {
        if !self.is_due(header.fragment) {
            return Action::Unused;
        }
        if header.last {
            self.abandon();
            return Action::Last { signal: false };
        }
        let kept = header.fragment;
        self.enter(State::Receiving { kept }, 1);
        Action::Keep {
            ack: self.acknowledgement(kept),
        }
    }

    fn on_signal(&mut self, header: &Header) -> Action
        ensures caller { self.new ≡ (rules.on_signal self.old self.old.state (fields_of header.now)).caller }
        ensures act { act_of result ≡ (rules.on_signal self.old self.old.state (fields_of header.now)).act }
    {
        if self.awaits_reply() && header.fragment == 0 && header.last {
            self.abandon();
            Action::Last { signal: true }
        } else {
            Action::Unused
        }
    }

    fn on_reject(&mut self, header: &Header) -> Action
        ensures caller { self.new ≡ (rules.on_reject self.old self.old.state (fields_of header.now)).caller }
        ensures act { act_of result ≡ (rules.on_reject self.old self.old.state (fields_of header.now)).act }
    {
        match self.state {
            State::Idle | State::Binding => Action::Unused,
            State::Sending(_) | State::Waiting | State::Receiving { .. } => {
                self.abandon();
                Action::Refused(header.reason)
            }
        }
    }

    fn on_bound(&mut self, header: &Header) -> Action
        ensures caller { self.new ≡ (rules.on_bound self.old self.old.state (fields_of header.now)).caller }
        ensures act { act_of result ≡ (rules.on_bound self.old self.old.state (fields_of header.now)).act }
    {
        if self.state != State::Binding {
            return Action::Unused;
        }
        self.abandon();
        if header.reason == 0 {
            Action::Bound(header.export)
        } else {
            Action::Unbound
        }
    }

    /// Whether the call is the one that the caller made last.
    fn is_current(&self, call: CallId) -> bool
        ensures { result ≡ is_same_call (call_of call) (rules.current_call self.now) }
    {
        call.activity == self.activity && call.number == self.number
    }

    /// Whether all pieces of the arguments were sent, and no piece of a reply has come.
    fn awaits_reply(&self) -> bool
        ensures { result ≡ rules.awaits_reply self.now self.now.state }
    {
        match self.state {
            State::Sending(piece) => piece == self.last_piece,
            State::Waiting => true,
            State::Idle | State::Receiving { .. } | State::Binding => false,
        }
    }

    /// Whether this piece of the reply is due.
    fn is_due(&self, fragment: u16) -> bool
        ensures { result ≡ is_due self.now self.now.state fragment }
    {
        match self.state {
            State::Receiving { kept } => u32::from(fragment) == u32::from(kept) + 1,
            State::Idle | State::Sending(_) | State::Waiting | State::Binding => {
                self.awaits_reply() && fragment == 0
            }
        }
    }

    /// Sends a piece of the arguments for the first time.
    fn send(&mut self, piece: u16) -> Action
        ensures caller { self.new ≡ record self.old { state = rules.Sending piece; tries = 1; ticks = 0 } }
        ensures act { act_of result ≡ rules.Send (rules.first_sending self.old piece) (Some piece) }
    {
        self.enter(State::Sending(piece), 1);
        Action::Send {
            header: self.first_sending(piece),
            piece: Some(piece),
        }
    }

    /// Waits for something else, which was transmitted so often.
    fn enter(&mut self, state: State, tries: u8)
        ensures { self.new ≡ record self.old { state = state_of state; tries = tries; ticks = 0 } }
    {
        self.state = state;
        self.tries = tries;
        self.ticks = 0;
    }
}
