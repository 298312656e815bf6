//! The type that is being read.
ghost use Rattle.std.specs.Prelude.{◌≡◌, ◌≤◌, ◌<◌, ◌+◌, ◌++◌, ◌∷◌, MatchOption, OnOk, map, replicate, None, IfOk, option_map, option_copied};
ghost use Rattle.interface_tokens.specs.Outcome.{Fails, Gives, Outcome, stopped};
ghost use Rattle.interface_text.specs.Trees.{part_kind};
ghost use Rattle.interface_text.specs.Senses.{known_of, senses_of};
ghost use Rattle.interface_text.specs.TypeRules as rules;
ghost use Rattle.interface_text.specs.Views.{typing_of, settling_of, group_of, forms_of};

use crate::frames::{Fields, Frame, Frames};
use crate::limits::{MAX_PARTS, counted, is_length, level_of};
use crate::names::{Known, NameSet, Names};
use crate::tree::Tree;
use crate::values::{Added, Values};
use interface_tokens::{
    AtType, Basic, Cause, Expect, Ident, Place, START, Stop, TypeEnd, TypeStep,
};
use std::alloc::{AllocError, Global};
use std::rc::Rc;

/// What is known once a part of a type is read.
#[derive(Drop)]
pub(crate) enum Settled {
    /// The outermost type is whole.
    Whole(Rc<Tree>),
    /// It goes on.
    Next(Expect),
}

/// The outermost type that is being read, and what it counts.
#[derive(Drop)]
pub(crate) struct Types {
    /// The first token of the outermost type.
    pub start: Place,
    /// How often each part of the next type counts.
    pub times: u32,
    /// The parts so far. More than there may be count as one more.
    pub total: u32,
    /// The depth so far.
    pub deepest: u32,
    /// The types round the next one, the outermost first.
    pub frames: Frames,
    /// The values of the last enumeration.
    pub values: Values,
}

impl Types {
    pub(crate) fn new(alloc: Global) -> Self
        ensures { typing_of result ≡ rules.untyped }
    {
        Types {
            start: START,
            times: 1,
            total: 0,
            deepest: 0,
            frames: Frames::new(alloc),
            values: Values::new(alloc),
        }
    }

    /// Counts anew.
    pub(crate) fn restart(&mut self)
        ensures { typing_of self.new ≡ rules.restarted (typing_of self.old) }
    {
        self.times = 1;
        self.total = 0;
        self.deepest = 0;
    }

    pub(crate) fn is_over(&self) -> bool
        ensures { result ≡ rules.is_over self.now.total }
    {
        self.total > MAX_PARTS
    }

    /// The first fault where there is one here. Too many parts come at the first token of the outermost type.
    #[tactic(auto, unfolding(crate::specs::TypeRules::stop))]
    pub(crate) fn stop(&self, place: Place, cause: Cause) -> Stop
        ensures { result ≡ stopped (rules.stop self.now.start self.now.total place cause) }
    {
        if self.is_over() {
            Stop::Fault(self.start, Cause::TooMany)
        } else {
            Stop::Fault(place, cause)
        }
    }

    /// Begins a type of this depth that counts these parts.
    #[tactic(auto, unfolding(crate::specs::TypeRules::begin))]
    pub(crate) fn begin(&mut self, place: Place, depth: u32, parts: u32) -> Result<(), Stop>
        ensures { Gives (λ _. typing_of self.new) result (rules.begin (typing_of self.old) place depth parts) }
    {
        if self.frames.is_empty() {
            self.start = place;
        }
        let Some(level) = level_of(self.frames.len(), depth) else {
            return Err(Stop::Fault(self.start, Cause::TooDeep));
        };
        self.deepest = self.deepest.max(level);
        self.total = counted(self.total, self.times, parts);
        Ok(())
    }

    /// What a token says that ends no type, and what is expected behind it.
    #[tactic(auto, unfolding(crate::specs::TypeRules::step, crate::specs::TypeRules::open_ended))]
    pub(crate) fn step(
        &mut self,
        alloc: Global,
        step: TypeStep,
        place: Place,
    ) -> Result<AtType, Stop>
        ensures { Gives (λ at. (typing_of self.new, at)) result (rules.step (typing_of self.old) step place) }
    {
        match step {
            TypeStep::BeginValues => expecting(self.begin_values(alloc, place), AtType::Value),
            TypeStep::Value(name) => expecting(self.add_value(name, place), AtType::MoreValues),
            TypeStep::BeginArray => expecting(self.begin(place, 1, 1), AtType::Length),
            TypeStep::Length(number) => expecting(self.set_length(number, place), AtType::Of),
            TypeStep::OpenArray => {
                self.frames.push(Frame::Open(None))?;
                Ok(AtType::Begin)
            }
            TypeStep::BeginRecord => expecting(self.begin_record(alloc, place), AtType::Field),
            TypeStep::Field(name) => expecting(self.add_field(name, place), AtType::MoreFields),
            TypeStep::TypeFields => expecting(self.type_fields(place), AtType::Begin),
            TypeStep::NextFields => expecting(self.next_fields(place), AtType::Field),
        }
    }

    /// What a token says that ends a type, or a part of one.
    #[tactic(auto, unfolding(crate::specs::TypeRules::end))]
    pub(crate) fn end(
        &mut self,
        alloc: Global,
        names: &Names,
        end: TypeEnd,
        place: Place,
    ) -> Result<Settled, Stop>
        ensures { Gives (λ s. (typing_of self.new, settling_of s)) result (rules.end (typing_of self.old) (senses_of names.now) end place) }
    {
        match end {
            TypeEnd::Basic(basic) => self.basic(alloc, basic, place),
            TypeEnd::Named(name) => self.named(alloc, names.type_of(&name), place),
            TypeEnd::Values => Ok(self.end_values(alloc)?),
            TypeEnd::Limit(number) => self.set_limit(alloc, number, place),
            TypeEnd::Record => self.end_record(alloc, place),
        }
    }

    #[tactic(auto, unfolding(crate::specs::TypeRules::basic))]
    fn basic(&mut self, alloc: Global, basic: Basic, place: Place) -> Result<Settled, Stop>
        ensures { Gives (λ s. (typing_of self.new, settling_of s)) result (rules.basic (typing_of self.old) basic place) }
    {
        self.begin(place, 1, 1)?;
        let tree = Rc::new(alloc, Tree::of_basic(basic))?;
        let settled = self.settle(alloc, tree)?;
        Ok(settled)
    }

    #[tactic(auto, unfolding(crate::specs::TypeRules::named))]
    fn named(&mut self, alloc: Global, known: Option<&Known>, place: Place) -> Result<Settled, Stop>
        ensures { Gives (λ s. (typing_of self.new, settling_of s)) result (rules.named (typing_of self.old) (option_map known_of (option_copied known.entry)) place) }
    {
        match known {
            Some(known) => {
                self.begin(place, known.depth, known.parts)?;
                let tree = known.tree.clone()?;
                let settled = self.settle(alloc, tree)?;
                Ok(settled)
            }
            None => Err(self.unknown(place)),
        }
    }

    /// A name that stands for no type. Within a type it counts as a basic one.
    #[tactic(auto, unfolding(crate::specs::TypeRules::unknown, crate::specs::TypeRules::named))]
    fn unknown(&mut self, place: Place) -> Stop
        ensures { Fails result (rules.named (typing_of self.old) None place) }
    {
        if self.frames.is_empty() {
            return Stop::Fault(place, Cause::Unknown);
        }
        match self.begin(place, 1, 1) {
            Ok(()) => self.stop(place, Cause::Unknown),
            Err(stop) => stop,
        }
    }

    #[tactic(auto, unfolding(crate::specs::TypeRules::begin_values))]
    fn begin_values(&mut self, alloc: Global, place: Place) -> Result<(), Stop>
        ensures { Gives (λ _. typing_of self.new) result (rules.begin_values (typing_of self.old) place) }
    {
        self.begin(place, 1, 1)?;
        self.values = Values::new(alloc);
        Ok(())
    }

    #[tactic(auto, unfolding(crate::specs::TypeRules::add_value))]
    fn add_value(&mut self, name: Ident, place: Place) -> Result<(), Stop>
        ensures { Gives (λ _. typing_of self.new) result (rules.add_value (typing_of self.old) name place) }
    {
        match self.values.add(name)? {
            Added::Added => Ok(()),
            Added::Known => Err(self.stop(place, Cause::Duplicate)),
            Added::Full => Err(self.stop(place, Cause::TooMany)),
        }
    }

    #[tactic(auto, unfolding(crate::specs::TypeRules::end_values))]
    fn end_values(&mut self, alloc: Global) -> Result<Settled, AllocError>
        ensures { IfOk result (λ s. (typing_of self.new, settling_of s) ≡ rules.end_values (typing_of self.old)) }
    {
        let tree = Rc::new(alloc, Tree::Choice(self.values.len()))?;
        self.settle(alloc, tree)
    }

    #[tactic(auto, unfolding(crate::specs::TypeRules::set_length))]
    fn set_length(&mut self, number: u32, place: Place) -> Result<(), Stop>
        ensures { Gives (λ _. typing_of self.new) result (rules.set_length (typing_of self.old) number place) }
    {
        if !is_length(number) {
            return Err(self.stop(place, Cause::Number));
        }
        self.frames.push(Frame::Array(number))?;
        Ok(())
    }

    #[tactic(auto, using(crate::proofs::Settling::limited_open), unfolding(crate::specs::TypeRules::set_limit))]
    fn set_limit(&mut self, alloc: Global, number: u32, place: Place) -> Result<Settled, Stop>
        ensures { Gives (λ s. (typing_of self.new, settling_of s)) result (rules.set_limit (typing_of self.old) number place) }
    {
        if !is_length(number) {
            return Err(self.stop(place, Cause::Number));
        }
        match self.frames.pop() {
            Some(Frame::Open(Some(element))) => {
                let tree = Rc::new(alloc, Tree::Open(number, element))?;
                let settled = self.settle(alloc, tree)?;
                Ok(settled)
            }
            // the grammar has a limit nowhere else
            None | Some(Frame::Array(_) | Frame::Open(None) | Frame::Fields(_)) => Err(self.stop(
                place,
                Cause::Expected,
            )),
        }
    }

    #[tactic(auto, unfolding(crate::specs::TypeRules::begin_record))]
    fn begin_record(&mut self, alloc: Global, place: Place) -> Result<(), Stop>
        ensures { Gives (λ _. typing_of self.new) result (rules.begin_record (typing_of self.old) place) }
    {
        self.begin(place, 1, 1)?;
        self.frames.push(Frame::Fields(Fields {
            names: NameSet::new(alloc),
            parts: Vec::new(alloc),
            fresh: 0,
            times: self.times,
        }))?;
        Ok(())
    }

    /// The record that is being read, taken out of the frames.
    #[tactic(auto, unfolding(crate::specs::TypeRules::the_group))]
    fn record(&mut self, place: Place) -> Result<Fields, Stop>
        ensures { Gives (λ fields. (typing_of self.new, group_of fields)) result (rules.the_group (typing_of self.old) place) }
    {
        match self.frames.pop() {
            Some(Frame::Fields(fields)) => Ok(fields),
            // the grammar has fields nowhere else
            None | Some(Frame::Array(_) | Frame::Open(_)) => Err(self.stop(place, Cause::Expected)),
        }
    }

    #[tactic(auto, unfolding(crate::specs::TypeRules::add_field))]
    fn add_field(&mut self, name: Ident, place: Place) -> Result<(), Stop>
        ensures { Gives (λ _. typing_of self.new) result (rules.add_field (typing_of self.old) name place) }
    {
        let mut fields = self.record(place)?;
        if !fields.add(name)? {
            return Err(self.stop(place, Cause::Duplicate));
        }
        self.frames.push(Frame::Fields(fields))?;
        Ok(())
    }

    #[tactic(auto, unfolding(crate::specs::TypeRules::type_fields))]
    fn type_fields(&mut self, place: Place) -> Result<(), Stop>
        ensures { Gives (λ _. typing_of self.new) result (rules.type_fields (typing_of self.old) place) }
    {
        let fields = self.record(place)?;
        self.times = counted(0, fields.times, fields.fresh);
        self.frames.push(Frame::Fields(fields))?;
        Ok(())
    }

    #[tactic(auto, unfolding(crate::specs::TypeRules::next_fields))]
    fn next_fields(&mut self, place: Place) -> Result<(), Stop>
        ensures { Gives (λ _. typing_of self.new) result (rules.next_fields (typing_of self.old) place) }
    {
        let mut fields = self.record(place)?;
        fields.fresh = 0;
        self.frames.push(Frame::Fields(fields))?;
        Ok(())
    }

    #[tactic(auto, using(crate::proofs::Shaping::tree_fields), unfolding(crate::specs::TypeRules::end_record))]
    fn end_record(&mut self, alloc: Global, place: Place) -> Result<Settled, Stop>
        ensures { Gives (λ s. (typing_of self.new, settling_of s)) result (rules.end_record (typing_of self.old) place) }
    {
        let parts = self.record(place)?.into_parts();
        let tree = Rc::new(alloc, Tree::Fields(parts))?;
        let settled = self.settle(alloc, tree)?;
        Ok(settled)
    }

    /// A part is read. It calls itself at most once for each type round it.
    #[tactic(auto, using(crate::proofs::Settling::settled_whole, crate::proofs::Settling::settled_array, crate::proofs::Settling::settled_open))]
    fn settle(&mut self, alloc: Global, tree: Rc<Tree>) -> Result<Settled, AllocError>
        ensures { IfOk result (λ s. (typing_of self.new, settling_of s) ≡ rules.settled (typing_of self.old) (part_kind tree)) }
    {
        match self.frames.pop() {
            None => Ok(Settled::Whole(tree)),
            Some(Frame::Array(number)) => {
                let array = Rc::new(alloc, Tree::Array(number, tree))?;
                let settled = self.settle(alloc, array)?;
                Ok(settled)
            }
            Some(Frame::Open(_)) => {
                self.frames.push(Frame::Open(Some(tree)))?;
                Ok(Settled::Next(Expect::Type(AtType::Upto)))
            }
            Some(Frame::Fields(fields)) => {
                self.settle_in(fields, &tree)?;
                Ok(Settled::Next(Expect::Type(AtType::EndRecord)))
            }
        }
    }

    /// Each name of the last group of these fields has this type.
    fn settle_in(&mut self, mut fields: Fields, tree: &Rc<Tree>) -> Result<(), AllocError>
        ensures { OnOk result ((typing_of self.new, rules.next (Expect.Type AtType.EndRecord)) ≡ rules.settled_in (typing_of self.old) (rules.fields_form (group_of fields) ∷ forms_of self.old.frames) (part_kind tree.now)) }
    {
        push_shared(&mut fields.parts, tree, fields.fresh)?;
        self.times = fields.times;
        self.frames.push(Frame::Fields(fields))?;
        Ok(())
    }
}

/// What is expected behind a step, where it went well.
#[tactic(auto, using(crate::proofs::Stepping::expects, crate::proofs::Stepping::fails))]
fn expecting(done: Result<(), Stop>, at: AtType) -> Result<AtType, Stop>
    ensures { (typing : rules.Typing) (read : Outcome rules.Typing) → Gives (λ _. typing) done read → Gives (λ next. (typing, next)) result (rules.then_expect read at) }
{
    done?;
    Ok(at)
}

/// Pushes so many times what is shared.
fn push_shared(parts: &mut Vec<Rc<Tree>>, tree: &Rc<Tree>, count: u32) -> Result<(), AllocError>
    ensures { OnOk result (map part_kind parts.new.items ≡ map part_kind parts.old.items ++ replicate count (part_kind tree.now)) }
{
    'copies: for _ in 0..count {
        let shared = tree.clone()?;
        parts.push(shared)?;
    }
    Ok(())
}
