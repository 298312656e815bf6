//! What the tokens of an interface say, one by one.
ghost use Rattle.std.specs.Prelude.{◌≡◌, Ok};
ghost use Rattle.interface_tokens.specs.Outcome.{Gives};
ghost use Rattle.interface_text.specs.Trees.{part_kind};
ghost use Rattle.interface_text.specs.Views.{settling_of};
ghost use Rattle.interface_text.specs.Rules as rules;
ghost use Rattle.interface_text.specs.States.{interface_view, reading_of};

use crate::frames::Frames;
use crate::heading::Heading;
use crate::interface::{Interface, Procedure};
use crate::limits::{MAX_EXCEPTIONS, MAX_PROCEDURES};
use crate::names::{Known, Meaning, Names};
use crate::tree::Tree;
use crate::types::{Settled, Types};
use interface_tokens::{
    Act, AtProcedure, AtTop, AtType, Cause, Declare, Ending, Expect, Ident, InProcedure, Place,
    Spot, Stop, Way, act_of,
};
use item_list::Items;
use std::alloc::Global;
use std::mem;
use std::rc::Rc;

/// What the outermost type that is being read is for.
#[derive(Clone, Copy)]
pub(crate) enum Within {
    Definition,
    Parameters,
    Answer,
}

/// What has been read of an interface behind its first line.
#[derive(Drop)]
pub(crate) struct Reader {
    pub expect: Expect,
    pub within: Within,
    /// The name of the interface.
    pub name: Ident,
    /// The name that is being declared.
    pub subject: Ident,
    pub declared: Names,
    pub exceptions: Vec<Ident>,
    /// The number of the next exception.
    pub number: u16,
    pub procedures: Vec<Procedure>,
    pub heading: Heading,
    pub types: Types,
}

impl Reader {
    pub(crate) fn new(alloc: Global, name: Ident) -> Self
        ensures { reading_of result ≡ rules.beginning name }
    {
        Reader {
            expect: Expect::Top(AtTop::Declaration),
            within: Within::Definition,
            name,
            subject: name,
            declared: Names::new(alloc),
            exceptions: Vec::new(alloc),
            number: 0,
            procedures: Vec::new(alloc),
            heading: Heading::new(alloc, 0),
            types: Types::new(alloc),
        }
    }

    /// Takes a token.
    #[tactic(auto, unfolding(crate::specs::Rules::take))]
    pub(crate) fn take(&mut self, alloc: Global, spot: &Spot) -> Result<(), Stop>
        ensures { Gives (λ _. reading_of self.new) result (rules.take (reading_of self.old) spot.now) }
    {
        match act_of(self.expect, &spot.token) {
            Ok(act) => self.act(alloc, act, spot.place),
            Err(cause) => Err(self.types.stop(spot.place, cause)),
        }
    }

    /// Takes tokens in their order.
    pub(crate) fn take_all(&mut self, alloc: Global, spots: &[Spot]) -> Result<(), Stop>
        ensures { Gives (λ _. reading_of self.new) result (rules.take_all (reading_of self.old) spots.now) }
    {
        for spot in spots {
            self.take(alloc, spot)?;
        }
        Ok(())
    }

    /// Takes the end of the tokens.
    pub(crate) fn finish(self, ending: Ending, place: Place) -> Result<Interface, Stop>
        ensures { Gives interface_view result (rules.finish (reading_of self) ending place) }
    {
        self.check_end(ending, place)?;
        Ok(self.into_interface())
    }

    /// The fault of tokens that end here, where they may not.
    #[tactic(auto, unfolding(crate::specs::Rules::finish))]
    fn check_end(&self, ending: Ending, place: Place) -> Result<(), Stop>
        ensures { Gives (λ _. rules.interface_of (reading_of self.now)) result (rules.finish (reading_of self.now) ending place) }
    {
        match ending {
            Ending::Character => Err(self.types.stop(place, Cause::Character)),
            Ending::OpenComment => Err(self.types.stop(place, Cause::OpenComment)),
            Ending::Text => match self.expect {
                Expect::Top(AtTop::Nothing) => Ok(()),
                _ => Err(self.types.stop(place, Cause::Expected)),
            },
        }
    }

    fn into_interface(self) -> Interface
        ensures { interface_view result ≡ rules.interface_of (reading_of self) }
    {
        Interface {
            name: self.name,
            exceptions: Items::new(self.exceptions),
            procedures: Items::new(self.procedures),
        }
    }

    #[tactic(auto, unfolding(crate::specs::Rules::do_act))]
    fn act(&mut self, alloc: Global, act: Act, place: Place) -> Result<(), Stop>
        ensures { Gives (λ _. reading_of self.new) result (rules.do_act (reading_of self.old) act place) }
    {
        match act {
            Act::Go(expect) => {
                self.expect = expect;
                Ok(())
            }
            Act::Declare(declare) => self.declare(alloc, declare, place),
            Act::Procedure(step) => self.go_on_in_procedure(alloc, step, place),
            Act::Step(step) => {
                self.expect = Expect::Type(self.types.step(alloc, step, place)?);
                Ok(())
            }
            Act::End(end) => {
                let settled = self.types.end(alloc, &self.declared, end, place)?;
                self.settle(alloc, settled)
            }
        }
    }

    #[tactic(auto, unfolding(crate::specs::Rules::declare_of))]
    fn declare(&mut self, alloc: Global, declare: Declare, place: Place) -> Result<(), Stop>
        ensures { Gives (λ _. reading_of self.new) result (rules.declare_of (reading_of self.old) declare place) }
    {
        match declare {
            Declare::BeginException => self.begin_exception(place),
            Declare::BeginProcedure => self.begin_procedure(place),
            Declare::Type(name) => self.declare_type(name, place),
            Declare::Equals => {
                self.types.restart();
                self.begin_type(alloc, Within::Definition);
                Ok(())
            }
            Declare::Exception(name) => self.declare_exception(name, place),
            Declare::Procedure(name) => self.declare_procedure(alloc, name, place),
            Declare::EndInterface(name) => self.end_interface(name, place),
        }
    }

    #[tactic(auto, unfolding(crate::specs::Rules::step_of))]
    fn go_on_in_procedure(
        &mut self,
        alloc: Global,
        step: InProcedure,
        place: Place,
    ) -> Result<(), Stop>
        ensures { Gives (λ _. reading_of self.new) result (rules.step_of (reading_of self.old) step place) }
    {
        match step {
            InProcedure::Pass(way) => {
                self.heading.pass(way, 0);
                self.expect = Expect::Procedure(behind(way));
                Ok(())
            }
            InProcedure::FirstParameter(name) => {
                self.heading.pass(Way::Value, 0);
                self.add_parameter(name, place)
            }
            InProcedure::Parameter(name) => self.add_parameter(name, place),
            InProcedure::TypeParameters => {
                self.types.times = self.heading.fresh;
                self.begin_type(alloc, Within::Parameters);
                Ok(())
            }
            InProcedure::TypeResult => {
                self.heading.pass(Way::Out, 1);
                self.types.times = 1;
                self.begin_type(alloc, Within::Answer);
                Ok(())
            }
            InProcedure::Raise(name) => self.add_raise(name, place),
            InProcedure::End => self.end_procedure(alloc),
        }
    }

    /// A part of a type is read.
    fn settle(&mut self, alloc: Global, settled: Settled) -> Result<(), Stop>
        ensures { Gives (λ _. reading_of self.new) result (rules.settle_of (reading_of self.old) (settling_of settled)) }
    {
        match settled {
            Settled::Next(expect) => {
                self.expect = expect;
                Ok(())
            }
            Settled::Whole(tree) => self.end_type(alloc, tree),
        }
    }

    /// The outermost type is read.
    #[tactic(auto, unfolding(crate::specs::Rules::end_type))]
    fn end_type(&mut self, alloc: Global, tree: Rc<Tree>) -> Result<(), Stop>
        ensures { Gives (λ _. reading_of self.new) result (rules.end_type (reading_of self.old) (part_kind tree)) }
    {
        if self.types.is_over() {
            return Err(Stop::Fault(self.types.start, Cause::TooMany));
        }
        match self.within {
            Within::Definition => {
                let known = Known {
                    tree,
                    depth: self.types.deepest,
                    parts: self.types.total,
                };
                self.declared.add(self.subject, Meaning::Type(known))?;
                self.expect = Expect::Top(AtTop::Semicolon);
            }
            Within::Parameters => {
                self.heading.set_type(alloc, &tree)?;
                self.expect = Expect::Procedure(AtProcedure::MoreGroups);
            }
            Within::Answer => {
                self.heading.set_type(alloc, &tree)?;
                self.expect = Expect::Procedure(AtProcedure::Raises);
            }
        }
        Ok(())
    }

    /// A type begins, with none round it.
    fn begin_type(&mut self, alloc: Global, within: Within)
        ensures { reading_of self.new ≡ rules.begin_type (reading_of self.old) within }
    {
        self.types.frames = Frames::new(alloc);
        self.within = within;
        self.expect = Expect::Type(AtType::Begin);
    }

    #[tactic(auto, unfolding(crate::specs::Rules::begin_exception))]
    fn begin_exception(&mut self, place: Place) -> Result<(), Stop>
        ensures { Gives (λ _. reading_of self.new) result (rules.begin_exception (reading_of self.old) place) }
    {
        if self.exceptions.len() >= MAX_EXCEPTIONS {
            return Err(self.types.stop(place, Cause::TooMany));
        }
        self.number = self.exceptions.len() as u16 + 1;
        self.expect = Expect::Top(AtTop::ExceptionName);
        Ok(())
    }

    #[tactic(auto, unfolding(crate::specs::Rules::begin_procedure))]
    fn begin_procedure(&mut self, place: Place) -> Result<(), Stop>
        ensures { Gives (λ _. reading_of self.new) result (rules.begin_procedure (reading_of self.old) place) }
    {
        if self.procedures.len() >= MAX_PROCEDURES {
            return Err(self.types.stop(place, Cause::TooMany));
        }
        self.heading.line = place.line;
        self.expect = Expect::Procedure(AtProcedure::Name);
        Ok(())
    }

    #[tactic(auto, unfolding(crate::specs::Rules::declare_type))]
    fn declare_type(&mut self, name: Ident, place: Place) -> Result<(), Stop>
        ensures { Gives (λ _. reading_of self.new) result (rules.declare_type (reading_of self.old) name place) }
    {
        if self.declared.has(&name) {
            return Err(self.types.stop(place, Cause::Duplicate));
        }
        self.subject = name;
        self.expect = Expect::Top(AtTop::Equals);
        Ok(())
    }

    #[tactic(auto, unfolding(crate::specs::Rules::declare_exception))]
    fn declare_exception(&mut self, name: Ident, place: Place) -> Result<(), Stop>
        ensures { Gives (λ _. reading_of self.new) result (rules.declare_exception (reading_of self.old) name place) }
    {
        if self.declared.has(&name) {
            return Err(self.types.stop(place, Cause::Duplicate));
        }
        self.exceptions.push(name)?;
        self.declared.add(name, Meaning::Exception(self.number))?;
        self.expect = Expect::Top(AtTop::Semicolon);
        Ok(())
    }

    #[tactic(auto, unfolding(crate::specs::Rules::declare_procedure))]
    fn declare_procedure(&mut self, alloc: Global, name: Ident, place: Place) -> Result<(), Stop>
        ensures { Gives (λ _. reading_of self.new) result (rules.declare_procedure (reading_of self.old) name place) }
    {
        if self.declared.has(&name) {
            return Err(self.types.stop(place, Cause::Duplicate));
        }
        self.declared.add(name, Meaning::Procedure)?;
        self.subject = name;
        self.heading = Heading::new(alloc, self.heading.line);
        self.types.restart();
        self.expect = Expect::Procedure(AtProcedure::Open);
        Ok(())
    }

    #[tactic(auto, unfolding(crate::specs::Rules::add_parameter))]
    fn add_parameter(&mut self, name: Ident, place: Place) -> Result<(), Stop>
        ensures { Gives (λ _. reading_of self.new) result (rules.add_parameter (reading_of self.old) name place) }
    {
        if !self.heading.add(name)? {
            return Err(self.types.stop(place, Cause::Duplicate));
        }
        self.expect = Expect::Procedure(AtProcedure::MoreParameters);
        Ok(())
    }

    #[tactic(auto, unfolding(crate::specs::Rules::add_raise))]
    fn add_raise(&mut self, name: Ident, place: Place) -> Result<(), Stop>
        ensures { Gives (λ _. reading_of self.new) result (rules.add_raise (reading_of self.old) name place) }
    {
        let Some(number) = self.declared.exception_of(&name) else {
            return Err(self.types.stop(place, Cause::Unknown));
        };
        self.heading.raises.push(number)?;
        self.expect = Expect::Procedure(AtProcedure::MoreRaises);
        Ok(())
    }

    #[tactic(auto, unfolding(crate::specs::Rules::end_procedure))]
    fn end_procedure(&mut self, alloc: Global) -> Result<(), Stop>
        ensures { Gives (λ _. reading_of self.new) result (Ok (rules.end_procedure (reading_of self.old))) }
    {
        let heading = mem::replace(&mut self.heading, Heading::new(alloc, 0));
        self.procedures.push(heading.end(self.subject))?;
        self.expect = Expect::Top(AtTop::Declaration);
        Ok(())
    }

    #[tactic(auto, unfolding(crate::specs::Rules::end_interface))]
    fn end_interface(&mut self, name: Ident, place: Place) -> Result<(), Stop>
        ensures { Gives (λ _. reading_of self.new) result (rules.end_interface (reading_of self.old) name place) }
    {
        if name != self.name {
            return Err(self.types.stop(place, Cause::EndName));
        }
        self.expect = Expect::Top(AtTop::FullStop);
        Ok(())
    }
}

/// What is expected behind VAR, IN or OUT.
fn behind(way: Way) -> AtProcedure
    ensures { result ≡ rules.behind way }
{
    match way {
        Way::Var => AtProcedure::Way,
        Way::Value | Way::In | Way::Out => AtProcedure::Parameter,
    }
}
