//! The syntax: what may stand at each point of an interface, and what it says there.
ghost use Rattle.std.specs.Prelude.{◌≡◌};
ghost use Rattle.interface_tokens.specs.Syntax as syntax;

use crate::expect::{
    Act, AtProcedure, AtTop, AtType, Basic, Declare, Expect, InProcedure, TypeEnd, TypeStep, Way,
};
use crate::fault::Cause;
use crate::ident::Ident;
use crate::token::{Sign, Token, Word};

/// What a token says, or why the grammar has no such token here.
#[tactic(auto, unfolding(crate::specs::Syntax::act_of))]
pub fn act_of(expect: Expect, token: &Token) -> Result<Act, Cause>
    ensures { result ≡ syntax.act_of expect token.now }
{
    match expect {
        Expect::Top(at) => act_at_top(at, token),
        Expect::Procedure(at) => act_in_procedure(at, token),
        Expect::Type(at) => act_in_type(at, token),
    }
}

#[tactic(auto, unfolding(crate::specs::Syntax::act_at_top))]
fn act_at_top(at: AtTop, token: &Token) -> Result<Act, Cause>
    ensures { result ≡ syntax.act_at_top at token.now }
{
    match at {
        AtTop::Declaration => declaration(token),
        AtTop::TypeName => Ok(Act::Declare(Declare::Type(name_of(token)?))),
        AtTop::Equals => only_sign(token, Sign::Equals, Act::Declare(Declare::Equals)),
        AtTop::ExceptionName => Ok(Act::Declare(Declare::Exception(name_of(token)?))),
        AtTop::Semicolon => only_sign(token, Sign::Semicolon, top(AtTop::Declaration)),
        AtTop::EndName => Ok(Act::Declare(Declare::EndInterface(name_of(token)?))),
        AtTop::FullStop => only_sign(token, Sign::FullStop, top(AtTop::Nothing)),
        AtTop::Nothing => Err(after(token)),
    }
}

#[tactic(auto, unfolding(crate::specs::Syntax::declaration))]
fn declaration(token: &Token) -> Result<Act, Cause>
    ensures { result ≡ syntax.declaration token.now }
{
    if is_word(token, Word::Type) {
        Ok(top(AtTop::TypeName))
    } else if is_word(token, Word::Exception) {
        Ok(Act::Declare(Declare::BeginException))
    } else if is_word(token, Word::Procedure) {
        Ok(Act::Declare(Declare::BeginProcedure))
    } else {
        only_word(token, Word::End, top(AtTop::EndName))
    }
}

#[tactic(auto, unfolding(crate::specs::Syntax::act_in_procedure))]
fn act_in_procedure(at: AtProcedure, token: &Token) -> Result<Act, Cause>
    ensures { result ≡ syntax.act_in_procedure at token.now }
{
    match at {
        AtProcedure::Name => Ok(Act::Declare(Declare::Procedure(name_of(token)?))),
        AtProcedure::Open => only_sign(token, Sign::Open, procedure(AtProcedure::FirstGroup)),
        AtProcedure::FirstGroup => {
            if is_sign(token, Sign::Close) {
                Ok(procedure(AtProcedure::Answer))
            } else {
                group(token)
            }
        }
        AtProcedure::Group => group(token),
        AtProcedure::Way => passing(token),
        AtProcedure::Parameter => Ok(Act::Procedure(InProcedure::Parameter(name_of(token)?))),
        AtProcedure::MoreParameters => more_parameters(token),
        AtProcedure::MoreGroups => more_groups(token),
        AtProcedure::Answer => {
            if is_sign(token, Sign::Colon) {
                Ok(Act::Procedure(InProcedure::TypeResult))
            } else {
                raises(token)
            }
        }
        AtProcedure::Raises => raises(token),
        AtProcedure::OpenRaises => {
            only_sign(token, Sign::OpenBrace, procedure(AtProcedure::Raise))
        }
        AtProcedure::Raise => Ok(Act::Procedure(InProcedure::Raise(name_of(token)?))),
        AtProcedure::MoreRaises => more_raises(token),
        AtProcedure::Semicolon => {
            only_sign(token, Sign::Semicolon, Act::Procedure(InProcedure::End))
        }
    }
}

#[tactic(auto, unfolding(crate::specs::Syntax::group))]
fn group(token: &Token) -> Result<Act, Cause>
    ensures { result ≡ syntax.group token.now }
{
    if is_word(token, Word::Var) {
        Ok(Act::Procedure(InProcedure::Pass(Way::Var)))
    } else {
        Ok(Act::Procedure(InProcedure::FirstParameter(name_of(token)?)))
    }
}

#[tactic(auto, unfolding(crate::specs::Syntax::passing))]
fn passing(token: &Token) -> Result<Act, Cause>
    ensures { result ≡ syntax.passing token.now }
{
    if is_word(token, Word::In) {
        Ok(Act::Procedure(InProcedure::Pass(Way::In)))
    } else if is_word(token, Word::Out) {
        Ok(Act::Procedure(InProcedure::Pass(Way::Out)))
    } else {
        Ok(Act::Procedure(InProcedure::Parameter(name_of(token)?)))
    }
}

#[tactic(auto, unfolding(crate::specs::Syntax::more_parameters))]
fn more_parameters(token: &Token) -> Result<Act, Cause>
    ensures { result ≡ syntax.more_parameters token.now }
{
    if is_sign(token, Sign::Comma) {
        Ok(procedure(AtProcedure::Parameter))
    } else {
        only_sign(
            token,
            Sign::Colon,
            Act::Procedure(InProcedure::TypeParameters),
        )
    }
}

#[tactic(auto, unfolding(crate::specs::Syntax::more_groups))]
fn more_groups(token: &Token) -> Result<Act, Cause>
    ensures { result ≡ syntax.more_groups token.now }
{
    if is_sign(token, Sign::Semicolon) {
        Ok(procedure(AtProcedure::Group))
    } else {
        only_sign(token, Sign::Close, procedure(AtProcedure::Answer))
    }
}

#[tactic(auto, unfolding(crate::specs::Syntax::raises))]
fn raises(token: &Token) -> Result<Act, Cause>
    ensures { result ≡ syntax.raises token.now }
{
    if is_word(token, Word::Raises) {
        Ok(procedure(AtProcedure::OpenRaises))
    } else {
        only_sign(token, Sign::Semicolon, Act::Procedure(InProcedure::End))
    }
}

#[tactic(auto, unfolding(crate::specs::Syntax::more_raises))]
fn more_raises(token: &Token) -> Result<Act, Cause>
    ensures { result ≡ syntax.more_raises token.now }
{
    if is_sign(token, Sign::Comma) {
        Ok(procedure(AtProcedure::Raise))
    } else {
        only_sign(token, Sign::CloseBrace, procedure(AtProcedure::Semicolon))
    }
}

#[tactic(auto, unfolding(crate::specs::Syntax::act_in_type))]
fn act_in_type(at: AtType, token: &Token) -> Result<Act, Cause>
    ensures { result ≡ syntax.act_in_type at token.now }
{
    match at {
        AtType::Begin => begin_type(token),
        AtType::Value => Ok(Act::Step(TypeStep::Value(name_of(token)?))),
        AtType::MoreValues => more_values(token),
        AtType::Length => {
            if is_word(token, Word::Of) {
                Ok(Act::Step(TypeStep::OpenArray))
            } else {
                Ok(Act::Step(TypeStep::Length(number_of(token)?)))
            }
        }
        AtType::Of => only_word(token, Word::Of, in_type(AtType::Begin)),
        AtType::Upto => only_word(token, Word::Upto, in_type(AtType::Limit)),
        AtType::Limit => Ok(Act::End(TypeEnd::Limit(number_of(token)?))),
        AtType::Field => Ok(Act::Step(TypeStep::Field(name_of(token)?))),
        AtType::MoreFields => more_fields(token),
        AtType::EndRecord => end_record(token),
    }
}

#[tactic(auto, unfolding(crate::specs::Syntax::begin_type))]
fn begin_type(token: &Token) -> Result<Act, Cause>
    ensures { result ≡ syntax.begin_type token.now }
{
    if is_word(token, Word::Array) {
        Ok(Act::Step(TypeStep::BeginArray))
    } else if is_word(token, Word::Record) {
        Ok(Act::Step(TypeStep::BeginRecord))
    } else if is_sign(token, Sign::Open) {
        Ok(Act::Step(TypeStep::BeginValues))
    } else if let Some(basic) = basic_of(token) {
        Ok(Act::End(TypeEnd::Basic(basic)))
    } else {
        Ok(Act::End(TypeEnd::Named(name_of(token)?)))
    }
}

#[tactic(auto, unfolding(crate::specs::Syntax::more_values))]
fn more_values(token: &Token) -> Result<Act, Cause>
    ensures { result ≡ syntax.more_values token.now }
{
    if is_sign(token, Sign::Comma) {
        Ok(in_type(AtType::Value))
    } else {
        only_sign(token, Sign::Close, Act::End(TypeEnd::Values))
    }
}

#[tactic(auto, unfolding(crate::specs::Syntax::more_fields))]
fn more_fields(token: &Token) -> Result<Act, Cause>
    ensures { result ≡ syntax.more_fields token.now }
{
    if is_sign(token, Sign::Comma) {
        Ok(in_type(AtType::Field))
    } else {
        only_sign(token, Sign::Colon, Act::Step(TypeStep::TypeFields))
    }
}

#[tactic(auto, unfolding(crate::specs::Syntax::end_record))]
fn end_record(token: &Token) -> Result<Act, Cause>
    ensures { result ≡ syntax.end_record token.now }
{
    if is_sign(token, Sign::Semicolon) {
        Ok(Act::Step(TypeStep::NextFields))
    } else {
        only_word(token, Word::End, Act::End(TypeEnd::Record))
    }
}

fn top(at: AtTop) -> Act
    ensures { result ≡ syntax.top at }
{
    Act::Go(Expect::Top(at))
}

fn procedure(at: AtProcedure) -> Act
    ensures { result ≡ syntax.procedure at }
{
    Act::Go(Expect::Procedure(at))
}

fn in_type(at: AtType) -> Act
    ensures { result ≡ syntax.in_type at }
{
    Act::Go(Expect::Type(at))
}

/// The basic type that a word names.
#[tactic(auto, unfolding(crate::specs::Syntax::basic_of))]
fn basic_of(token: &Token) -> Option<Basic>
    ensures { result ≡ syntax.basic_of token.now }
{
    if is_word(token, Word::Boolean) {
        Some(Basic::Boolean)
    } else if is_word(token, Word::Byte) || is_word(token, Word::Char) {
        Some(Basic::Byte)
    } else if is_word(token, Word::Cardinal) {
        Some(Basic::Cardinal)
    } else if is_word(token, Word::Integer) {
        Some(Basic::Integer)
    } else if is_word(token, Word::Longcard) {
        Some(Basic::Longcard)
    } else {
        None
    }
}

/// The one token that may stand here is a word.
#[tactic(auto, unfolding(crate::specs::Syntax::only_word))]
fn only_word(token: &Token, word: Word, act: Act) -> Result<Act, Cause>
    ensures { result ≡ syntax.only_word token.now word act }
{
    if is_word(token, word) {
        Ok(act)
    } else {
        Err(Cause::Expected)
    }
}

/// The one token that may stand here is a sign.
#[tactic(auto, unfolding(crate::specs::Syntax::only_sign))]
fn only_sign(token: &Token, sign: Sign, act: Act) -> Result<Act, Cause>
    ensures { result ≡ syntax.only_sign token.now sign act }
{
    if is_sign(token, sign) {
        Ok(act)
    } else {
        Err(Cause::Expected)
    }
}

#[tactic(auto, unfolding(crate::specs::Syntax::is_word))]
pub fn is_word(token: &Token, word: Word) -> bool
    ensures { result ≡ syntax.is_word token.now word }
{
    match token {
        Token::Word(found) => *found as u8 == word as u8,
        Token::Sign(_) | Token::Name(_) | Token::LongName | Token::Number(_) => false,
    }
}

#[tactic(auto, unfolding(crate::specs::Syntax::is_sign))]
pub fn is_sign(token: &Token, sign: Sign) -> bool
    ensures { result ≡ syntax.is_sign token.now sign }
{
    match token {
        Token::Sign(found) => *found as u8 == sign as u8,
        Token::Word(_) | Token::Name(_) | Token::LongName | Token::Number(_) => false,
    }
}

/// The name that a token is, where the grammar has one.
#[tactic(auto, unfolding(crate::specs::Syntax::name_of))]
pub fn name_of(token: &Token) -> Result<Ident, Cause>
    ensures { result ≡ syntax.name_of token.now }
{
    match token {
        Token::Name(name) => Ok(*name),
        Token::LongName => Err(Cause::LongName),
        Token::Word(_) | Token::Sign(_) | Token::Number(_) => Err(Cause::Expected),
    }
}

/// The number that a token is, where the grammar has one.
#[tactic(auto, unfolding(crate::specs::Syntax::number_of))]
fn number_of(token: &Token) -> Result<u32, Cause>
    ensures { result ≡ syntax.number_of token.now }
{
    match token {
        Token::Number(number) => Ok(*number),
        Token::Word(_) | Token::Sign(_) | Token::Name(_) | Token::LongName => Err(Cause::Expected),
    }
}

/// The fault of a token behind the last full stop.
#[tactic(auto, unfolding(crate::specs::Syntax::after))]
fn after(token: &Token) -> Cause
    ensures { result ≡ syntax.after token.now }
{
    match token {
        Token::LongName => Cause::LongName,
        Token::Word(_) | Token::Sign(_) | Token::Name(_) | Token::Number(_) => Cause::After,
    }
}
