//! The first words that a line may have, and the call words.
ghost use Rattle.std.specs.Prelude.{◌≡◌, ◌≢◌, MatchOption};
ghost use Rattle.script_text.specs.Words.{IsVerb, text_of, asked_text_of};
ghost use Rattle.script_text.specs.declared.verb.Verb.{Verb};
ghost use Rattle.script_text.specs.declared.verb.CallVerb.{CallVerb};

/// What the first word of a line says.
#[derive(Clone, Copy)]
pub enum Verb {
    Pool,
    Second,
    Call,
    Bind,
    Tick,
    Deliver,
    Damage,
    Work,
    Export,
    Withdraw,
    Restart,
    Skip,
    Show,
    Holders,
    Sweep,
    Journal,
    End,
}

/// What the fourth word of a line says that begins with `call`.
#[derive(Clone, Copy)]
pub enum CallVerb {
    Null,
    Add,
    Bump,
    MaxArg,
    MaxResult,
    BigArg,
    BigResult,
}

/// The first words that a line may have, those first that most lines have.
const VERBS: [Verb; 17] = [
    Verb::Call,
    Verb::Tick,
    Verb::Bind,
    Verb::Second,
    Verb::Restart,
    Verb::Damage,
    Verb::Deliver,
    Verb::Work,
    Verb::Export,
    Verb::Withdraw,
    Verb::Skip,
    Verb::Show,
    Verb::Journal,
    Verb::End,
    Verb::Pool,
    Verb::Holders,
    Verb::Sweep,
];

/// The call words.
const CALL_VERBS: [CallVerb; 7] = [
    CallVerb::Null,
    CallVerb::Add,
    CallVerb::Bump,
    CallVerb::MaxArg,
    CallVerb::MaxResult,
    CallVerb::BigArg,
    CallVerb::BigResult,
];

impl Verb {
    /// How the word is spelled.
    fn text(self) -> &'static [u8]
        ensures { result.now ≡ text_of self }
    {
        match self {
            Verb::Pool => b"pool",
            Verb::Second => b"second",
            Verb::Call => b"call",
            Verb::Bind => b"bind",
            Verb::Tick => b"tick",
            Verb::Deliver => b"deliver",
            Verb::Damage => b"damage",
            Verb::Work => b"work",
            Verb::Export => b"export",
            Verb::Withdraw => b"withdraw",
            Verb::Restart => b"restart",
            Verb::Skip => b"skip",
            Verb::Show => b"show",
            Verb::Holders => b"holders",
            Verb::Sweep => b"sweep",
            Verb::Journal => b"journal",
            Verb::End => b"end",
        }
    }
}

impl CallVerb {
    /// How the word is spelled.
    fn text(self) -> &'static [u8]
        ensures { result.now ≡ asked_text_of self }
    {
        match self {
            CallVerb::Null => b"null",
            CallVerb::Add => b"add",
            CallVerb::Bump => b"bump",
            CallVerb::MaxArg => b"maxarg",
            CallVerb::MaxResult => b"maxresult",
            CallVerb::BigArg => b"bigarg",
            CallVerb::BigResult => b"bigresult",
        }
    }
}

pub fn verb_of(word: &[u8]) -> Option<Verb>
    ensures { IsVerb word.now result }
{
    for verb in &VERBS {
        if word == verb.text() {
            return Some(*verb);
        }
    }
    None
}

pub fn call_verb_of(word: &[u8]) -> Option<CallVerb>
    ensures { MatchOption result ((v : CallVerb) → word.now ≢ asked_text_of v) (λ v. word.now ≡ asked_text_of v) }
{
    for verb in &CALL_VERBS {
        if word == verb.text() {
            return Some(*verb);
        }
    }
    None
}
