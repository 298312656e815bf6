//! Long texts that the server keeps: what has come of a call's arguments, the arguments whole, and a reply. Each is at
//! most as long as its pieces can be.

ghost use Rattle.std.specs.Prelude.{◌≡◌, ◌≤◌, ◌*◌, length, IfOk};
ghost use Rattle.fragments.specs.declared.limits.TheConstants.{LONG, PIECE};

use fragments::{Gathered, LONG};
use std::alloc::{AllocError, Global};

/// The pieces of a call's arguments that have come, joined. Each is full, since with the last, which alone may be short,
/// the arguments are whole.
#[derive(Drop)]
pub struct Gathering {
    /// A buffer of the greatest length. The pieces stand at its head.
    pub text: Vec<u8>,
    pub gathered: Gathered,
    pub ghost room: { length text.items ≡ LONG },
    pub ghost full: { gathered.len ≡ PIECE * gathered.next },
}

impl Gathering {
    ghost use Rattle.replay_server.specs.Texts.{gathered_in};

    /// What is gathered when the first piece has come.
    pub fn begin(alloc: Global, piece: &[u8]) -> Result<Self, AllocError>
        requires { length piece.now ≡ PIECE }
        ensures { IfOk result (λ pieces. (gathered_in pieces ≡ piece.now) × (pieces.gathered.next ≡ 1)) }
    {
        let mut text = Vec::from_elem(alloc, 0, LONG)?;
        let mut gathered = Gathered { len: 0, next: 0 };
        gathered.push(text.as_mut_slice(), 0, false, piece);
        Ok(Gathering { text, gathered })
    }
}

/// A call's arguments, joined from all their pieces.
#[derive(Drop)]
pub struct Whole {
    /// A buffer of the greatest length. The arguments stand at its head.
    pub text: Vec<u8>,
    /// The number of their bytes.
    pub len: usize,
    pub ghost room: { length text.items ≡ LONG },
    pub ghost short: { len ≤ LONG },
}

impl Whole {
    ghost use Rattle.replay_server.specs.Texts.{whole_text};

    /// The arguments.
    pub fn bytes(&self) -> &[u8]
        ensures bytes { result.now ≡ whole_text self.now }
        ensures long { length result.now ≤ LONG }
    {
        &self.text[..self.len]
    }
}

/// What a body answers.
#[derive(Drop)]
pub struct Answer {
    pub signal: bool,
    pub reply: Vec<u8>,
    pub ghost short: { length reply.items ≤ LONG },
}
